//! The program `plfs`, which serves `plfs_copy`, `plfs_check` and `plfs_serve` under their names too: the command of its words, over real
//! folders, the standard streams and the system's clock. It owns no rule of what lies there; all of them stand in
//! `plfs_program`, `copy_program`, `export_program`, `check_program`, `drain_program` and `serve_program`.
//! It owns the order in which a run takes things up: its words, its input, and only then the folders, which it locks. A run of
//! `plfs_copy` reads its input behind that. Where a run ends with a status from 3 to 7, it says why on standard error, in one line.
#![tactic(auto)]

ghost use Rattle.std.specs.Prelude.{◌≡◌, ◌≢◌, ◌≤◌, ◌⊎◌, [], Some, None, true, false, length};
ghost use Rattle.std.specs.Process.{exit_status};
ghost use Rattle.check_program.specs.Words.{IsCheckCommand};
ghost use Rattle.check_program.specs.declared.words.CheckCommand.{CheckCommand as CheckAsked};
ghost use Rattle.command_line.specs.Commands.{IsCommand};
ghost use Rattle.command_line.specs.declared.commands.Command.{Command as Asked};
ghost use Rattle.plfs.specs.Tasks.{writes_whole_files};
ghost use Rattle.plfs.specs.Words.{AreOfDrain, AreOfFolder, AreTaken};

mod entries;
mod exporting;
mod progress;
mod reading;
mod serving;
mod task;
mod telling;

use crate::entries::list_files;
use crate::exporting::obey_export;
use crate::reading::{copies_the_input, read_input};
use crate::serving::obey_serve;
use crate::task::{Task, run, starts_threads, writes_whole_files};
use crate::telling::{
    starved, tell_denied, tell_ran, tell_unlisted, tell_unopened, tell_unread, unread, usage,
};
use check_program::CheckCommand;
use command_line::Command;
use copy_program::{CopyCommand, ImportCommand};
use drain_program::DrainCommand;
use plfs_program::HeldInput;
use plfs_types::Word;
use spread_store::{Backing, Spread};
use std::cell::RefCell;
use std::io;
use std::process::ExitCode;
use std::sync::Wait;
use std::thread::Threads;
use store_folder::FolderStore;
use system_edge::{
    Called, INPUT, MOST_FOLDERS, Program, Standard, are_named, folders_of, lengthen_table,
    lock_folders, look_at, open_files, program_called, read_ahead, read_called, split_from,
    stores_of,
};

/// Reads the words, the first of which is the folder, and ends with the status of their command. A standard stream
/// that the program was started without fails, and none of the store's files comes into its place.
///
/// No folder is touched before the words are a command's and, but for `plfs_copy`, its input was read. From then on until the end each folder
/// is locked, so that no other program works on it.
fn main(rt: HostRuntime) -> ExitCode {
    let standard = match Standard::take(&rt) {
        Ok(standard) => standard,
        Err(error) => {
            let _ = println!(rt; "0 fault");
            let _ = eprintln!(rt; "plfs: /: open: {error}");
            return ExitCode::from(4);
        }
    };
    let Ok(called) = read_called(&rt, rt.alloc()) else {
        return starved(&rt);
    };
    let Some(Called { program, words }) = called else {
        return usage(&rt, program_called(&rt));
    };
    let Some((root, words)) = words.split_first() else {
        return usage(&rt, program);
    };
    let Ok(folders) = folders_of(rt.alloc(), root) else {
        return starved(&rt);
    };
    if folders.len() > MOST_FOLDERS || !are_named(&folders) {
        return usage(&rt, program);
    }
    match program {
        Program::Plfs => obey(&rt, rt, root, &folders, words, &standard),
        Program::Copy => obey_copy(&rt, rt, root, &folders, words, &standard),
        Program::Check => obey_check(&rt, rt, root, &folders, words, &standard),
        Program::Serve => obey_serve(&rt, rt, root, &folders, words, &standard),
    }
}

// The bytes of standard input, where the command reads them. The reader, which has a large buffer on the stack, ends with it.
#[inline(never)]
fn input_of(rt: &HostRuntime, command: &Command) -> io::Result<HeldInput> {
    Ok(HeldInput::new(read_input(rt.alloc(), rt.reader(), command)?))
}

// Does what the words of `plfs` ask for.
#[inline(never)]
fn obey<H: Threads + Wait + Sync + Copy + Send + 'static>(
    handle: &H,
    rt: HostRuntime,
    root: &Word,
    folders: &[&str],
    words: &[Word],
    standard: &Standard,
) -> ExitCode
    requires few { length folders.now ≤ MOST_FOLDERS }
    ensures usage { ((command : Asked) → ¬ IsCommand words.now command) → ¬ AreOfDrain words.now → (exit_status result ≡ 2) ⊎ (exit_status result ≡ 3) }
{
    let Ok(command) = Command::read(rt.alloc(), words) else {
        return starved(&rt);
    };
    let Some(command) = command else {
        return obey_drain(handle, rt, root, folders, words, standard);
    };
    let input = match input_of(&rt, &command) {
        Ok(input) => RefCell::new(input),
        Err(error) => return unread(&rt, error, standard),
    };
    let task = Task::Plfs {
        words,
        command,
        input: &input,
    };
    serve(handle, rt, root, folders, &task, standard)
}

// Drains a file to a second folder, where the words ask for that. Its folder is locked before those that are drained.
#[inline(never)]
fn obey_drain<H: Threads + Wait + Sync + Copy + Send + 'static>(
    handle: &H,
    rt: HostRuntime,
    root: &Word,
    folders: &[&str],
    words: &[Word],
    standard: &Standard,
) -> ExitCode
    requires few { length folders.now ≤ MOST_FOLDERS }
    ensures usage { ¬ AreOfDrain words.now → exit_status result ≡ 2 }
{
    let Some(folder) = words.get(2) else {
        return usage(&rt, Program::Plfs);
    };
    if DrainCommand::read(words).is_none() {
        return usage(&rt, Program::Plfs);
    }
    let targets = [folder.as_str()];
    let locks = match lock_folders(&rt, &targets) {
        Ok(locks) => locks,
        Err(denied) => return tell_denied(&rt, &targets, denied, standard),
    };
    let code = serve(
        handle,
        rt,
        root,
        folders,
        &Task::Drain { words, folder },
        standard,
    );
    drop(locks);
    code
}

// Does what the words of `plfs_copy` ask for. Without standard input nothing is put, and neither where one of the files in its place
// can't be opened or read.
#[inline(never)]
fn obey_copy<H: Threads + Wait + Sync + Copy + Send + 'static>(
    handle: &H,
    rt: HostRuntime,
    root: &Word,
    folders: &[&str],
    words: &[Word],
    standard: &Standard,
) -> ExitCode
    requires few { length folders.now ≤ MOST_FOLDERS }
    ensures usage { ¬ AreTaken words.now → exit_status result ≡ 2 }
{
    let (words, behind) = split_from(words);
    let Some(command) = CopyCommand::read(words) else {
        return obey_import(handle, rt, root, folders, words, behind, standard);
    };
    match behind {
        [] => {
            if copies_the_input(&command) && standard.has(INPUT) {
                return unread(&rt, io::Error::other("it is closed"), standard);
            }
            if copies_the_input(&command) {
                if let Err(error) = look_at(&mut rt.stdin()) {
                    return unread(&rt, error, standard);
                }
            }
            let opened = RefCell::new(Vec::new(rt.alloc()));
            let task = Task::Copy {
                words,
                command,
                files: &[],
                opened: &opened,
            };
            serve(handle, rt, root, folders, &task, standard)
        }
        [_] => usage(&rt, Program::Copy),
        [_, files @ ..] => {
            if !copies_the_input(&command) {
                return usage(&rt, Program::Copy);
            }
            let opened = match open_files(&rt, rt.alloc(), files) {
                Ok(opened) => RefCell::new(opened),
                Err(unopened) => return tell_unread(&rt, unopened),
            };
            let task = Task::Copy {
                words,
                command,
                files,
                opened: &opened,
            };
            serve(handle, rt, root, folders, &task, standard)
        }
    }
}

// Puts the files of a folder, where the words of `plfs_copy` ask for that, or writes all files out.
#[inline(never)]
fn obey_import<H: Threads + Wait + Sync + Copy + Send + 'static>(
    handle: &H,
    rt: HostRuntime,
    root: &Word,
    folders: &[&str],
    words: &[Word],
    behind: &[Word],
    standard: &Standard,
) -> ExitCode
    requires few { length folders.now ≤ MOST_FOLDERS }
    ensures behind { behind.now ≢ [] → exit_status result ≡ 2 }
    ensures usage { ¬ AreOfFolder words.now → exit_status result ≡ 2 }
{
    if !behind.is_empty() {
        return usage(&rt, Program::Copy);
    }
    let Some(command) = ImportCommand::read(words) else {
        return obey_export(handle, rt, root, folders, words, standard);
    };
    let Some(folder) = words.get(1) else {
        return usage(&rt, Program::Copy);
    };
    let entries = match list_files(&rt, folder) {
        Ok(entries) => entries,
        Err(unlisted) => return tell_unlisted(&rt, folder, unlisted),
    };
    let task = Task::Import {
        command,
        folder,
        entries: &entries,
    };
    serve(handle, rt, root, folders, &task, standard)
}

// Does what the words of `plfs_check` ask for.
#[inline(never)]
fn obey_check<H: Threads + Wait + Sync + Copy + Send + 'static>(
    handle: &H,
    rt: HostRuntime,
    root: &Word,
    folders: &[&str],
    words: &[Word],
    standard: &Standard,
) -> ExitCode
    requires few { length folders.now ≤ MOST_FOLDERS }
    ensures usage { ((command : CheckAsked) → ¬ IsCheckCommand words.now command) → exit_status result ≡ 2 }
{
    if CheckCommand::read(words).is_none() {
        return usage(&rt, Program::Check);
    }
    serve(handle, rt, root, folders, &Task::Check { words }, standard)
}

// Locks the folders, and runs the command over them.
fn serve<H: Threads + Wait + Sync + Copy + Send + 'static>(
    handle: &H,
    rt: HostRuntime,
    root: &Word,
    folders: &[&str],
    task: &Task<'_>,
    standard: &Standard,
) -> ExitCode
    requires few { length folders.now ≤ MOST_FOLDERS }
{
    let locks = match lock_folders(&rt, folders) {
        Ok(locks) => locks,
        Err(denied) => return tell_denied(&rt, folders, denied, standard),
    };
    if starts_threads(task) {
        lengthen_table(&rt);
    }
    let code = if folders.len() > 1 {
        serve_several(handle, rt, root, folders, task, standard)
    } else {
        serve_one(handle, rt, root, folders, task, standard)
    };
    drop(locks);
    code
}

// The handle, where the command writes whole files out: then a thread reads ahead.
fn ahead<H: Copy>(handle: &H, task: &Task<'_>) -> Option<H>
    ensures reads { writes_whole_files task.now ≡ true → result ≡ Some handle.now }
    ensures none { writes_whole_files task.now ≡ false → result ≡ None }
{
    if writes_whole_files(task) {
        Some(*handle)
    } else {
        None
    }
}

// Runs the command over one folder.
#[inline(never)]
fn serve_one<H: Threads + Wait + Sync + Copy + Send + 'static>(
    handle: &H,
    rt: HostRuntime,
    root: &Word,
    folders: &[&str],
    task: &Task<'_>,
    standard: &Standard,
) -> ExitCode {
    let Ok(mut store) = FolderStore::open(rt, rt.alloc(), root) else {
        return starved(&rt);
    };
    read_ahead(rt, &mut store, ahead(handle, task));
    let ran = run(handle, &rt, task, Backing::One(store));
    tell_ran(&rt, root, folders, task, ran, standard)
}

// Runs the command over several folders as one store.
#[inline(never)]
fn serve_several<H: Threads + Wait + Sync + Copy + Send + 'static>(
    handle: &H,
    rt: HostRuntime,
    root: &Word,
    folders: &[&str],
    task: &Task<'_>,
    standard: &Standard,
) -> ExitCode
    requires some { 1 ≤ length folders.now }
    requires few { length folders.now ≤ MOST_FOLDERS }
{
    let Ok(stores) = stores_of(rt, folders, ahead(handle, task)) else {
        return starved(&rt);
    };
    match Spread::open(rt.alloc(), stores) {
        Ok(spread) => {
            let ran = run(handle, &rt, task, Backing::Several(spread));
            tell_ran(&rt, root, folders, task, ran, standard)
        }
        Err((stores, trouble)) => tell_unopened(&rt, root, folders, &stores, trouble, standard),
    }
}
