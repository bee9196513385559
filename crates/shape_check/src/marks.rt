//! The room of the mounts' marks.
ghost use Rattle.std.specs.Prelude.{◌≡◌, ◌⊎◌, ◌↔◌, [], Some, IfErr, IfOk, IsTrue, OnOk};
ghost use Rattle.store_api.specs.declared.tree.Tree.{Tree};
ghost use Rattle.store_api.specs.Names.{marks_name as marks_room_name, marks_folder as marks_folder_name};
ghost use Rattle.mount_sound.specs.Marks.{IsMarksRoom, IsOfMark};
ghost use Rattle.shape_check.specs.declared.finding.Complaint.TheVariants.{ForeignFolder};
ghost use Rattle.shape_check.specs.declared.finding.Finding.TheVariants.{Broken};
ghost use Rattle.shape_check.specs.Places.{IsMarksPlace, IsMarkName, OfMarks, IsFineMark, IsFineFile, IsFineTop, Each, ShowsNames, HasMarks};
ghost use Rattle.shape_check.specs.Rightness.{Fails, IsNoComplaint, IsOfShape};
ghost use Rattle.shape_check.specs.Seeing.{IsSeen, IsLookedAt, HasRoom};

use crate::finding::{Complaint, Finding, broken};
use crate::looks::{length, list};
use container_layout::{print_number, read_number};
use plfs_types::{Name, NameList, Path};
use store_api::{Store, marks_folder, marks_name};

/// Where a file at the top of a room would be.
pub fn at_top(file: Name) -> Path
    ensures { result ≡ record { folder = []; file = file } }
{
    Path {
        folder: Name::empty(),
        file,
    }
}

/// Whether the room has the folder of marks, empty marks in it, and nothing else.
#[tactic(auto, using(crate::proofs::MarkLemmas::no_room, crate::proofs::MarkLemmas::marks_checked, crate::proofs::LoopLemmas::fails_on, crate::proofs::LoopLemmas::later_fails, crate::proofs::Seen::looked_on, crate::proofs::Unbroken::unbroken_shape))]
pub fn check_marks<S: Store>(store: &mut S, number: u64) -> Result<(), Finding>
    ensures looked { IsLookedAt (S.stored store.old) (S.stored store.new) }
    ensures ok { OnOk result (OfMarks IsMarksRoom number (S.stored store.old)) }
    ensures err { IfErr result (Fails (IsMarksPlace number) (S.stored store.old) (S.stored store.new)) }
    ensures shape { IfErr result (IsOfShape marks_room_name) }
{
    let tops = tops_of(store, number)?;
    check_tops(store, number, tops.as_slice())?;
    let files = files_of(store, number)?;
    check_files(store, number, files.as_slice())
}

/// The names of the room's top.
#[tactic(auto, using(crate::proofs::MarkLemmas::tops_shown, crate::proofs::MarkLemmas::tops_untold))]
pub fn tops_of<S: Store>(store: &mut S, number: u64) -> Result<NameList, Finding>
    ensures looked { IsLookedAt (S.stored store.old) (S.stored store.new) }
    ensures ok { IfOk result (λ names. ShowsNames (S.stored store.old) number [] names) }
    ensures err { IfErr result (Fails (HasRoom number) (S.stored store.old) (S.stored store.new)) }
    ensures unbroken { IfErr result IsNoComplaint }
{
    match list(store, number, Name::empty())? {
        Some(names) => Ok(names),
        None => Err(Finding::Untold),
    }
}

/// The names of the marks.
#[tactic(auto, using(crate::proofs::MarkLemmas::no_room, crate::proofs::MarkLemmas::names_shown, crate::proofs::MarkLemmas::marks_missing, crate::proofs::Unbroken::unbroken_shape))]
fn files_of<S: Store>(store: &mut S, number: u64) -> Result<NameList, Finding>
    ensures looked { IsLookedAt (S.stored store.old) (S.stored store.new) }
    ensures ok { IfOk result (λ names. ShowsNames (S.stored store.old) number marks_folder_name names) }
    ensures err { IfErr result (Fails (IsMarksPlace number) (S.stored store.old) (S.stored store.new)) }
    ensures shape { IfErr result (IsOfShape marks_room_name) }
{
    match list(store, number, marks_folder())? {
        Some(names) => Ok(names),
        None => Err(Finding::Broken {
            complaint: Complaint::NoFolder {
                room: marks_name(),
                folder: marks_folder(),
            },
        }),
    }
}

#[tactic(auto, using(crate::proofs::LoopLemmas::fails_on, crate::proofs::LoopLemmas::marks_on, crate::proofs::LoopLemmas::looked_same, crate::proofs::LoopLemmas::none_yet, crate::proofs::LoopLemmas::one_more, crate::proofs::LoopLemmas::all_of_them, crate::proofs::Seen::looked_on))]
fn check_tops<S: Store>(store: &mut S, number: u64, tops: &[Name]) -> Result<(), Finding>
    ensures looked { IsLookedAt (S.stored store.old) (S.stored store.new) }
    ensures ok { OnOk result (OfMarks (Each IsFineTop tops.now) number (S.stored store.old)) }
    ensures err { IfErr result (Fails (IsMarksPlace number) (S.stored store.old) (S.stored store.new)) }
    ensures shape { IfErr result (IsOfShape marks_room_name) }
{
    for top in tops {
        check_top(store, number, *top)?;
    }
    Ok(())
}

/// Whether the entry of the top is the folder of marks, and no file. A folder's name is asked for no file, which a store on
/// real folders would take for a fault.
#[tactic(auto, using(crate::proofs::MarkLemmas::no_room, crate::proofs::LoopLemmas::fails_on, crate::proofs::LoopLemmas::later_fails, crate::proofs::Seen::looked_on, crate::proofs::Unbroken::unbroken_shape))]
fn check_top<S: Store>(store: &mut S, number: u64, top: Name) -> Result<(), Finding>
    ensures looked { IsLookedAt (S.stored store.old) (S.stored store.new) }
    ensures ok { OnOk result (OfMarks (IsFineTop top) number (S.stored store.old)) }
    ensures err { IfErr result (Fails (IsMarksPlace number) (S.stored store.old) (S.stored store.new)) }
    ensures shape { IfErr result (IsOfShape marks_room_name) }
{
    if top == Name::empty() {
        return check_top_file(store, number, top);
    }
    match list(store, number, top)? {
        Some(_names) => judge_folder(top),
        None => check_top_file(store, number, top),
    }
}

/// Whether it is no file.
#[tactic(auto, using(crate::proofs::MarkLemmas::no_room, crate::proofs::MarkLemmas::top_file, crate::proofs::MarkLemmas::mark_gone, crate::proofs::LoopLemmas::fails_on, crate::proofs::Unbroken::unbroken_shape))]
fn check_top_file<S: Store>(store: &mut S, number: u64, top: Name) -> Result<(), Finding>
    ensures looked { IsLookedAt (S.stored store.old) (S.stored store.new) }
    ensures ok { OnOk result (OfMarks (IsFineMark (record { folder = []; file = top })) number (S.stored store.old)) }
    ensures err { IfErr result (Fails (IsMarksPlace number) (S.stored store.old) (S.stored store.new)) }
    ensures shape { IfErr result (IsOfShape marks_room_name) }
{
    let path = at_top(top);
    match length(store, number, &path)? {
        Some(_) => broken(Complaint::NoMark { path }),
        None => Ok(()),
    }
}

/// Whether the room of marks may have the folder.
fn judge_folder(top: Name) -> Result<(), Finding>
    ensures ok { OnOk result ((top ≡ []) ⊎ (top ≡ marks_folder_name)) }
    ensures err { IfErr result (λ finding. (finding ≡ Broken (ForeignFolder marks_room_name top)) × ((top ≡ []) ⊎ (top ≡ marks_folder_name) → ⊥)) }
    ensures shape { IfErr result (IsOfShape marks_room_name) }
{
    if top == Name::empty() || top == marks_folder() {
        Ok(())
    } else {
        broken(Complaint::ForeignFolder {
            room: marks_name(),
            folder: top,
        })
    }
}

#[tactic(auto, using(crate::proofs::LoopLemmas::fails_on, crate::proofs::LoopLemmas::marks_on, crate::proofs::LoopLemmas::looked_same, crate::proofs::LoopLemmas::none_yet, crate::proofs::LoopLemmas::one_more, crate::proofs::LoopLemmas::all_of_them, crate::proofs::Seen::looked_on))]
fn check_files<S: Store>(store: &mut S, number: u64, files: &[Name]) -> Result<(), Finding>
    ensures looked { IsLookedAt (S.stored store.old) (S.stored store.new) }
    ensures ok { OnOk result (OfMarks (Each IsFineFile files.now) number (S.stored store.old)) }
    ensures err { IfErr result (Fails (IsMarksPlace number) (S.stored store.old) (S.stored store.new)) }
    ensures shape { IfErr result (IsOfShape marks_room_name) }
{
    for file in files {
        check_mark(store, number, *file)?;
    }
    Ok(())
}

/// Whether the file is an empty mark.
#[tactic(auto, using(crate::proofs::MarkLemmas::no_room, crate::proofs::MarkLemmas::mark_gone, crate::proofs::MarkLemmas::mark_fine, crate::proofs::Unbroken::unbroken_shape))]
fn check_mark<S: Store>(store: &mut S, number: u64, file: Name) -> Result<(), Finding>
    ensures looked { IsLookedAt (S.stored store.old) (S.stored store.new) }
    ensures ok { OnOk result (OfMarks (IsFineMark (record { folder = marks_folder_name; file = file })) number (S.stored store.old)) }
    ensures err { IfErr result (Fails (IsMarksPlace number) (S.stored store.old) (S.stored store.new)) }
    ensures shape { IfErr result (IsOfShape marks_room_name) }
{
    let path = Path {
        folder: marks_folder(),
        file,
    };
    let Some(len) = length(store, number, &path)? else {
        return Ok(());
    };
    if !is_fine_mark(&file, len) {
        return broken(Complaint::NoMark { path });
    }
    Ok(())
}

/// Whether a file of this name and length is a mark.
fn is_fine_mark(file: &Name, len: u64) -> bool
    ensures { IsTrue result ↔ ((len ≡ 0) × IsMarkName file.now) }
{
    len == 0 && is_mark(file)
}

/// Whether a mark may have the name.
fn is_mark(file: &Name) -> bool
    ensures { IsTrue result ↔ IsMarkName file.now }
{
    match read_number(file) {
        Some(mount) => 1 <= mount && mount <= u64::from(u32::MAX),
        None => false,
    }
}

/// Whether a mount with a mark may have drawn the id.
#[tactic(auto, using(crate::proofs::IdLemmas::no_marks))]
pub fn is_marked<S: Store>(store: &mut S, marks: Option<u64>, id: u64) -> Result<bool, Finding>
    ensures looked { IsLookedAt (S.stored store.old) (S.stored store.new) }
    ensures ok { IfOk result (λ is. (tree : Tree) → IsSeen (S.stored store.old) tree → HasMarks marks tree → (IsTrue is ↔ IsOfMark tree id)) }
    ensures err { IfErr result (Fails (HasMarks marks) (S.stored store.old) (S.stored store.new)) }
    ensures unbroken { IfErr result IsNoComplaint }
{
    match marks {
        Some(number) => is_of_mark(store, number, id),
        None => Ok(false),
    }
}

/// The same, where the room of marks has this number.
#[tactic(auto, using(crate::proofs::IdLemmas::marks_room, crate::proofs::IdLemmas::no_serial, crate::proofs::IdLemmas::drawn))]
fn is_of_mark<S: Store>(store: &mut S, number: u64, id: u64) -> Result<bool, Finding>
    ensures looked { IsLookedAt (S.stored store.old) (S.stored store.new) }
    ensures ok { IfOk result (λ is. (tree : Tree) → IsSeen (S.stored store.old) tree → HasMarks (Some number) tree → (IsTrue is ↔ IsOfMark tree id)) }
    ensures err { IfErr result (Fails (HasMarks (Some number)) (S.stored store.old) (S.stored store.new)) }
    ensures unbroken { IfErr result IsNoComplaint }
{
    let serial = id % (1 << 32);
    if serial == 0 {
        return Ok(false);
    }
    let mark = Path {
        folder: marks_folder(),
        file: print_number(id / (1 << 32)),
    };
    let len = length(store, number, &mark)?;
    Ok(is_empty(len))
}

/// Whether a file of this length is there and empty.
fn is_empty(len: Option<u64>) -> bool
    ensures { IsTrue result ↔ (len ≡ Some 0) }
{
    len == Some(0)
}
