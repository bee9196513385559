//! An open file with its length.
ghost use Rattle.std.specs.Prelude.{◌≡◌, ◌==◌, ◌∷◌, [], ℕ, List, length, nat_eq, Ok, IfOk, IfErr, OnOk};
ghost use Rattle.std.specs.Cmp.Lexicographic.{pointwise};
ghost use Rattle.store_api.specs.Step.{step_of};
ghost use Rattle.folder_calls.specs.Calls.{Makes, read_bytes, failed_calls};
ghost use Rattle.folder_calls.specs.OpenFiles.{met_of, IsHeld, ReadsOpen, FailsToLook, GoesOver, IsStopped, WritesOpen, CutsOpen, SyncsOpen, ActsOpen, grown, cut_to, held_after};

use crate::calls::Calls;
use crate::failure::Failure;
use crate::reason::Reason;
use plfs_types::Bytes;
use std::alloc::Global;
use store_api::{Answer, Step};

/// An open file, its length in bytes, and how many of its first bytes are of earlier runs, as far as they are still
/// there. Nothing but the store changes it while it is open.
#[derive(Drop)]
pub struct Held<F> {
    file: F,
    len: u64,
    met: u64,
}

// How many bytes of earlier runs a file has that was found with this length: none where it is this run's own.
fn met_of(is_own: bool, len: u64) -> u64
    ensures { result ≡ met_of is_own len }
{
    if is_own { 0 } else { len }
}

impl<F: Drop> Held<F> {
    /// An open file, whose length is asked of the system. It is this run's own, or is met with all its bytes.
    pub fn new<C: Calls<File = F>>(calls: &mut C, file: F, is_own: bool) -> Result<Held<F>, Failure>
        ensures holds { IsHeld file is_own (C.log calls.old) (C.log calls.new) result }
        ensures well { IfOk result (λ _. failed_calls (C.log calls.new) ≡ failed_calls (C.log calls.old)) }
    {
        let len = calls.length(&file)?;
        let met = met_of(is_own, len);
        Ok(Held { file, len, met })
    }

    /// A file that was just made.
    pub fn empty(file: F) -> Held<F>
        ensures file { result.file ≡ file }
        ensures length { result.len ≡ 0 }
        ensures met { result.met ≡ 0 }
    {
        Held {
            file,
            len: 0,
            met: 0,
        }
    }

    /// Whether it has no bytes.
    pub fn is_empty(&self) -> bool
        ensures { result ≡ (self.now.len == 0) }
    {
        self.len == 0
    }

    /// Makes a step on this file.
    pub fn act<C: Calls<File = F>>(
        &mut self,
        calls: &mut C,
        alloc: Global,
        step: &Step<'_>,
    ) -> Result<Answer, Failure>
        ensures acts { ActsOpen self.old (C.log calls.old) (C.log calls.new) (step_of step.now) result }
        ensures after { IfOk result (λ answer. self.new ≡ held_after self.old (step_of step.now) answer) }
        ensures well { IfOk result (λ _. failed_calls (C.log calls.new) ≡ failed_calls (C.log calls.old)) }
    {
        match *step {
            Step::Length { .. } => Ok(Answer::Number { value: self.len }),
            Step::ReadAt { at, len, .. } => self.read_at(calls, alloc, at, len),
            Step::WriteAt { at, bytes, .. } => self.write_at(calls, alloc, at, bytes),
            Step::Cut { len, .. } => self.cut(calls, len),
            Step::Sync { .. } => self.sync(calls),
            _ => Err(Failure::Failed),
        }
    }

    // At most `len` bytes from `at` on, none past the end.
    fn read_at<C: Calls<File = F>>(
        &self,
        calls: &mut C,
        alloc: Global,
        at: u64,
        len: u64,
    ) -> Result<Answer, Failure>
        ensures reads { ReadsOpen self.now (C.log calls.old) (C.log calls.new) at len result }
        ensures well { IfOk result (λ _. failed_calls (C.log calls.new) ≡ failed_calls (C.log calls.old)) }
    {
        let left = self.len.saturating_sub(at).min(len);
        if left == 0 {
            return Ok(Answer::Bytes(Bytes::new(alloc)));
        }
        let behind = self.len.saturating_sub(at).saturating_sub(left);
        if let Some(bytes) = calls.read_ahead(&self.file, at, left, behind) {
            return Ok(Answer::Bytes(Bytes::from_vec(bytes)));
        }
        let mut bytes = Vec::from_elem(alloc, 0u8, left as usize)?;
        calls.read_exact_at(&self.file, bytes.as_mut_slice(), at)?;
        Ok(Answer::Bytes(Bytes::from_vec(bytes)))
    }

    // Whether these bytes stand from `at` on.
    fn has_at<C: Calls<File = F>>(
        &self,
        calls: &mut C,
        alloc: Global,
        at: u64,
        bytes: &[u8],
    ) -> Result<bool, Failure>
        ensures read { IfOk result (λ is_there. (there : List ℕ) × Makes (read_bytes self.now.file at (length bytes.now) (Ok there) ∷ []) (C.log calls.old) (C.log calls.new) × (is_there ≡ pointwise nat_eq there bytes.now)) }
        ensures unread { IfErr result (FailsToLook self.now at (length bytes.now) (C.log calls.old) (C.log calls.new)) }
        ensures well { IfOk result (λ _. failed_calls (C.log calls.new) ≡ failed_calls (C.log calls.old)) }
    {
        let mut there = Vec::from_elem(alloc, 0u8, bytes.len())?;
        calls.read_exact_at(&self.file, there.as_mut_slice(), at)?;
        Ok(there.as_slice() == bytes)
    }

    // Where a write goes over bytes of earlier runs, these have to be the same.
    fn go_over<C: Calls<File = F>>(
        &self,
        calls: &mut C,
        alloc: Global,
        at: u64,
        bytes: &[u8],
    ) -> Result<(), Failure>
        ensures over { OnOk result (GoesOver self.now at bytes.now (C.log calls.old) (C.log calls.new)) }
        ensures stopped { IfErr result (IsStopped self.now at bytes.now (C.log calls.old) (C.log calls.new)) }
        ensures well { IfOk result (λ _. failed_calls (C.log calls.new) ≡ failed_calls (C.log calls.old)) }
    {
        let count = self.met.saturating_sub(at).min(bytes.len() as u64);
        if count == 0 {
            return Ok(());
        }
        let over = &bytes[..count as usize];
        if self.has_at(calls, alloc, at, over)? {
            return Ok(());
        }
        calls.tell(Reason::Overwrites);
        Err(Failure::Failed)
    }

    // Writes the bytes from `at` on.
    fn write_at<C: Calls<File = F>>(
        &mut self,
        calls: &mut C,
        alloc: Global,
        at: u64,
        bytes: &[u8],
    ) -> Result<Answer, Failure>
        ensures acts { WritesOpen self.old (C.log calls.old) (C.log calls.new) at bytes.now result }
        ensures after { IfOk result (λ answer. self.new ≡ grown self.old at bytes.now answer) }
        ensures well { IfOk result (λ _. failed_calls (C.log calls.new) ≡ failed_calls (C.log calls.old)) }
    {
        if at > self.len {
            return Ok(Answer::Beyond);
        }
        self.go_over(calls, alloc, at, bytes)?;
        calls.write_all_at(&self.file, bytes, at)?;
        self.len = self.len.max(at.saturating_add(bytes.len() as u64));
        Ok(Answer::Made)
    }

    // Keeps the first `len` bytes.
    fn cut<C: Calls<File = F>>(&mut self, calls: &mut C, len: u64) -> Result<Answer, Failure>
        ensures acts { CutsOpen self.old (C.log calls.old) (C.log calls.new) len result }
        ensures after { IfOk result (λ answer. self.new ≡ cut_to self.old len answer) }
        ensures well { IfOk result (λ _. failed_calls (C.log calls.new) ≡ failed_calls (C.log calls.old)) }
    {
        if len > self.len {
            return Ok(Answer::Beyond);
        }
        calls.set_length(&self.file, len)?;
        self.len = len;
        self.met = self.met.min(len);
        Ok(Answer::Made)
    }

    // Syncs the file's bytes and its length.
    fn sync<C: Calls<File = F>>(&self, calls: &mut C) -> Result<Answer, Failure>
        ensures syncs { SyncsOpen self.now (C.log calls.old) (C.log calls.new) result }
        ensures well { IfOk result (λ _. failed_calls (C.log calls.new) ≡ failed_calls (C.log calls.old)) }
    {
        calls.sync(&self.file)?;
        Ok(Answer::Made)
    }
}
