//! Items that stand within a word.
ghost use Rattle.std.specs.Prelude.{◌≡◌, ℕ, List, ◌++◌, ◌∷◌, OnOk};
ghost use Rattle.std.specs.Fmt.{decimal};
ghost use Rattle.std.specs.List.{flat_map};
ghost use Rattle.report_text.specs.Items.{pair_text, count_text, share_text, trunc_text, list_text};

use crate::words::digits;
use plfs_types::{Name, NoMemory, ShareBytes, Trunc, WriterCount};

// An item of a list that is one word.
pub trait Item {
    ghost text: { Self → List ℕ };

    // Writes the item's text at the end.
    fn append(&self, out: &mut Vec<u8>) -> Result<(), NoMemory>
        ensures { OnOk result (out.new.items ≡ out.old.items ++ text self.now) };
}

impl Item for WriterCount {
    ghost text = { count_text };

    fn append(&self, out: &mut Vec<u8>) -> Result<(), NoMemory> {
        pair(out, self.writer, self.count)
    }
}

impl Item for ShareBytes {
    ghost text = { share_text };

    fn append(&self, out: &mut Vec<u8>) -> Result<(), NoMemory> {
        pair(out, self.writer, self.bytes)
    }
}

impl Item for Trunc {
    ghost text = { trunc_text };

    fn append(&self, out: &mut Vec<u8>) -> Result<(), NoMemory> {
        pair(out, self.stamp, self.size)
    }
}

impl Item for u64 {
    ghost text = { decimal };

    fn append(&self, out: &mut Vec<u8>) -> Result<(), NoMemory> {
        digits(out, *self)
    }
}

impl Item for Name {
    ghost text = { λ name. name };

    fn append(&self, out: &mut Vec<u8>) -> Result<(), NoMemory> {
        out.extend_from_slice(self.bytes())?;
        Ok(())
    }
}

fn pair(out: &mut Vec<u8>, first: u64, second: u64) -> Result<(), NoMemory>
    ensures { OnOk result (out.new.items ≡ out.old.items ++ pair_text first second) }
{
    digits(out, first)?;
    out.push(b':')?;
    digits(out, second)
}

// A list as one word behind a space.
#[tactic(auto, using(crate::proofs::Joined::list_text_cons))]
pub fn list<T: Item>(out: &mut Vec<u8>, items: &[T]) -> Result<(), NoMemory>
    ensures { OnOk result (out.new.items ≡ out.old.items ++ 32 ∷ list_text T.text items.now) }
{
    out.push(b' ')?;
    let Some((first, others)) = items.split_first() else {
        out.push(b'-')?;
        return Ok(());
    };
    first.append(out)?;
    behind_commas(out, others)
}

fn behind_commas<T: Item>(out: &mut Vec<u8>, items: &[T]) -> Result<(), NoMemory>
    ensures { OnOk result (out.new.items ≡ out.old.items ++ flat_map (λ item. 44 ∷ T.text item) items.now) }
{
    for item in items {
        out.push(b',')?;
        item.append(out)?;
    }
    Ok(())
}
