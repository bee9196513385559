//! How many entries of each writer a line tells.
ghost use Rattle.std.specs.Prelude.{◌≡◌, IfOk};
ghost use Rattle.outcomes.specs.Counts.{counted, counts_of, cut_of};
ghost use Rattle.outcomes.specs.Outcomes.{flatten_outcome as outcome_of};

use crate::lines::stuck_outcome;
use flatten_core::Flattened;
use index_reader::OpenReader;
use mount_model::Stuck;
use plfs_types::{CountList, Cover, NoMemory, Trunc, TruncList, WriterCount};
use script_lang::Outcome;
use std::alloc::{AllocError, Global};

fn count_of(cover: &Cover) -> WriterCount
    ensures { result ≡ counted cover.now }
{
    WriterCount {
        writer: cover.writer,
        count: cover.count,
    }
}

fn counts(alloc: Global, covers: &[Cover]) -> Result<Vec<WriterCount>, AllocError>
    ensures { IfOk result (λ counts. counts.items ≡ cut_of covers.now) }
{
    covers
        .iter()
        .filter(|cover| cover.count > 0)
        .map(|cover| count_of(cover))
        .collect(alloc)
}

/// How many entries of each writer there are.
fn cut(alloc: Global, covers: &[Cover]) -> Result<CountList, NoMemory>
    ensures { IfOk result (λ cut. cut ≡ cut_of covers.now) }
{
    Ok(CountList::from_vec(counts(alloc, covers)?))
}

fn all_counts(alloc: Global, covers: &[Cover]) -> Result<Vec<WriterCount>, AllocError>
    ensures { IfOk result (λ counts. counts.items ≡ counts_of covers.now) }
{
    covers.iter().map(|cover| count_of(cover)).collect(alloc)
}

/// What the line says of a flattening: the index's id, how many pieces it has, and how many entries of each writer.
pub fn flatten_outcome(alloc: Global, made: Result<Flattened, Stuck>) -> Result<Outcome, NoMemory>
    ensures { IfOk result (λ outcome. outcome ≡ outcome_of made) }
{
    match made {
        Ok(flattened) => {
            let counts = all_counts(alloc, flattened.covers.as_slice())?;
            Ok(Outcome::Flattened {
                flat: flattened.flat,
                pieces: flattened.pieces,
                cut: CountList::from_vec(counts),
            })
        }
        Err(because) => Ok(stuck_outcome(because)),
    }
}

fn copied(alloc: Global, truncs: &[Trunc]) -> Result<TruncList, NoMemory>
    ensures { IfOk result (λ copy. copy ≡ truncs.now) }
{
    Ok(TruncList::from_vec(Vec::from_slice(alloc, truncs)?))
}

/// What the line says of a reader: the file's size in bytes, how many entries of each writer it shows, and the truncates.
pub fn reader_outcome(alloc: Global, reader: &OpenReader) -> Result<Outcome, NoMemory>
    ensures { IfOk result (λ outcome. outcome ≡ Outcome.Reader reader.now.size (cut_of reader.now.covers) reader.now.truncs) }
{
    let cut = cut(alloc, reader.covers().as_slice())?;
    let truncs = copied(alloc, reader.truncs().as_slice())?;
    Ok(Outcome::Reader {
        size: reader.size(),
        cut,
        truncs,
    })
}
