//! Looking a writer up.
ghost use Rattle.std.specs.Prelude.{◌≡◌, ◌<◌, ◌≤◌, length, None, IfNone, IfSome, slice_get};
ghost use Rattle.mount_model.specs.declared.row.Row.{Row};
ghost use Rattle.mount_model.specs.Regular.{AreAscending};
ghost use Rattle.mount_model.specs.Table.{row_of, writer_of};
ghost use Rattle.plfs_types.specs.Places.{HasPassed};
ghost use Rattle.mount_table.specs.Stages.{allowed};

use crate::stages::Stages;
use crate::writer::Writer;

/// The place of the caller's writer of this id, where its stage is one of these. The rows stand by ascending id.
pub(crate) fn find(rows: &[Writer], caller: u64, stages: Stages, writer: u64) -> Option<usize>
    requires { AreAscending rows.now }
    ensures none { IfNone result (writer_of caller (allowed stages) writer rows.now ≡ None) }
    ensures some { IfSome result (λ place. slice_get rows.now place ≡ writer_of caller (allowed stages) writer rows.now) }
    ensures within { IfSome result (λ place. place < length rows.now) }
{
    let place = place_of(rows, writer)?;
    let row = rows[place].row();
    if row.owner != caller || !stages.has(row.stage) {
        return None;
    }
    Some(place)
}

/// The place of the writer's row.
pub(crate) fn place_of(rows: &[Writer], writer: u64) -> Option<usize>
    requires { AreAscending rows.now }
    ensures none { IfNone result (row_of writer rows.now ≡ None) }
    ensures some { IfSome result (λ place. slice_get rows.now place ≡ row_of writer rows.now) }
    ensures within { IfSome result (λ place. place < length rows.now) }
{
    let place = first_from(rows, writer);
    if place < rows.len() && rows[place].row().id == writer {
        Some(place)
    } else {
        None
    }
}

/// The place of the first row whose id is this one or a greater one.
fn first_from(rows: &[Writer], writer: u64) -> usize
    requires { AreAscending rows.now }
    ensures within { result ≤ length rows.now }
    ensures passed { HasPassed (λ (row : Row). row.id) writer result rows.now }
{
    rows.partition_point(|row| row.row().id < writer)
}
