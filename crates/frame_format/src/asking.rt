//! What a request's numbers and bytes ask for.
ghost use Rattle.std.specs.Prelude.{◌≡◌, ◌==◌, ◌&&◌, length};
ghost use Rattle.frame_format.specs.Asking.{alone_name, if_bare, of_name, written as written_in, opened as opened_in, read_from as read_in, cut_to as cut_in, renamed as renamed_in, asked_in};
ghost use Rattle.script_lang.specs.declared.script.Statement.TheVariants as statement;

use plfs_types::{Bytes, LogicalName, MAX_BLOCK, name_in};
use script_lang::{Data, Statement};

fn is_bare(place: u64, extent: u64, payload: &[u8]) -> bool
    ensures { result ≡ (place == 0 && extent == 0 && length payload.now == 0) }
{
    place == 0 && extent == 0 && payload.is_empty()
}

fn name_alone(place: u64, extent: u64, payload: &[u8]) -> Option<LogicalName>
    ensures { result ≡ alone_name place extent payload.now }
{
    if place == 0 && extent == 0 {
        return name_in(payload);
    }
    None
}

fn written(place: u64, extent: u64, payload: Bytes) -> Option<Statement>
    ensures { result ≡ written_in place extent payload }
{
    if extent == 0 && payload.as_slice().len() <= MAX_BLOCK {
        return Some(Statement::Write {
            at: place,
            content: Data::Hex(payload),
        });
    }
    None
}

fn opened(place: u64, extent: u64, payload: &[u8]) -> Option<Statement>
    ensures { result ≡ opened_in place extent payload.now }
{
    if 1 <= place && place <= 16 && extent == 0 {
        let name = name_in(payload)?;
        return Some(Statement::Ropen {
            name,
            workers: place as u32,
        });
    }
    None
}

fn read_from(place: u64, extent: u64, payload: &[u8]) -> Option<Statement>
    ensures { result ≡ read_in place extent payload.now }
{
    if extent <= 1 << 24 && payload.is_empty() {
        return Some(Statement::Read {
            at: place,
            len: extent,
        });
    }
    None
}

fn cut_to(place: u64, extent: u64, payload: &[u8]) -> Option<Statement>
    ensures { result ≡ cut_in place extent payload.now }
{
    if extent == 0 {
        let name = name_in(payload)?;
        return Some(Statement::Trunc { name, size: place });
    }
    None
}

fn renamed(place: u64, extent: u64, payload: &[u8]) -> Option<Statement>
    ensures { result ≡ renamed_in place extent payload.now }
{
    if place == 0 && extent <= payload.len() as u64 {
        let (first, second) = payload.split_at(extent as usize);
        let name = name_in(first)?;
        let to = name_in(second)?;
        return Some(Statement::Rename { name, to });
    }
    None
}

fn open(place: u64, extent: u64, payload: &[u8]) -> Option<Statement>
    ensures { result ≡ of_name statement.Open place extent payload.now }
{
    let name = name_alone(place, extent, payload)?;
    Some(Statement::Open { name })
}

fn stat(place: u64, extent: u64, payload: &[u8]) -> Option<Statement>
    ensures { result ≡ of_name statement.Stat place extent payload.now }
{
    let name = name_alone(place, extent, payload)?;
    Some(Statement::Stat { name })
}

fn flatten(place: u64, extent: u64, payload: &[u8]) -> Option<Statement>
    ensures { result ≡ of_name statement.Flatten place extent payload.now }
{
    let name = name_alone(place, extent, payload)?;
    Some(Statement::Flatten { name })
}

fn recover(place: u64, extent: u64, payload: &[u8]) -> Option<Statement>
    ensures { result ≡ of_name statement.Recover place extent payload.now }
{
    let name = name_alone(place, extent, payload)?;
    Some(Statement::Recover { name })
}

fn bare(made: Statement, place: u64, extent: u64, payload: &[u8]) -> Option<Statement>
    ensures { result ≡ if_bare made place extent payload.now }
{
    if is_bare(place, extent, payload) {
        return Some(made);
    }
    None
}

// The statement of these numbers and bytes, or None exactly where they are none.
pub(crate) fn asked(kind: u64, place: u64, extent: u64, payload: Bytes) -> Option<Statement>
    ensures { result ≡ asked_in kind place extent payload }
{
    let bytes = payload.as_slice();
    match kind {
        1 => open(place, extent, bytes),
        2 => written(place, extent, payload),
        3 => bare(Statement::Sync, place, extent, bytes),
        4 => bare(Statement::Close, place, extent, bytes),
        5 => opened(place, extent, bytes),
        6 => read_from(place, extent, bytes),
        7 => bare(Statement::Refresh, place, extent, bytes),
        8 => bare(Statement::Map, place, extent, bytes),
        9 => bare(Statement::Rclose, place, extent, bytes),
        10 => stat(place, extent, bytes),
        11 => cut_to(place, extent, bytes),
        12 => renamed(place, extent, bytes),
        13 => flatten(place, extent, bytes),
        14 => recover(place, extent, bytes),
        15 => bare(Statement::Ls, place, extent, bytes),
        _ => None,
    }
}
