//! Tables, of which each row is a case and what comes of it.
use crate::calls::name;
use crate::holding::beside;
use crate::losses::{kept, left};
use crate::mounting::drawn;
use crate::playing::{Cast, ends};
use crate::spelling::parts;
use crate::trials::{Trial, tried};
use std::process::Abort;
use test_lines::Line;

/// What the cases of a table are.
#[derive(Clone, Copy)]
pub(crate) enum Table {
    /// How the call of this trial goes wrong.
    Trial(Trial),
    /// The act in which the power goes off, and how many bytes more than the kept ones are left.
    Losses,
    /// The act in which the store fails, and how many bytes that leaves, in these rows before a loss of power.
    Kept(&'static str),
    /// The entries in the folder of who has the container open.
    Entries,
    /// The names in the folder of marks.
    Marks,
    /// There is no folder of marks.
    NoMarks,
}

fn told(cast: &Cast, table: &Table, case: &str) -> Option<Line> {
    match table {
        Table::Trial(trial) => tried(cast, trial, case),
        Table::Losses => left(cast, case),
        Table::Kept(rows) => kept(cast, rows, case),
        Table::Entries => beside(cast, case),
        Table::Marks => drawn(cast.alloc, &[name("mounts")], case),
        Table::NoMarks => drawn(cast.alloc, &[], case),
    }
}

/// What comes of each case is as its row tells.
pub(crate) fn all_tell<R: Abort>(rt: &R, cast: &Cast, tables: &[(Table, &str)]) {
    let mut wrong = Line::new(cast.alloc);
    for (table, rows) in tables {
        for row in rows.lines() {
            let (case, want) = parts(row, ':');
            match told(cast, table, case) {
                Some(line) => wrong.expect(case, &line, want),
                None => wrong.push("not mounted"),
            }
        }
    }
    ends(rt, wrong);
}
