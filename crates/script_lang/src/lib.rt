//! Scripts, what they have their actors do, and the lines that tell what became of each statement. It stands on
//! the shared values, on `indexmap` for the actors, on `hex` for data and on `itoa` for the names of generated scripts.
#![tactic(auto)]

mod cast;
mod data;
mod draft;
mod flaw;
mod generated;
mod line;
mod line_list;
mod meaning;
mod names;
mod numbers;
mod reading;
mod script;
mod spelling;
mod statement;
mod statement_list;
mod trouble;
mod verb;
mod words;

pub use generated::generate;
pub use line::{Line, MadeWrite, MapText, Mishap, Outcome, Why};
pub use line_list::{CompactLine, LineList, Lines, Seen};
pub use script::{
    ActorDecl, ActorList, Data, Numbered, Phase, PhaseList, Script, Statement, TurnList, Turned,
};
pub use spelling::{scripts_are_told_apart, statements_are_told_apart};
pub use statement_list::{CompactStatement, StatementList};
pub use trouble::{Kind, ScriptTrouble};
