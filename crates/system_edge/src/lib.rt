//! What a run of the program meets of the system: the name and the words that it was called with, the standard streams, the folders of ROOT
//! and their locks, files that are read in the place of standard input, and what is shown and remembered of its streams.
//!
//! The crate owns no rule of what lies in a folder. It stands on `store_folder`, whose stores it opens on the folders.
#![tactic(auto)]

mod amount;
mod called;
mod descriptors;
mod folders;
mod inputs;
mod lock;
mod named;
mod roots;
mod said;
mod sources;
mod spelled;
mod standard;

pub use amount::{Amount, file_length, files_length, hundredths, input_length};
pub use called::{Called, Program, read_called};
pub use descriptors::lengthen_table;
pub use folders::{MOST_FOLDERS, Stores, are_named, failed, folders_of, read_ahead, stores_of};
pub use inputs::{Files, Input, Unopened, open_files, split_from};
pub use lock::{Denial, Denied, Locks, lock_folders};
pub use named::program_called;
pub use said::{Said, Saying};
pub use sources::look_at;
pub use spelled::Spelled;
pub use standard::{INPUT, OUTPUT, Standard};
