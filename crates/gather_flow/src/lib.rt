//! The gathering of a container that is listed: its index droppings are read in shares, and then its truncates are listed.
//!
//! The crate owns who gathers: the droppings are dealt to so many shares, which are read one after the other, or by workers, who
//! get a machine each and whose shares are joined into one; and what was
//! gathered as one index, of each writer the cover that its share tells, or else the flattened index's. What comes of that
//! is a reader, or what is told of the file, or the index itself. It stands on the machines of `index_reader`.
#![tactic(auto)]

mod all_read;
mod copying;
mod dealing;
mod gathering;
mod laws;
mod listed;
mod work_list;

pub use all_read::AllRead;
pub use copying::copied;
pub use gathering::{Called, Gathering};
pub use laws::a_joined_share_stands_for_its_parts;
pub use listed::Listed;
pub use work_list::{WorkList, works};
