//! Several stores as one: each room lies whole in one of them. It owns the numbering of the rooms, and stands on the
//! contract of a store alone.
#![tactic(auto)]

mod asking;
mod backing;
mod finding;
mod homes;
mod listing;
mod losses;
mod making;
mod named;
mod numbering;
mod opening;
mod performing;
mod places;
mod settling;
mod sites;
mod spread;

pub use asking::StoreList;
pub use backing::Backing;
pub use losses::losses_join;
pub use opening::SpreadTrouble;
pub use places::{Doubt, Place, PlaceList};
pub use spread::Spread;
