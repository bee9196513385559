//! Small files, spelled one after the other in the regions of one large file.
//!
//! The crate owns how a small file is spelled as a unit, which units a region has, and the first place that is none. It
//! knows nothing of readers: the bytes of a region are given to it piece by piece.
#![tactic(auto)]

mod finding;
mod laws;
mod numbers;
mod scanner;
mod scanning;
mod units;

pub use finding::{Region, RegionList, Unit, UnitList, find};
pub use laws::others_change_nothing;
pub use scanner::Scanner;
pub use scanning::scan;
pub use units::{MAX_CONTENT, REGION_SIZE, REGIONS, unit_bytes};
