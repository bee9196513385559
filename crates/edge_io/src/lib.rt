//! The edge to the world: sources and sinks of bytes, clocks and gates, each by its contract, in memory for tests
//! and over the standard library. It stands on the shared values alone.
#![tactic(auto)]

mod clock;
mod failed;
mod gate;
mod list_clock;
mod memory_sink;
mod memory_source;
mod since;
mod sink;
mod source;
mod std_sink;
mod std_source;
mod system_clock;

pub use clock::Clock;
pub use failed::Failed;
pub use gate::{Gate, NoGate};
pub use list_clock::{ClockList, ListClock};
pub use memory_sink::MemorySink;
pub use memory_source::{CallList, MemorySource};
pub use since::{RuntimeTime, Since1970};
pub use sink::Sink;
pub use source::Source;
pub use std_sink::StdSink;
pub use std_source::StdSource;
pub use system_clock::SystemClock;
