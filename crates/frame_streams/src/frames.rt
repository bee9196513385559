//! Where frames come from.
ghost use Rattle.std.specs.Prelude.{IfOk, OnErr};
ghost use Rattle.edge_io.specs.Source.{Given};
ghost use Rattle.frame_streams.specs.Arriving.{Arrives, Begins};

use crate::arriving::{Arrival, next_frame};
use edge_io::Source;
use plfs_types::NoMemory;
use std::alloc::Global;

/// What frames come from, one behind the other.
pub trait Frames {
    /// The bytes it has left, where it tells them, and its count of faults, which never falls.
    ghost given: { Self → Given };

    /// The next frame. No byte behind it is handed over, and where memory is refused none behind its head.
    fn next(&mut self, alloc: Global) -> Result<Arrival, NoMemory>
        ensures arrives { IfOk result (λ arrival. Arrives arrival (given self.old) (given self.new)) }
        ensures begun { OnErr result (Begins (given self.old) (given self.new)) };
}

/// The frames of a source.
#[derive(Drop)]
pub struct SourceFrames<I> {
    pub source: I,
}

impl<I: Source> Frames for SourceFrames<I> {
    ghost given = { λ frames. I.given frames.source };

    fn next(&mut self, alloc: Global) -> Result<Arrival, NoMemory> {
        next_frame(alloc, &mut self.source)
    }
}
