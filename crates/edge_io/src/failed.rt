//! That a read or a write has failed.
use std::error::Error;
use std::fmt;
use std::fmt::{Display, Formatter};

/// A read or a write has failed. Its source or sink has counted it.
#[derive(Clone, Copy, Debug, PartialEq, Eq)]
pub struct Failed;

impl Display for Failed {
    fn fmt<W: fmt::Write>(&self, f: &mut Formatter<W>) -> fmt::Result {
        write!(f, "the read or the write failed")
    }
}

impl Error for Failed {}
