//! A path as it stands in a line of standard error.

use std::fmt;
use std::fmt::{Display, Formatter};

/// A path. One with control characters is shown with escapes, so that what is said of it stays one line.
#[derive(Clone, Copy)]
pub struct Spelled<'a>(pub &'a str);

impl<'a> Display for Spelled<'a> {
    fn fmt<W: fmt::Write>(&self, f: &mut Formatter<W>) -> fmt::Result {
        let text = self.0;
        if text.chars().any(|c| c.is_control()) {
            write!(f, "{}", text.escape_debug())
        } else {
            write!(f, "{text}")
        }
    }
}
