//! Calls in whose act the store fails, and calls that are broken off.
use crate::playing::{Beginning, By, Cast, SOUND, begun, hold, make};
use crate::spelling::parts;
use test_lines::Line;

/// A call that goes wrong.
#[derive(Clone, Copy)]
pub(crate) struct Trial {
    /// The rows that come before it.
    pub(crate) before: &'static str,
    /// The act that the call makes, counted from the first of the mounting.
    pub(crate) act: u64,
    pub(crate) caller: u64,
    pub(crate) call: &'static str,
    /// What the ninth caller looks at then.
    pub(crate) look: &'static str,
}

const NINTH: By = By {
    caller: 9,
    stop: None,
};

/// What the call is answered, what is seen, and what the same call is answered then: where the store fails in its act and
/// leaves so many bytes of a write, or all, and where it is broken off after so many.
pub(crate) fn tried(cast: &Cast, trial: &Trial, how: &str) -> Option<Line> {
    let (word, bytes) = parts(how, ' ');
    let bytes = bytes.parse::<u64>().unwrap_or(u64::MAX);
    let (fails, stop) = if word == "fails" {
        (Some((trial.act, bytes)), None)
    } else {
        (None, Some(bytes))
    };
    let mut mount = begun(cast.alloc, &Beginning { fails, ..SOUND })?;
    let mut line = Line::new(cast.alloc);
    hold(cast, &mut mount, trial.before, &mut line);
    let caller = trial.caller;
    let first = By { caller, stop };
    let then = By { caller, stop: None };
    make(cast.alloc, &mut mount, first, trial.call, &mut line);
    make(cast.alloc, &mut mount, NINTH, trial.look, &mut line);
    make(cast.alloc, &mut mount, then, trial.call, &mut line);
    drop(mount);
    Some(line)
}
