//! One table is played on a store of any kind.
use crate::acts::Act;
use std::alloc::Global;
use std::process::Abort;
use test_lines::Line;

/// What is done, and what is told of it.
pub(crate) type Row = (Act, &'static str);

/// A store on which the acts are made.
pub(crate) trait Site {
    /// Makes the act, and puts what is told of it behind the line.
    fn play(&mut self, act: Act, line: &mut Line);
}

/// Each row tells what it says.
pub(crate) fn holds<R: Abort, T: Site>(rt: &R, alloc: Global, site: &mut T, rows: &[Row]) {
    for (act, want) in rows {
        let mut line = Line::new(alloc);
        site.play(*act, &mut line);
        assert!(rt; line.as_str() == *want, "{}: {want}", line.as_str());
    }
}
