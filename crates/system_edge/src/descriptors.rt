//! The system's table of the process's descriptors.

use std::fs::File;
use std::os::fd::AsRawFd;

// A descriptor that has a place in no table of less than 1,024.
const FAR: i32 = 512;

/// Has the system make its table long enough for 1,024 descriptors, where the process may have so many. It is called before threads start.
///
/// Linux doubles the table where a file's descriptor lies behind its end. While other threads run, it then waits until none of them can look at
/// the shorter table any more. That takes 10 to 20 milliseconds, in which whoever opens the file waits.
#[inline(never)]
pub fn lengthen_table(rt: &HostRuntime) {
    let mut opened = Vec::new(rt.alloc());
    for _ in 0..=FAR {
        let Ok(file) = File::open(rt, "/") else {
            return;
        };
        let is_far = file.as_raw_fd() >= FAR;
        if opened.push(file).is_err() || is_far {
            return;
        }
    }
}
