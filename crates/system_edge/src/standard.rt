//! The descriptors of the standard streams, also where the program was started without them.
ghost use Rattle.std.specs.Prelude.{◌≡◌, ◌<ℤ◌, pos, IfOk};
ghost use Rattle.std.specs.Ordering.{int_eq};
ghost use Rattle.std.specs.List.{list_any};
ghost use Rattle.std.specs.Fd.{file_raw_fd};

use std::fs::File;
use std::io;
use std::os::fd::AsRawFd;

/// The descriptor of standard input.
pub const INPUT: i32 = 0;

/// The descriptor of standard output.
pub const OUTPUT: i32 = 1;

/// The greatest of the standard streams' descriptors, that of standard error.
const LAST_STANDARD: i32 = 2;

/// Files that have the descriptors which the program was started without.
///
/// The system gives a file that is opened the least descriptor that is free. So once one is given that lies above
/// the standard streams', all of theirs are taken, and no file that is opened while these are kept is read or
/// written in a stream's place.
#[derive(Drop)]
pub struct Standard {
    taken: Vec<File>,
    // Opened while the others were open.
    above: File,
}

impl Standard {
    /// Takes those of the descriptors 0, 1 and 2 that are closed, by a folder that is open for reading. Both a read
    /// and a write of such a descriptor fail. So does this, where the system opens no further file.
    #[inline(never)]
    pub fn take(rt: &HostRuntime) -> io::Result<Standard>
        ensures above { IfOk result (λ standard. pos 2 <ℤ file_raw_fd standard.above) }
    {
        let mut taken = Vec::new(rt.alloc());
        for _ in 0..=LAST_STANDARD + 1 {
            let file = File::open(rt, "/")?;
            if file.as_raw_fd() > LAST_STANDARD {
                return Ok(Standard { taken, above: file });
            }
            taken.push(file)?;
        }
        Err(io::Error::other("no descriptor above 2 was given"))
    }

    /// Whether the program was started without this descriptor.
    pub fn has(&self, descriptor: i32) -> bool
        ensures { result ≡ list_any (λ file. int_eq (file_raw_fd file) descriptor) self.now.taken.items }
    {
        self.taken.iter().any(|file| file.as_raw_fd() == descriptor)
    }
}
