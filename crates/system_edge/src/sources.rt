//! What is to be copied is looked at before anything is touched, so that an input of which no byte can be read replaces nothing.
ghost use Rattle.std.specs.Prelude.{[], OnOk};
ghost use Rattle.std.specs.Io.KnownBytes.{Consumes};

use std::fs::File;
use std::io::{self, Read};

/// Reads nothing, which fails where no byte can be read: of a folder, and of what is open for writing alone. That the system tells so is trusted.
pub fn look_at<R: Read>(reader: &mut R) -> io::Result<()>
    ensures none { OnOk result (Consumes (R.remaining reader.old) (R.remaining reader.new) []) }
{
    reader.read(&mut [])?;
    Ok(())
}

/// Opens a file of which bytes can be read.
pub(crate) fn open_source(rt: &HostRuntime, path: &str) -> io::Result<File> {
    let mut file = File::open(rt, path)?;
    look_at(&mut file)?;
    Ok(file)
}
