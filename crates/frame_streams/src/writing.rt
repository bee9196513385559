//! Answers on a sink.
ghost use Rattle.std.specs.Prelude.{OnOk, OnErr};
ghost use Rattle.frame_format.specs.Telling.{answer_bytes};
ghost use Rattle.frame_streams.specs.Writing.{IsCutOff, IsWritten};

use edge_io::{Failed, Sink};
use frame_format::Answer;

// Writes all of the bytes.
fn write_all<O: Sink>(out: &mut O, bytes: &[u8]) -> Result<(), Failed>
    ensures written { OnOk result (IsWritten bytes.now (O.taking out.old) (O.taking out.new)) }
    ensures cut_off { OnErr result (IsCutOff bytes.now (O.taking out.old) (O.taking out.new)) }
{
    let mut done = 0;
    while done < bytes.len() {
        let Ok(count) = out.write(&bytes[done..]) else {
            return Err(Failed);
        };
        if count == 0 {
            return Err(Failed);
        }
        done += count;
    }
    Ok(())
}

/// Writes the answer. `Failed` comes only where the sink failed, or took nothing; a front of the answer is then written.
pub fn write_answer<O: Sink>(out: &mut O, answer: &Answer) -> Result<(), Failed>
    ensures written { OnOk result (IsWritten (answer_bytes answer.now) (O.taking out.old) (O.taking out.new)) }
    ensures cut_off { OnErr result (IsCutOff (answer_bytes answer.now) (O.taking out.old) (O.taking out.new)) }
{
    let head = answer.head();
    write_all(out, &head)?;
    write_all(out, answer.payload.as_slice())?;
    Ok(())
}
