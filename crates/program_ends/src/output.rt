//! The output, written to its end.
ghost use Rattle.std.specs.Prelude.{OnOk, OnErr};
ghost use Rattle.program_ends.specs.Output.{IsPrinted, IsCutOff};

use edge_io::Sink;

/// The sink failed, or took nothing of a piece that isn't empty.
#[derive(Clone, Copy)]
pub struct Broken;

/// Writes all of the text.
pub fn write_out<O: Sink>(out: &mut O, text: &[u8]) -> Result<(), Broken>
    ensures printed { OnOk result (IsPrinted text.now (O.taking out.old) (O.taking out.new)) }
    ensures cut_off { OnErr result (IsCutOff text.now (O.taking out.old) (O.taking out.new)) }
{
    let mut done = 0;
    while done < text.len() {
        let Ok(count) = out.write(&text[done..]) else {
            return Err(Broken);
        };
        if count == 0 {
            return Err(Broken);
        }
        done += count;
    }
    Ok(())
}
