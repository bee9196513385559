//! Inputs by hand, and what they say.
use pack_input::{InputTrouble, Kind, read};
use plfs_types::NoMemory;
use std::alloc::Global;
use std::test::Fail;
use test_lines::Line;

fn kind_name(kind: Kind) -> &'static str {
    match kind {
        Kind::Long => "long",
        Kind::Spaces => "spaces",
        Kind::Count => "count",
        Kind::Name => "name",
        Kind::Data => "data",
    }
}

fn show(alloc: Global, input: &[u8], shown: &mut Line) -> Result<(), NoMemory> {
    match read(alloc, input) {
        Ok(files) => {
            for file in files.as_slice() {
                let name = file.name.name();
                if let Ok(text) = std::str::from_utf8(name.bytes()) {
                    shown.push(text);
                }
                let content = file.content.bytes(alloc)?;
                for byte in content.as_slice() {
                    shown.say(" ", u64::from(*byte));
                }
                shown.push(";");
            }
        }
        Err(InputTrouble::Fault { line, kind }) => {
            shown.say("", line);
            shown.push(" ");
            shown.push(kind_name(kind));
        }
        Err(InputTrouble::NoMemory) => return Err(NoMemory),
    }
    shown.push("\n");
    Ok(())
}

fn inputs(alloc: Global, shown: &mut Line) -> Result<(), NoMemory> {
    show(alloc, b"a 6869\nb -\n", shown)?;
    show(alloc, b"a 6869\nb -", shown)?;
    show(alloc, b"", shown)?;
    show(alloc, b"\n", shown)?;
    show(alloc, b"a 68\n\nb 69\n", shown)?;
    show(alloc, b"a  68\n", shown)?;
    show(alloc, b"a 68 \n", shown)?;
    show(alloc, b"a\n", shown)?;
    show(alloc, b"a 68 69\n", shown)?;
    show(alloc, b"a 68\n-b 69\n", shown)?;
    show(alloc, b"a 6\n", shown)?;
    show(alloc, b"a 6A\n", shown)?;
    show(alloc, b"a --\n", shown)
}

#[test]
fn lines_say_files_or_a_fault(rt: HostRuntime) -> Result<(), Fail> {
    let mut shown = Line::new(rt.alloc());
    inputs(rt.alloc(), &mut shown)?;
    assert_eq!(rt;
        shown.as_str(),
        "a 104 105;b;\na 104 105;b;\n\n1 spaces\n2 spaces\n1 spaces\n1 spaces\n1 count\n1 count\n2 name\n1 data\n1 data\n1 data\n"
    );
    Ok(())
}
