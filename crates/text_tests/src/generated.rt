//! The generated script is the one that its text says.
use crate::scripts::tell;
use script_lang::{Script, generate};
use std::test::Fail;
use test_lines::Line;

// A line for each writer.
fn add_each(text: &mut Line, pattern: &str, n: u64) {
    for i in 0..n {
        text.fill(pattern, &[i, i]);
    }
}

// A line for each block, round by round, and in each round writer by writer.
fn add_blocks(text: &mut Line, pattern: &str, n: u64) {
    for r in 0u64..32 {
        for i in 0..n {
            let at = r.saturating_mul(n).saturating_add(i).saturating_mul(47008);
            let first = r.saturating_add(i) % 256;
            text.fill(pattern, &[i]);
            text.fill(" % ramp:47008:%\n", &[at, first]);
        }
    }
}

// The text of the generated script, written as its rule says it.
fn add_text(text: &mut Line, n: u64) {
    add_each(text, "actor w% %\n", n);
    for i in 0..n {
        text.fill("w% open gen%\n", &[i, n]);
    }
    text.push("phase\n");
    add_blocks(text, "w% write", n);
    text.push("phase\n");
    add_each(text, "w% close\n", n);
    text.fill("phase\nw0 ropen gen% 4\n", &[n]);
    add_blocks(text, "w0 verify", n);
    text.fill("w0 stat gen%\n", &[n]);
}

#[test]
fn a_generated_script_is_what_its_text_says(rt: HostRuntime) -> Result<(), Fail> {
    let mut text = Line::new(rt.alloc());
    add_text(&mut text, 2);
    let read = Script::read(rt.alloc(), text.as_str().as_bytes())?;
    let mut wanted = Line::new(rt.alloc());
    tell(rt.alloc(), &mut wanted, &read);
    drop(read);
    let made = generate(rt.alloc(), 2)?;
    let mut told = Line::new(rt.alloc());
    tell(rt.alloc(), &mut told, &made);
    drop(made);
    // Two actors, four phases, and 134 statements.
    assert!(rt; told.as_str().lines().count() == 2 + 4 + 134);
    assert!(rt; told.as_str() == wanted.as_str());
    Ok(())
}

// How many statements there are in each phase, and the line of the last one.
fn size(line: &mut Line, script: &Script) {
    let mut end = 0;
    for phase in script.phases.as_slice() {
        let statements = phase.statements.as_slice();
        line.fill("% ", &[statements.len() as u64]);
        if let Some(last) = statements.last() {
            end = last.line();
        }
    }
    line.fill("to %\n", &[end]);
}

#[test]
fn a_generated_script_grows_with_its_writers(rt: HostRuntime) -> Result<(), Fail> {
    let mut line = Line::new(rt.alloc());
    for n in [1, 64, 256] {
        let script = generate(rt.alloc(), n)?;
        size(&mut line, &script);
        drop(script);
    }
    assert!(rt;
        line.as_str() == "1 32 1 34 to 72\n64 2048 64 2050 to 4293\n256 8192 256 8194 to 17157\n"
    );
    Ok(())
}
