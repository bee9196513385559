//! Names in lines, and lines themselves.
use plfs_types::Name;
use test_lines::Line;

/// A word, and this name behind it.
pub(crate) fn named(line: &mut Line, word: &str, name: &Name) {
    line.letters(word, name.bytes());
}

#[test]
fn a_line_is_what_was_put_into_it(rt: HostRuntime) {
    let mut told = Line::new(rt.alloc());
    told.push("a");
    told.say(" ", 12);
    told.letters(" ", &[98, 255]);
    told.fill(" %, % c%.", &[0, 10]);
    told.fill("%d", &[7, 8]);
    let mut line = Line::new(rt.alloc());
    line.expect("as wanted", &told, "a 12 b\u{ff} 0, 10 c.7d");
    line.expect("otherwise", &told, "a");
    drop(told);
    assert!(rt; line.as_str() == "otherwise: a 12 b\u{ff} 0, 10 c.7d\n");
    drop(line);
}
