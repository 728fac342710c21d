//! Tests of how a text of the assembler is split into numbered lines.

use assembler_text::{Numbered, lines_of};
use std::alloc::Global;

/// A text, its lines by their numbers with whether they say something, and the number after that of the last line.
type Text = (&'static [u8], &'static [(u32, bool)], u32);

const TEXTS: [Text; 4] = [
    (
        b"class One\n\n no line\nend",
        &[(1, true), (3, false), (4, true)],
        5,
    ),
    (b"a:", &[(1, true)], 2),
    (b"a:\n", &[(1, true)], 2),
    (b"", &[], 1),
];

fn is_line(line: &Numbered, wanted: (u32, bool)) -> bool {
    line.number == wanted.0 && line.line.is_some() == wanted.1
}

fn are_lines(lines: &[Numbered], wanted: &[(u32, bool)]) -> bool {
    lines.len() == wanted.len()
        && lines
            .iter()
            .zip(wanted)
            .all(|(line, wanted)| is_line(line, *wanted))
}

fn has_lines(alloc: Global, (text, wanted, behind): Text) -> bool {
    if text.len() > 100 {
        return false;
    }
    match lines_of(alloc, text) {
        Ok(made) => made.behind == behind && are_lines(made.lines.as_slice(), wanted),
        Err(_) => false,
    }
}

#[test]
fn lines_have_their_numbers(rt: HostRuntime) {
    for text in TEXTS {
        assert!(rt; has_lines(rt.alloc(), text));
    }
}
