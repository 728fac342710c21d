//! Tests of make: a text of the assembler that becomes a class file, and one that is refused.

use jrev_cases::{Case, ONE_FILE, ONE_TEXT, is_as_wanted};
use std::test::Fail;

/// A text that is made, and one that is refused.
const MAKING: [Case; 2] = [
    Case {
        words: &["make"],
        files: &[],
        input: ONE_TEXT,
        faults: (0, 0, 0, 0),
        status: 0,
        out: ONE_FILE,
        err: "",
    },
    Case {
        words: &["make"],
        files: &[],
        input: "class A\nsuper B\nfoo\n",
        faults: (0, 0, 0, 0),
        status: 11,
        out: b"",
        err: "make: line 3\n",
    },
];

#[test]
fn what_make_does_is_said(rt: HostRuntime) -> Result<(), Fail> {
    for case in &MAKING {
        assert!(rt; is_as_wanted(&rt, rt.alloc(), case)?);
    }
    Ok(())
}
