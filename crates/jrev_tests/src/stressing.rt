//! Tests of stress: the program that is made for a number is executed twice.

use jrev_cases::{Case, is_as_wanted};
use std::test::Fail;

/// Numbers whose programs have 9 threads, 2, and 2 again, since 15 divides 2^64 - 1; with what is printed.
const STRESSED: [(&[&str], &str); 3] = [
    (&["stress", "7"], "first\n8000\n4500\nsecond\n8000\n4500\n"),
    (&["stress", "0"], "first\n8000\n1000\nsecond\n8000\n1000\n"),
    (
        &["stress", "18446744073709551615"],
        "first\n8000\n1000\nsecond\n8000\n1000\n",
    ),
];

fn stressed(words: &'static [&'static str], out: &'static str) -> Case {
    Case {
        words,
        files: &[],
        input: "",
        faults: (0, 0, 0, 0),
        status: 0,
        out: out.as_bytes(),
        err: "",
    }
}

#[test]
fn the_program_of_a_number_is_executed_twice(rt: HostRuntime) -> Result<(), Fail> {
    for (words, out) in STRESSED {
        assert!(rt; is_as_wanted(&rt, rt.alloc(), &stressed(words, out))?);
    }
    Ok(())
}
