//! Tests of pick: values that are printed as in Java, and programs that are not executed.

use jrev_cases::{Case, File, is_as_wanted};
use std::test::Fail;

const PICK_ONE: &[&str] = &["pick", "D", "One"];

/// 2 + 3, a product that wraps, and 100 joined with -7 by each operator; the values are those that a Java compiler folds.
const SUMS: [Case; 8] = [
    Case {
        words: PICK_ONE,
        files: &[File::One("One.class", &[178, 0, 13, 5, 6, 96, 182, 0, 19, 177])],
        input: "",
        faults: (0, 0, 0, 0),
        status: 0,
        out: b"5\n",
        err: "",
    },
    Case {
        words: PICK_ONE,
        files: &[File::One(
            "One.class",
            &[
                178, 0, 13, 17, 0x7f, 0xff, 17, 0x7f, 0xff, 104, 6, 104, 182, 0, 19, 177,
            ],
        )],
        input: "",
        faults: (0, 0, 0, 0),
        status: 0,
        out: b"-1073938429\n",
        err: "",
    },
    Case {
        words: PICK_ONE,
        files: &[File::One(
            "One.class",
            &[178, 0, 13, 16, 100, 16, 0xf9, 96, 182, 0, 19, 177],
        )],
        input: "",
        faults: (0, 0, 0, 0),
        status: 0,
        out: b"93\n",
        err: "",
    },
    Case {
        words: PICK_ONE,
        files: &[File::One(
            "One.class",
            &[178, 0, 13, 16, 100, 16, 0xf9, 100, 182, 0, 19, 177],
        )],
        input: "",
        faults: (0, 0, 0, 0),
        status: 0,
        out: b"107\n",
        err: "",
    },
    Case {
        words: PICK_ONE,
        files: &[File::One(
            "One.class",
            &[178, 0, 13, 16, 100, 16, 0xf9, 104, 182, 0, 19, 177],
        )],
        input: "",
        faults: (0, 0, 0, 0),
        status: 0,
        out: b"-700\n",
        err: "",
    },
    Case {
        words: PICK_ONE,
        files: &[File::One(
            "One.class",
            &[178, 0, 13, 16, 100, 16, 0xf9, 126, 182, 0, 19, 177],
        )],
        input: "",
        faults: (0, 0, 0, 0),
        status: 0,
        out: b"96\n",
        err: "",
    },
    Case {
        words: PICK_ONE,
        files: &[File::One(
            "One.class",
            &[178, 0, 13, 16, 100, 16, 0xf9, 128, 182, 0, 19, 177],
        )],
        input: "",
        faults: (0, 0, 0, 0),
        status: 0,
        out: b"-3\n",
        err: "",
    },
    Case {
        words: PICK_ONE,
        files: &[File::One(
            "One.class",
            &[178, 0, 13, 16, 100, 16, 0xf9, 130, 182, 0, 19, 177],
        )],
        input: "",
        faults: (0, 0, 0, 0),
        status: 0,
        out: b"-99\n",
        err: "",
    },
];

#[test]
fn values_are_those_of_java(rt: HostRuntime) -> Result<(), Fail> {
    for case in &SUMS {
        assert!(rt; is_as_wanted(&rt, rt.alloc(), case)?);
    }
    Ok(())
}

/// Folders whose programs are not executed.
const NOT_EXECUTED: [Case; 4] = [
    Case {
        words: PICK_ONE,
        files: &[File::Other("B.class", b"any"), File::One("A.class", &[177])],
        input: "",
        faults: (0, 0, 0, 0),
        status: 3,
        out: b"",
        err: "refused: read B.class 3 0 3\n",
    },
    Case {
        words: PICK_ONE,
        files: &[
            File::Other("A.class", b"any"),
            File::One(".class", &[177]),
            File::Other("readme", b""),
        ],
        input: "",
        faults: (0, 0, 0, 0),
        status: 3,
        out: b"",
        err: "refused: read A.class 3 0 3\n",
    },
    Case {
        words: &["pick", "D", "Main"],
        files: &[],
        input: "",
        faults: (0, 0, 0, 0),
        status: 4,
        out: b"",
        err: "no main\n",
    },
    Case {
        words: &["pick", "D", "Two"],
        files: &[File::One("One.class", &[178, 0, 13, 5, 6, 96, 182, 0, 19, 177])],
        input: "",
        faults: (0, 0, 0, 0),
        status: 4,
        out: b"",
        err: "no main\n",
    },
];

#[test]
fn what_is_not_loaded_is_refused(rt: HostRuntime) -> Result<(), Fail> {
    for case in &NOT_EXECUTED {
        assert!(rt; is_as_wanted(&rt, rt.alloc(), case)?);
    }
    Ok(())
}
