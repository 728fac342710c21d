//! Tests of superclasses and interfaces: refused programs, the numbers of classes, and their order.

use crate::programs::{File, program, unit};
use class_supers::Supers;
use code_decode::ClassUnit;
use link_types::LinkRefusal;
use std::alloc::Global;
use std::test::Fail;

const OBJECT: &str = "java/lang/Object";

const STRING: &str = "java/lang/String";

const THREAD: &str = "java/lang/Thread";

const RUNNABLE: &str = "java/lang/Runnable";

const CLASS: u16 = 0x0021;

const FINAL: u16 = 0x0031;

const INTERFACE: u16 = 0x0601;

const NONE: [&str; 2] = ["", ""];

/// Files, and why and where they are refused: the number of the kind, the file, and the index of its pool.
struct Case {
    why: &'static str,
    files: &'static [File<'static>],
    refused: (u8, u32, u16),
}

/// Why and where a program is refused, and zeros where it isn't.
fn refusal(alloc: Global, units: &[ClassUnit]) -> Result<(u8, u32, u16), Fail> {
    match Supers::new(alloc, units) {
        Ok(_) => Ok((0, 0, 0)),
        Err(LinkRefusal::At { kind, class, place }) => Ok((kind.number(), class, place)),
        Err(LinkRefusal::NoMemory) => Err(Fail::from("there is memory")),
    }
}

const C: File<'static> = (CLASS, "C", OBJECT, NONE);

const F: File<'static> = (FINAL, "F", OBJECT, NONE);

/// Each kind of the first three groups of rules, and pairs of them in one program.
static CASES: [Case; 27] = [
    Case {
        why: "nothing",
        files: &[(CLASS, "B", "A", NONE), (CLASS, "A", OBJECT, NONE), C],
        refused: (0, 0, 0),
    },
    Case {
        why: "nothing with interfaces",
        files: &[
            (INTERFACE, "I", OBJECT, ["J", ""]),
            (INTERFACE, "J", OBJECT, [RUNNABLE, ""]),
            (CLASS, "D", OBJECT, ["I", "J"]),
        ],
        refused: (0, 0, 0),
    },
    Case {
        why: "two interfaces of one name",
        files: &[
            (INTERFACE, "I", OBJECT, NONE),
            (CLASS, "D", OBJECT, ["I", "I"]),
            C,
        ],
        refused: (0, 0, 0),
    },
    Case {
        why: "two files of one class",
        files: &[(CLASS, "A", OBJECT, NONE), (CLASS, "A", OBJECT, NONE), C],
        refused: (1, 1, 0),
    },
    Case {
        why: "a built-in class",
        files: &[(CLASS, THREAD, OBJECT, NONE), (CLASS, "B", OBJECT, NONE), C],
        refused: (1, 0, 0),
    },
    Case {
        why: "the second of two classes",
        files: &[(CLASS, "C", OBJECT, NONE), (CLASS, OBJECT, "", NONE), C],
        refused: (1, 1, 0),
    },
    Case {
        why: "a missing superclass",
        files: &[(CLASS, "A", OBJECT, NONE), (CLASS, "B", "Gone", NONE), C],
        refused: (2, 1, 4),
    },
    Case {
        why: "a superclass by its first bytes",
        files: &[(CLASS, "Ab", OBJECT, NONE), (CLASS, "B", "A", NONE), C],
        refused: (2, 1, 4),
    },
    Case {
        why: "a missing interface",
        files: &[
            (CLASS, "D", OBJECT, ["Gone", RUNNABLE]),
            C,
            (CLASS, "E", OBJECT, NONE),
        ],
        refused: (2, 0, 6),
    },
    Case {
        why: "a missing second interface",
        files: &[
            (CLASS, "D", OBJECT, [RUNNABLE, "Gone"]),
            C,
            (CLASS, "E", OBJECT, NONE),
        ],
        refused: (2, 0, 8),
    },
    Case {
        why: "a class above itself",
        files: &[C, (CLASS, "A", "A", NONE), (CLASS, "B", OBJECT, NONE)],
        refused: (3, 1, 0),
    },
    Case {
        why: "a ring",
        files: &[(CLASS, "A", "B", NONE), (CLASS, "B", "A", NONE), C],
        refused: (3, 0, 0),
    },
    Case {
        why: "a class below a ring",
        files: &[
            (CLASS, "D", "A", NONE),
            (CLASS, "A", "B", NONE),
            (CLASS, "B", "A", NONE),
        ],
        refused: (3, 1, 0),
    },
    Case {
        why: "a ring of interfaces",
        files: &[
            C,
            (INTERFACE, "I", OBJECT, ["J", ""]),
            (INTERFACE, "J", OBJECT, ["I", ""]),
        ],
        refused: (3, 1, 0),
    },
    Case {
        why: "a final superclass",
        files: &[C, (CLASS, "A", STRING, NONE), (CLASS, "B", OBJECT, NONE)],
        refused: (4, 1, 4),
    },
    Case {
        why: "a final superclass of a file",
        files: &[(CLASS, "A", "F", NONE), F, C],
        refused: (4, 0, 4),
    },
    Case {
        why: "a class as an interface",
        files: &[
            C,
            (CLASS, "D", OBJECT, [THREAD, ""]),
            (CLASS, "B", OBJECT, NONE),
        ],
        refused: (5, 1, 6),
    },
    Case {
        why: "a class as the second interface",
        files: &[
            C,
            (CLASS, "D", OBJECT, [RUNNABLE, "C"]),
            (CLASS, "B", OBJECT, NONE),
        ],
        refused: (5, 1, 8),
    },
    Case {
        why: "an interface as a superclass",
        files: &[(CLASS, "A", RUNNABLE, NONE), (CLASS, "B", OBJECT, NONE), C],
        refused: (16, 0, 4),
    },
    Case {
        why: "an interface below a class",
        files: &[C, (INTERFACE, "I", "C", NONE), (CLASS, "B", OBJECT, NONE)],
        refused: (16, 1, 4),
    },
    Case {
        why: "a name after a missing class",
        files: &[(CLASS, "A", "Gone", NONE), (CLASS, "A", OBJECT, NONE), C],
        refused: (1, 1, 0),
    },
    Case {
        why: "a superclass before an interface",
        files: &[
            (CLASS, "D", "Gone", ["Gone", ""]),
            C,
            (CLASS, "B", OBJECT, NONE),
        ],
        refused: (2, 0, 4),
    },
    Case {
        why: "a missing interface before the kind of the superclass",
        files: &[
            (CLASS, "D", RUNNABLE, ["", "Gone"]),
            C,
            (CLASS, "B", OBJECT, NONE),
        ],
        refused: (2, 0, 8),
    },
    Case {
        why: "the kind of the superclass before that of an interface",
        files: &[
            (CLASS, "D", RUNNABLE, [THREAD, ""]),
            C,
            (CLASS, "B", OBJECT, NONE),
        ],
        refused: (16, 0, 4),
    },
    Case {
        why: "the kind of an interface before a final superclass",
        files: &[
            (CLASS, "D", STRING, [THREAD, ""]),
            C,
            (CLASS, "B", OBJECT, NONE),
        ],
        refused: (5, 0, 6),
    },
    Case {
        why: "a final superclass before a ring",
        files: &[(FINAL, "F", "F", NONE), C, (CLASS, "B", OBJECT, NONE)],
        refused: (4, 0, 4),
    },
    Case {
        why: "a file before the next one",
        files: &[(CLASS, "A", STRING, NONE), (CLASS, "B", "Gone", NONE), C],
        refused: (4, 0, 4),
    },
];

#[test]
fn programs_are_refused_for_the_first_rule_that_is_broken(rt: HostRuntime) -> Result<(), Fail> {
    for case in &CASES {
        let units = program(rt.alloc(), case.files)?;
        let found = refusal(rt.alloc(), units.as_slice())?;
        assert!(rt; found == case.refused, "{}", case.why);
    }
    Ok(())
}

/// A program of `count` files, no two of which have a name in common.
fn many(alloc: Global, count: u32) -> Result<(u8, u32, u16), Fail> {
    let mut units = Vec::new(alloc);
    for number in 0..count {
        let name = format!(in alloc; "A{number}")?;
        units.push(unit(alloc, (CLASS, name.as_str(), OBJECT, NONE))?)?;
    }
    refusal(alloc, units.as_slice())
}

#[test]
fn a_program_has_at_most_1024_files(rt: HostRuntime) -> Result<(), Fail> {
    assert!(rt; many(rt.alloc(), 1024)? == (0, 0, 0));
    assert!(rt; many(rt.alloc(), 1025)? == (13, 1024, 0));
    Ok(())
}

/// The classes of a lawful program, those that are named before those that name them.
fn ordered(alloc: Global, units: &[ClassUnit]) -> Result<Vec<u32>, Fail> {
    match Supers::new(alloc, units) {
        Ok(supers) => {
            let order = supers.order(alloc)?;
            Ok(order)
        }
        Err(_) => Err(Fail::from("nothing is wrong")),
    }
}

/// A chain whose files come in the reverse order; its classes have the numbers 29, 30 and 31.
static CHAIN: [File<'static>; 3] = [
    (CLASS, "C", "B", NONE),
    (CLASS, "B", "A", NONE),
    (CLASS, "A", OBJECT, [RUNNABLE, ""]),
];

#[test]
fn classes_are_found_by_number(rt: HostRuntime) -> Result<(), Fail> {
    let units = program(rt.alloc(), &CHAIN)?;
    let supers = Supers::new(rt.alloc(), units.as_slice())
        .ok()
        .ok_or("nothing is wrong")?;
    assert!(rt;
        supers.class_number(b"C") == 29
            && supers.class_number(b"A") == 31
            && supers.class_number(b"D") == 0
    );
    assert!(rt;
        supers.superclass(29) == 30
            && supers.superclass(31) == 1
            && supers.superclass(1) == 0
            && supers.superclass(32) == 0
    );
    assert!(rt;
        supers.interfaces(31) == [6].as_slice()
            && supers.interfaces(7) == [6].as_slice()
            && supers.interfaces(29).is_empty()
    );
    assert!(rt; supers.is_above(29, 31) && supers.is_above(29, 6) && supers.is_above(29, 1));
    assert!(rt; !supers.is_above(31, 29) && !supers.is_above(29, 29) && !supers.is_above(29, 7));
    Ok(())
}

#[test]
fn classes_stand_behind_what_they_name(rt: HostRuntime) -> Result<(), Fail> {
    let units = program(rt.alloc(), &CHAIN)?;
    let order = ordered(rt.alloc(), units.as_slice())?;
    let behind = order.iter().skip_while(|class| **class != 31);
    let files = behind.filter(|class| **class > 28).count();
    assert!(rt; order.len() == 31 && files == 3);
    Ok(())
}
