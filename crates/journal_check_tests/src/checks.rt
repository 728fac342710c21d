//! Texts, and what their check finds.

use crate::setting::machine;
use journal_check::Checking;
use op_core::Line;
use ordinary_machine::Ordinary;
use std::alloc::Global;
use std::test::Fail;
use toy_code::Toy;

/// The journal of a run of the program.
const RUN: &str = "jrev-trace 1
1 0 start 7 5 2
1 0 enter 9
1 0 wait 9
2 0 enter 9
2 0 notify 9 1
2 1 exit 9
1 0 rewake 9
1 0 exit 9
2 0 end
1 0 join 7
1 0 print
1 0 end
end 12
";

/// A journal of version 2 of the same run, with undos.
const UNDONE: &str = "jrev-trace 2
1 0 start 7 5 2
undone 1 1 0
1 0 enter 9
1 0 wait 9
2 0 enter 9
undone 2 1 4294967295
undone 1 255 3
2 0 notify 9 1
2 1 exit 9
1 0 rewake 9
1 0 exit 9
2 0 end
1 0 join 7
1 0 print
1 0 end
undone 255 1 1
end 12
";

/// What the check finds of a text that comes in pieces of this many bytes: the machine after the last event, or the line
/// that shows that the text is no journal of an execution.
fn found(
    alloc: Global,
    text: &str,
    size: usize,
) -> Result<Result<Ordinary<Toy<'static>>, u32>, Fail> {
    if size == 0 {
        return Err(Fail::from("a piece has bytes"));
    }
    let mut checking = Checking::new(alloc, machine(alloc)?);
    for piece in text.as_bytes().chunks(size) {
        if checking.feed(piece).is_err() {
            return Err(Fail::from("there is memory"));
        }
    }
    Ok(checking.finish())
}

#[test]
fn the_journal_of_a_run_leads_to_its_end(rt: HostRuntime) -> Result<(), Fail> {
    for text in [RUN, UNDONE] {
        let Ok(last) = found(rt.alloc(), text, 1000)? else {
            return Err(Fail::from("the run is an execution"));
        };
        assert!(rt; last.has_ended(1) && last.has_ended(2));
        assert!(rt; matches!(last.lines().as_slice(), [Line::Int(7)]));
    }
    Ok(())
}

/// Texts, and the line that is found where one is no journal of an execution.
const TEXTS: [(&str, Option<u32>); 19] = [
    (RUN, None),
    (UNDONE, None),
    // An execution may stop anywhere.
    ("jrev-trace 1\nend 0\n", None),
    ("jrev-trace 1\n1 0 start 7 5 2\nend 1\n", None),
    // Thread 2 hasn't begun.
    ("jrev-trace 1\n2 0 enter 9\nend 1\n", Some(2)),
    // There is no silent step before.
    ("jrev-trace 1\n1 1 start 7 5 2\nend 1\n", Some(2)),
    // Another operation is wanted.
    (
        "jrev-trace 1\n1 0 start 7 5 2\n1 0 enter 7\nend 2\n",
        Some(3),
    ),
    // The monitor is taken.
    (
        "jrev-trace 1\n1 0 start 7 5 2\n1 0 enter 9\n2 0 enter 9\nend 3\n",
        Some(4),
    ),
    // The thread wasn't started before.
    ("jrev-trace 1\n1 0 start 7 5 no\nend 1\n", Some(2)),
    // The first of two is found.
    (
        "jrev-trace 1\n1 0 start 7 5 no\n2 0 enter 9\nend 2\n",
        Some(2),
    ),
    // Lines of undos are counted.
    (
        "jrev-trace 2\nundone 1 1 0\n1 0 start 7 5 2\nundone 2 1 3\n1 0 enter 7\nend 2\n",
        Some(5),
    ),
    // A fault of the text goes before an event that is no step: in the count of events, ..
    ("jrev-trace 1\n2 0 enter 9\nend 2\n", Some(3)),
    // .. no last line, ..
    ("jrev-trace 1\n2 0 enter 9\n", Some(3)),
    // .. a last line that isn't ended, ..
    ("jrev-trace 1\n2 0 enter 9\nend 1", Some(3)),
    // .. a line after the last, ..
    ("jrev-trace 1\n2 0 enter 9\nend 1\nend 1\n", Some(4)),
    // .. two spaces, ..
    ("jrev-trace 1\n2 0 enter 9\n1  0 enter 9\nend 2\n", Some(3)),
    // .. an undo in a journal of version 1, ..
    ("jrev-trace 1\n2 0 enter 9\nundone 1 1 0\nend 1\n", Some(3)),
    // .. and another version.
    ("jrev-trace 3\n2 0 enter 9\nend 1\n", Some(1)),
    ("", Some(1)),
];

#[test]
fn pieces_of_any_length_come_to_the_same(rt: HostRuntime) -> Result<(), Fail> {
    for size in [1, 3, 1000] {
        for (text, line) in &TEXTS {
            assert!(rt; found(rt.alloc(), text, size)?.err() == *line);
        }
    }
    Ok(())
}
