//! Lines of a journal, each there and back, and lines that say nothing.

use op_core::Event;
use std::test::Fail;
use trace_journal::{JournalItem, item_in, push_item};

/// Each form of a line, with its numbers at their ends.
const FORMS: [&str; 26] = [
    "1 0 class 1 29 0",
    "255 1000000000 class 4294967295 4294967295 4294967295",
    "2 7 read 30 0 4294967295",
    "2 7 write 30 1 5",
    "3 1 new 29 0 31",
    "1 2 enter 3",
    "1 2 exit 3",
    "1 2 exit 3 no",
    "1 2 wait 3",
    "1 2 wait 3 no",
    "1 0 rewake 3",
    "1 2 notify 3 0",
    "1 2 notify 3 255",
    "1 2 notify 3 no",
    "1 5 print",
    "1 1 start 40 1 2",
    "1 1 start 40 10 255",
    "1 1 start 40 5 no",
    "1 1 join 40",
    "1 0 init 29 ready",
    "1 0 init 29 bad",
    "1 0 init 29 claimed",
    "1 0 done 29 ok",
    "1 0 done 29 bad",
    "1 1 end",
    "1 1 died 7",
];

#[test]
fn each_form_of_a_line_is_read_and_written(rt: HostRuntime) -> Result<(), Fail> {
    for form in &FORMS {
        for version in [1, 2] {
            let Some(item) = item_in(version, form.as_bytes()) else {
                return Err(Fail::from("a line says nothing"));
            };
            let mut line = String::new(rt.alloc());
            push_item(&mut line, &item)?;
            assert!(rt; line.as_str() == *form);
        }
    }
    Ok(())
}

/// Lines of no event and no undo.
const WRONG: [&str; 36] = [
    "",
    "1",
    "1 0",
    "1 0 ",
    "1  0 print",
    "1 0 print ",
    " 1 0 print",
    "1 0\tprint",
    "1 0 print\r",
    "01 0 print",
    "+1 0 print",
    "-1 0 print",
    "1 00 print",
    "0 0 print",
    "256 0 print",
    "1 1000000001 print",
    "1 0 Print",
    "1 0 print 5",
    "1 0 enter",
    "1 0 enter 4294967296",
    "1 0 enter 3 no",
    "1 0 read 1 2",
    "1 0 read 1 2 3 4",
    "1 0 notify 3",
    "1 0 notify 3 256",
    "1 0 start 40 0 2",
    "1 0 start 40 11 2",
    "1 0 start 40 5 256",
    "1 0 start 40 5",
    "1 0 init 29",
    "1 0 init 29 done",
    "1 0 done 29 claimed",
    "1 0 end 4",
    "end 4",
    "jrev-trace 1",
    "undone 1 1",
];

#[test]
fn other_lines_say_nothing(rt: HostRuntime) -> Result<(), Fail> {
    for line in &WRONG {
        assert!(rt; item_in(1, line.as_bytes()).is_none());
        assert!(rt; item_in(2, line.as_bytes()).is_none());
    }
    Ok(())
}

/// Undos, and whether a journal of version 2 has such a line.
const UNDOS: [(&str, bool); 8] = [
    ("undone 1 1 0", true),
    ("undone 255 255 4294967295", true),
    ("undone 1 0 0", false),
    ("undone 0 1 0", false),
    ("undone 256 1 0", false),
    ("undone 1 256 0", false),
    ("undone 1 1 4294967296", false),
    ("undone 1 1 0 0", false),
];

#[test]
fn undos_are_of_version_2(rt: HostRuntime) -> Result<(), Fail> {
    for (line, is_one) in &UNDOS {
        assert!(rt; item_in(2, line.as_bytes()).is_some() == *is_one);
        assert!(rt; item_in(1, line.as_bytes()).is_none());
    }
    Ok(())
}

#[test]
fn an_event_has_its_thread_and_silent_steps(rt: HostRuntime) -> Result<(), Fail> {
    let Some(JournalItem::Event(Event { thread, silent, .. })) = item_in(1, b"7 12 print") else {
        return Err(Fail::from("the line says nothing"));
    };
    assert!(rt; thread == 7 && silent == 12);
    Ok(())
}
