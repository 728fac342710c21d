//! Texts, and the journals that they are or their first fault.

ghost use Rattle.std.specs.List.{AllByRecursion};
ghost use Rattle.op_core.specs.declared.Event.{Event};
ghost use Rattle.op_core.specs.Replies.{Fits};

use std::alloc::Global;
use std::test::Fail;
use trace_journal::{
    Journal, JournalFault, JournalItem, JournalLimits, JournalReader, JournalRefusal, LARGEST,
    read_journal, write_journal,
};

/// The journal of a class that prints the sum of two numbers.
const SUM: &str = "jrev-trace 1
1 0 init 29 claimed
1 0 done 29 ok
1 5 print
1 1 end
end 4
";

/// The same in version 2, with an undo.
const UNDONE: &str = "jrev-trace 2
1 0 init 29 claimed
undone 1 1 0
1 0 done 29 ok
1 5 print
1 1 end
end 4
";

/// What a text comes to.
#[derive(Clone, Copy, PartialEq, Eq)]
enum Comes {
    /// A journal of this version with this many events and undos.
    Read(u8, usize, usize),
    /// A fault that this line shows.
    Line(u32),
    /// Another version.
    Version,
    /// One item or byte more than there may be, in this line.
    TooMany(u32),
}

fn fault_of(fault: JournalFault) -> Comes {
    match fault {
        JournalFault::Line(line) => Comes::Line(line),
        JournalFault::Version => Comes::Version,
        JournalFault::TooMany(line) => Comes::TooMany(line),
    }
}

fn comes_of(alloc: Global, text: &str) -> Result<Comes, Fail> {
    match read_journal(alloc, text.as_bytes()) {
        Ok(journal) => Ok(Comes::Read(journal.version, journal.events.len(), journal.undos.len())),
        Err(JournalRefusal::Fault(fault)) => Ok(fault_of(fault)),
        Err(JournalRefusal::NoMemory) => Err(Fail::from("there is no memory")),
    }
}

/// Texts, and what they come to.
const TEXTS: [(&str, Comes); 20] = [
    (SUM, Comes::Read(1, 4, 0)),
    (UNDONE, Comes::Read(2, 4, 1)),
    ("jrev-trace 1\nend 0\n", Comes::Read(1, 0, 0)),
    ("", Comes::Line(1)),
    ("jrev-trace 1", Comes::Line(1)),
    ("jrev-trace 9", Comes::Line(1)),
    ("jrev-trace 9\n", Comes::Version),
    (
        "jrev-trace 12345678901234567890123\n1 0 x\n",
        Comes::Version,
    ),
    ("jrev-trace 01\n", Comes::Line(1)),
    ("jrev-trace\n", Comes::Line(1)),
    ("jrev-trace 1 \n", Comes::Line(1)),
    ("jrev-trace 1\n", Comes::Line(2)),
    ("jrev-trace 1\n1 5 print\nend 0\n", Comes::Line(3)),
    ("jrev-trace 1\n1 5 print\nend 1", Comes::Line(3)),
    ("jrev-trace 1\n1 5 print\nend 1\nend 1\n", Comes::Line(4)),
    ("jrev-trace 1\n1 5 print\nend 1\n\n", Comes::Line(4)),
    ("jrev-trace 1\n1 5 print\nend 1\nx", Comes::Line(4)),
    ("jrev-trace 1\nundone 1 1 0\nend 0\n", Comes::Line(2)),
    ("jrev-trace 2\nundone 1 0 0\nend 0\n", Comes::Line(2)),
    ("jrev-trace 2\n1 4 print\n\nend 1\n", Comes::Line(3)),
];

#[test]
fn texts_are_read_or_have_a_first_fault(rt: HostRuntime) -> Result<(), Fail> {
    for (text, comes) in &TEXTS {
        assert!(rt; comes_of(rt.alloc(), text)? == *comes);
    }
    Ok(())
}

#[test]
fn a_journal_that_was_read_is_written_in_version_2(rt: HostRuntime) -> Result<(), Fail> {
    let Ok(journal) = read_journal(rt.alloc(), UNDONE.as_bytes()) else {
        return Err(Fail::from("the text is no journal"));
    };
    assert!(rt; journal.places.as_slice() == [2, 4, 5, 6].as_slice());
    let written = write_again(rt.alloc(), &journal)?;
    assert!(rt; written.as_str() == UNDONE);
    Ok(())
}

/// The text of a journal's events and undos.
fn write_again(alloc: Global, journal: &Journal) -> Result<String, Fail>
    requires { AllByRecursion (λ (e : Event). Fits e.op e.reply) journal.now.events }
{
    let events = journal.events.as_slice();
    if events.len() > 4_194_304 {
        return Err(Fail::from("the journal is small"));
    }
    match write_journal(alloc, events, journal.undos.as_slice()) {
        Ok(text) => Ok(text),
        Err(_) => Err(Fail::from("there is no memory")),
    }
}

/// What the reader makes of a text that comes in pieces of this many bytes.
fn in_pieces(alloc: Global, text: &str, size: usize, limits: JournalLimits) -> Result<Comes, Fail> {
    if size == 0 || limits.items > 4_194_304 {
        return Err(Fail::from("a piece has bytes"));
    }
    let mut items: Vec<JournalItem> = Vec::new(alloc);
    let mut reader = JournalReader::new(alloc, limits);
    for piece in text.as_bytes().chunks(size) {
        if reader.feed(piece, &mut items).is_err() {
            return Err(Fail::from("there is no memory"));
        }
    }
    match reader.finish() {
        Ok(version) => Ok(Comes::Read(version, items.len(), 0)),
        Err(fault) => Ok(fault_of(fault)),
    }
}

#[test]
fn pieces_of_any_length_come_to_the_same(rt: HostRuntime) -> Result<(), Fail> {
    for size in [1, 2, 3, 7, 1000] {
        assert!(rt; in_pieces(rt.alloc(), SUM, size, LARGEST)? == Comes::Read(1, 4, 0));
        assert!(rt; in_pieces(rt.alloc(), UNDONE, size, LARGEST)? == Comes::Read(2, 5, 0));
    }
    Ok(())
}

/// Limits of items and bytes, and what the journal of the sum, of 72 bytes, comes to.
const LIMITS: [(u32, u64, Comes); 6] = [
    (4, 72, Comes::Read(1, 4, 0)),
    (3, 72, Comes::TooMany(5)),
    (0, 72, Comes::TooMany(2)),
    (4, 71, Comes::TooMany(6)),
    (4, 12, Comes::TooMany(1)),
    (4, 13, Comes::TooMany(2)),
];

#[test]
fn what_is_one_too_many_is_told_with_its_line(rt: HostRuntime) -> Result<(), Fail> {
    assert!(rt; SUM.len() == 72);
    for (items, bytes, comes) in &LIMITS {
        let limits = JournalLimits {
            items: *items,
            bytes: *bytes,
        };
        assert!(rt; in_pieces(rt.alloc(), SUM, 5, limits)? == *comes);
    }
    Ok(())
}
