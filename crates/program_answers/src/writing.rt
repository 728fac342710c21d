//! Writing what the program answers.

ghost use Rattle.std.specs.Prelude.{◌≡◌, ◌<◌, ◌≤◌, [], ◌∷◌, length, OnOk, OnErr};
ghost use Rattle.jr_ports.specs.Stream.{Gains, GainsPart};
ghost use Rattle.program_answers.specs.Output.{journal_pieces};
ghost use Rattle.program_answers.specs.Written.{Comes, EndsOr, Said};

use crate::answer::Answer;
use crate::output::{Output, Pieces};
use crate::status::Status;
use jr_ports::{Sink, SinkFault};
use op_core::{Event, Undo};
use rows::Bytes;
use std::alloc::Global;
use trace_journal::JournalLines;

// Gives the lines of a journal to a sink, one put for each.
fn put_journal<S: Sink>(
    alloc: Global,
    events: &[Event],
    undos: &[Undo],
    sink: &mut S,
) -> Result<(), SinkFault>
    requires { length events.now ≤ 4194304 }
    ensures ok { OnOk result (Gains (S.given sink.old) (S.given sink.new) (journal_pieces events.now undos.now)) }
    ensures err { OnErr result (GainsPart (S.given sink.old) (S.given sink.new) (journal_pieces events.now undos.now)) }
    ensures cause { result ≡ Err SinkFault.Failed → S.faults sink.old < S.faults sink.new }
    ensures ok_faults { OnOk result (S.faults sink.new ≡ S.faults sink.old) }
    ensures memory_faults { result ≡ Err SinkFault.NoMemory → S.faults sink.new ≡ S.faults sink.old }
{
    let mut lines = JournalLines::new(events, undos);
    let mut line = String::new(alloc);
    while lines.push_next(&mut line)? {
        sink.put(line.as_bytes())?;
        line.clear();
    }
    Ok(())
}

// Gives pieces to a sink, one put for each.
fn put_all<S: Sink>(pieces: &[Bytes], sink: &mut S) -> Result<(), SinkFault>
    ensures ok { OnOk result (Gains (S.given sink.old) (S.given sink.new) pieces.now) }
    ensures err { OnErr result (GainsPart (S.given sink.old) (S.given sink.new) pieces.now) }
    ensures cause { result ≡ Err SinkFault.Failed → S.faults sink.old < S.faults sink.new }
    ensures ok_faults { OnOk result (S.faults sink.new ≡ S.faults sink.old) }
    ensures memory_faults { result ≡ Err SinkFault.NoMemory → S.faults sink.new ≡ S.faults sink.old }
{
    for piece in pieces {
        sink.put(piece.as_slice())?;
    }
    Ok(())
}

// Gives what an output has to a sink.
fn put_output<S: Sink>(output: &Output, sink: &mut S) -> Result<(), SinkFault>
    ensures ok { OnOk result (Gains (S.given sink.old) (S.given sink.new) output.now) }
    ensures err { OnErr result (GainsPart (S.given sink.old) (S.given sink.new) output.now) }
    ensures cause { result ≡ Err SinkFault.Failed → S.faults sink.old < S.faults sink.new }
    ensures ok_faults { OnOk result (S.faults sink.new ≡ S.faults sink.old) }
    ensures memory_faults { result ≡ Err SinkFault.NoMemory → S.faults sink.new ≡ S.faults sink.old }
{
    match &output.pieces {
        Pieces::Made(pieces) => put_all(pieces.as_slice(), sink),
        Pieces::Journal {
            alloc,
            events,
            undos,
        } => put_journal(*alloc, events.as_slice(), undos.as_slice(), sink),
    }
}

/// Writes a line to the standard error, and ends with a status: the one that is meant, or that of the standard error's
/// failure.
pub fn say<E: Sink>(err: &mut E, line: &[u8], meant: Status) -> Status
    ensures { Said (line.now ∷ []) meant (record { before = E.given err.old; after = E.given err.new; failed = E.faults err.old < E.faults err.new }) result }
{
    match err.put(line) {
        Ok(()) => meant,
        Err(SinkFault::Failed) => Status::WriteFault,
        Err(SinkFault::NoMemory) => Status::Memory,
    }
}

/// Writes the line of a fault to the standard error, and ends with the fault's status, also without memory for the line; or
/// with that of a fault of the standard error.
pub fn say_fault<E: Sink>(err: &mut E, line: &[u8], fault: Status) -> Status
    ensures { EndsOr fault (line.now ∷ []) fault (record { before = E.given err.old; after = E.given err.new; failed = E.faults err.old < E.faults err.new }) result }
{
    match err.put(line) {
        Ok(()) | Err(SinkFault::NoMemory) => fault,
        Err(SinkFault::Failed) => Status::WriteFault,
    }
}

// Writes lines to the standard error, and ends likewise.
fn say_all<E: Sink>(err: &mut E, lines: &[Bytes], meant: Status) -> Status
    ensures { Said lines.now meant (record { before = E.given err.old; after = E.given err.new; failed = E.faults err.old < E.faults err.new }) result }
{
    match put_all(lines, err) {
        Ok(()) => meant,
        Err(SinkFault::Failed) => Status::WriteFault,
        Err(SinkFault::NoMemory) => Status::Memory,
    }
}

/// Writes an answer, the standard output first, and returns the status with which the program ends: that of the answer,
/// or that of the failure of a stream. Takes no memory but for the line of a journal, and what the sinks take.
pub fn report<O: Sink, E: Sink>(answer: &Answer, out: &mut O, err: &mut E) -> Status
    ensures { Comes answer.now (record {
      out = record { before = O.given out.old; after = O.given out.new; failed = O.faults out.old < O.faults out.new };
      err = record { before = E.given err.old; after = E.given err.new; failed = E.faults err.old < E.faults err.new };
    }) result }
{
    match put_output(&answer.out, out) {
        Ok(()) => say_all(err, answer.err.as_slice(), answer.status),
        Err(SinkFault::Failed) => say_fault(err, b"write fault\n", Status::WriteFault),
        Err(SinkFault::NoMemory) => say(err, b"no memory\n", Status::Memory),
    }
}
