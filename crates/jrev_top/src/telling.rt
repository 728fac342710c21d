//! What is written of what was decided.

ghost use Rattle.std.specs.Prelude.{◌≡◌};
ghost use Rattle.jrev_top.specs.Headline.{IsTold, sink_run};

use file_answers::Failure;
use jr_ports::Sink;
use program_answers::{Answer, Status, report, say, say_fault};

/// Writes the answer, or why there is none, and returns the status with which the program ends.
pub(crate) fn tell<O: Sink, E: Sink>(
    decided: Result<Answer, Failure>,
    out: &mut O,
    err: &mut E,
) -> Status
    ensures { IsTold decided (record {
      out = sink_run (O.given out.old) (O.given out.new) (O.faults out.old) (O.faults out.new);
      err = sink_run (E.given err.old) (E.given err.new) (E.faults err.old) (E.faults err.new);
    }) result }
{
    match decided {
        Ok(answer) => report(&answer, out, err),
        Err(Failure::Failed) => say_fault(err, b"read fault\n", Status::ReadFault),
        Err(Failure::NoMemory) => say(err, b"no memory\n", Status::Memory),
    }
}
