//! The top call: everything between the words of the command line and the exit status.

ghost use Rattle.std.specs.Prelude.{◌≡◌, ◌<◌, ◌⊎◌, ◌↔◌, IfSome, None};
ghost use Rattle.program_input.specs.Input.{TakesAtMost, TakesUpTo};
ghost use Rattle.file_answers.specs.Folder.{ReadsInOrder};
ghost use Rattle.jrev_top.specs.Touches.{asked_by, files_wanted, folder_named, input_wanted};
ghost use Rattle.jrev_top.specs.Headline.{AsksOnly, FailsAsked, MayEnd, Reports, sink_run};

use crate::deciding::decide;
use crate::telling::tell;
use jr_ports::{ClassDir, Gate, Sink, Source};
use program_answers::Status;
use std::alloc::Global;
use std::thread::Threads;

/// Runs the program with the words of its command line, its own name left out.
///
/// `pick DIR MAIN` executes the program of the class files in DIR that begins with the class MAIN, on one host thread.
/// `run DIR MAIN` does so on several host threads at once, which `rt` starts and each of which passes the gate before it
/// gives turns. `trace DIR MAIN` does what `pick` does, and gives the journal of the run in place of its lines. `check DIR MAIN` says whether the text on
/// `input` is the journal of an execution of the program. `load DIR MAIN` says whether the program is accepted. `make`
/// makes a class file of the text on `input`, `migrate` gives the journal on `input` in version 2, `stress N` executes
/// the program that is made for a number twice, and `--help` and `--version` say what the program is. The answer goes
/// to `out` and `err`, and the status says how the run ended:
///
/// - `Done`, `Usage`, `Refused`, `NoMain`, `NotExecution` and `MakeRefused` come exactly where the words, the files and
///   the text say so; under `pick`, `trace`, `run` and `stress` `Done` and `Died` where all threads have ended, normally or one
///   by an exception, `Stuck` where no thread can go on, since each that hasn't ended waits, and `Limit` where the next
///   turn meets a limit, or where under `trace` the last turn made the last event or undoing that a journal has room for;
/// - `WriteFault` comes exactly where the count of faults of `out` or of `err` rose in this call, and `ReadFault`
///   exactly where neither did and that of `classes` rose, or under `check`, `make` and `migrate` that of `input`;
/// - `Memory` may come anywhere, but not where one of these counts rose.
///
/// `out` is written before `err`. After a fault, or when memory runs out, `out` was given a part of the answer, from
/// its front, and `err` the line of that failure alone, or a part of it. `classes` is asked for DIR alone; all files
/// that an answer is based on were read before it. `input` is read by `check`, `make` and `migrate` alone, up to its
/// end or one byte past the longest journal or text, whichever comes first.
pub fn jrev<R: Threads + Sync, D: ClassDir, I: Source, O: Sink, E: Sink, G: Gate + Sync>(
    rt: &R,
    alloc: Global,
    words: &[String],
    classes: &mut D,
    input: &mut I,
    out: &mut O,
    err: &mut E,
    gate: &G,
) -> Status
    requires { D.asked classes.old ≡ None }

    // Which status comes, and what both streams were given.
    ensures answer { Reports (asked_by words.now)
        (record {
          asked = D.asked classes.new;
          files = D.contents classes.old;
          input = I.left input.old;
          before = D.read_names classes.old;
          after = D.read_names classes.new;
        })
        (FailsAsked (asked_by words.now)
        (D.faults classes.old < D.faults classes.new) (I.faults input.old < I.faults input.new))
        (record {
          out = sink_run (O.given out.old) (O.given out.new) (O.faults out.old) (O.faults out.new);
          err = sink_run (E.given err.old) (E.given err.new) (E.faults err.old) (E.faults err.new);
        }) result }

    // Where no count of faults rose, the status is one of the answer, or out of memory.
    ensures complete { (D.faults classes.old < D.faults classes.new → ⊥) → (I.faults input.old < I.faults input.new → ⊥)
        → (O.faults out.old < O.faults out.new → ⊥) → (E.faults err.old < E.faults err.new → ⊥)
        → MayEnd (asked_by words.now) result }

    // The status says that a fault came: one of a stream, or else one of the folder or the input.
    ensures read_fault { result ≡ Status.ReadFault ↔ (FailsAsked (asked_by words.now)
        (D.faults classes.old < D.faults classes.new) (I.faults input.old < I.faults input.new)
        × ¬ ((O.faults out.old < O.faults out.new) ⊎ (E.faults err.old < E.faults err.new))) }
    ensures write_fault { result ≡ Status.WriteFault
        ↔ ((O.faults out.old < O.faults out.new) ⊎ (E.faults err.old < E.faults err.new)) }
    ensures no_memory { result ≡ Status.Memory → ¬ (FailsAsked (asked_by words.now)
        (D.faults classes.old < D.faults classes.new) (I.faults input.old < I.faults input.new))
        × ¬ ((O.faults out.old < O.faults out.new) ⊎ (E.faults err.old < E.faults err.new)) }

    // The folder is asked for the one that is named, and the first of its class files are read, in order.
    ensures asked { AsksOnly (asked_by words.now) (D.asked classes.new) }
    ensures unasked { folder_named (asked_by words.now) ≡ None → classes.new ≡ classes.old }
    ensures order { ReadsInOrder (files_wanted (asked_by words.now)) (D.asked classes.new)
        (D.read_names classes.old) (D.read_names classes.new) }

    // No more is taken of the input than is wanted, and it is taken in pieces, none of them past the end.
    ensures unread { input_wanted (asked_by words.now) ≡ None → input.new ≡ input.old }
    ensures taken { IfSome (input_wanted (asked_by words.now))
        (λ most. TakesAtMost most (I.left input.old) (I.left input.new)) }
    ensures calls { IfSome (input_wanted (asked_by words.now))
        (λ most. TakesUpTo most (I.taken input.old) (I.taken input.new)) }
{
    let decided = decide(rt, alloc, words, classes, input, gate);
    tell(decided, out, err)
}
