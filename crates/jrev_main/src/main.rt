//! `jrev` executes Java class files whose monitors can be revoked.
#![tactic(auto)]

ghost use Rattle.std.specs.Prelude.{◌≡◌, ◌<◌, ◌⊎◌, [], ◌∷◌, None, IfSome, codes};
ghost use Rattle.program_input.specs.Input.{TakesAtMost};
ghost use Rattle.program_answers.specs.Written.{Said, line};
ghost use Rattle.jrev_top.specs.Touches.{asked_by, files_wanted, folder_named, input_wanted};
ghost use Rattle.jrev_top.specs.Headline.{AsksOnly, FailsAsked, ReadsInOrder, Reports, sink_run};

use jr_ports::{ClassDir, FolderDir, NoGate, Sink, Source, StdErr, StdOut, StdSource};
use jrev_top::{Status, jrev, say};
use std::alloc::Global;
use std::env;
use std::io::{self, ErrorKind};
use std::process::ExitCode;
use std::rt::Env;
use std::thread::Threads;

/// The words of the command line, without the program's name.
fn given_words(rt: &(impl Env + AllocGlobal)) -> io::Result<Vec<String>> {
    let mut words = Vec::new(rt.alloc());
    for word in env::args(rt)?.skip(1) {
        words.push(word)?;
    }
    Ok(words)
}

/// Runs the program with these words over this folder and these streams: [`jrev`] is called with just these, and what it
/// ensures of them holds.
fn run_over<R, D, I, O, E>(
    rt: &R,
    alloc: Global,
    words: &[String],
    classes: &mut D,
    input: &mut I,
    out: &mut O,
    err: &mut E,
) -> Status
where
    R: Threads + Sync,
    D: ClassDir,
    I: Source,
    O: Sink,
    E: Sink,
    requires { D.asked classes.old ≡ None }
    ensures answer { Reports (asked_by words.now)
        (record {
          asked = D.asked classes.new;
          files = D.contents classes.old;
          input = I.left input.old;
          before = D.read_names classes.old;
          after = D.read_names classes.new;
        })
        (FailsAsked (asked_by words.now)
        (D.faults classes.old < D.faults classes.new) (I.faults input.old < I.faults input.new))
        (record {
          out = sink_run (O.given out.old) (O.given out.new) (O.faults out.old) (O.faults out.new);
          err = sink_run (E.given err.old) (E.given err.new) (E.faults err.old) (E.faults err.new);
        }) result }
    ensures asked { AsksOnly (asked_by words.now) (D.asked classes.new) }
    ensures unasked { folder_named (asked_by words.now) ≡ None → classes.new ≡ classes.old }
    ensures order { ReadsInOrder (files_wanted (asked_by words.now)) (D.asked classes.new)
        (D.read_names classes.old) (D.read_names classes.new) }
    ensures unread { input_wanted (asked_by words.now) ≡ None → input.new ≡ input.old }
    ensures taken { IfSome (input_wanted (asked_by words.now))
        (λ most. TakesAtMost most (I.left input.old) (I.left input.new)) }
{
    jrev(rt, alloc, words, classes, input, out, err, &NoGate)
}

/// Says why there are no words: one isn't a text, or there is no memory for them.
fn say_no_words<E: Sink>(error: &io::Error, err: &mut E) -> Status
    ensures { Said (line (codes "usage") ∷ []) Status.Usage (sink_run (E.given err.old) (E.given err.new) (E.faults err.old) (E.faults err.new)) result
        ⊎ Said (line (codes "no memory") ∷ []) Status.Memory (sink_run (E.given err.old) (E.given err.new) (E.faults err.old) (E.faults err.new)) result }
{
    if error.kind() == ErrorKind::InvalidData {
        return say(err, b"usage\n", Status::Usage);
    }
    say(err, b"no memory\n", Status::Memory)
}

/// Runs the program over the process's own words, folders and streams.
fn main(rt: HostRuntime) -> ExitCode {
    let mut classes = FolderDir::new(&rt);
    let mut input = StdSource::new(rt.stdin());
    let mut out = StdOut::new(rt.stdout());
    let mut err = StdErr::new(rt.stderr());
    let status = match given_words(&rt) {
        Ok(words) => run_over(
            &rt,
            rt.alloc(),
            words.as_slice(),
            &mut classes,
            &mut input,
            &mut out,
            &mut err,
        ),
        Err(error) => say_no_words(&error, &mut err),
    };
    ExitCode::from(status.number())
}
