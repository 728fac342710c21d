//! What the program answers to its words, before a byte of it is written.

ghost use Rattle.std.specs.Prelude.{◌≡◌, ◌<◌, IfOk, OnOk, IfSome, None};
ghost use Rattle.program_input.specs.Input.{TakesAtMost, TakesUpTo};
ghost use Rattle.command_answers.specs.Answers as answers;
ghost use Rattle.file_answers.specs.Folder.{ReadsInOrder};
ghost use Rattle.jrev_top.specs.Touches.{asked_by, files_wanted, folder_named, input_wanted};
ghost use Rattle.jrev_top.specs.Headline.{AsksOnly, FailsAsked, IsAnswer};

use command_answers::{
    Execution, HostedExecution, Tracing, answer_to_number, check, decide_hosted, migrate,
};
use command_words::{Request, WordsRefusal, words_of};
use file_answers::{Count, Failure, decide_program, given, help, make, usage, version};
use jr_ports::{ClassDir, Gate, Source};
use program_answers::Answer;
use rows::Bytes;
use std::alloc::Global;
use std::thread::Threads;

// A text on the standard output.
fn text(alloc: Global, text: &str) -> Result<Answer, Failure>
    ensures answer { IfOk result (λ answer. answer ≡ answers.given text.now) }
    ensures memory { result ≡ Err Failure.Failed → ⊥ }
{
    let bytes = Bytes::from_slice(alloc, text.as_bytes())?;
    Ok(given(alloc, bytes)?)
}

/// The answer to the words, over what the folder and the input give. A program that runs on host threads has its threads from `rt`, and
/// each of them passes the gate before it begins.
///
/// # Errors
/// `Failed` comes exactly where the count of faults of the folder that is asked, or of the input that is read, rose in
/// this call.
pub(crate) fn decide<R: Threads + Sync, D: ClassDir, I: Source, G: Gate + Sync>(
    rt: &R,
    alloc: Global,
    words: &[String],
    classes: &mut D,
    input: &mut I,
    gate: &G,
) -> Result<Answer, Failure>
    requires { D.asked classes.old ≡ None }
    ensures answer { IfOk result (λ answer. IsAnswer (asked_by words.now)
        (record {
          asked = D.asked classes.new;
          files = D.contents classes.old;
          input = I.left input.old;
          before = D.read_names classes.old;
          after = D.read_names classes.new;
        }) answer) }
    ensures cause { result ≡ Err Failure.Failed → FailsAsked (asked_by words.now)
        (D.faults classes.old < D.faults classes.new) (I.faults input.old < I.faults input.new) }
    ensures ok_faults { OnOk result ((D.faults classes.new ≡ D.faults classes.old) × (I.faults input.new ≡ I.faults input.old)) }
    ensures memory_faults { result ≡ Err Failure.NoMemory
        → (D.faults classes.new ≡ D.faults classes.old) × (I.faults input.new ≡ I.faults input.old) }
    ensures asked { AsksOnly (asked_by words.now) (D.asked classes.new) }
    ensures order { ReadsInOrder (files_wanted (asked_by words.now)) (D.asked classes.new)
        (D.read_names classes.old) (D.read_names classes.new) }
    ensures unasked { folder_named (asked_by words.now) ≡ None → classes.new ≡ classes.old }
    ensures unread { input_wanted (asked_by words.now) ≡ None → input.new ≡ input.old }
    ensures taken { IfSome (input_wanted (asked_by words.now))
        (λ most. TakesAtMost most (I.left input.old) (I.left input.new)) }
    ensures calls { IfSome (input_wanted (asked_by words.now))
        (λ most. TakesUpTo most (I.taken input.old) (I.taken input.new)) }
{
    match words_of(alloc, words) {
        Ok(
            Request::Pick {
                dir,
                main,
                limits,
                schedule,
                counts,
            },
        ) => {
            let execution = Execution {
                schedule: &schedule,
                limits: &limits,
                counts,
            };
            decide_program(alloc, dir.as_str(), main.as_str(), classes, &execution)
        }
        Ok(
            Request::Trace {
                dir,
                main,
                limits,
                schedule,
            },
        ) => {
            let tracing = Tracing {
                schedule: &schedule,
                limits: &limits,
            };
            decide_program(alloc, dir.as_str(), main.as_str(), classes, &tracing)
        }
        Ok(
            Request::Run {
                dir,
                main,
                limits,
                workers,
                slice,
                counts,
            },
        ) => {
            let execution = HostedExecution {
                rt,
                gate,
                limits: &limits,
                workers,
                slice,
                counts,
            };
            decide_hosted(alloc, dir.as_str(), main.as_str(), classes, &execution)
        }
        Ok(Request::Check { dir, main }) => {
            check(alloc, dir.as_str(), main.as_str(), classes, input)
        }
        Ok(Request::Load { dir, main }) => {
            decide_program(alloc, dir.as_str(), main.as_str(), classes, &Count)
        }
        Ok(Request::Make) => make(alloc, input),
        Ok(Request::Migrate) => migrate(alloc, input),
        Ok(Request::Stress { number }) => Ok(answer_to_number(rt, alloc, number, gate)?),
        Ok(Request::Help) => text(alloc, help()),
        Ok(Request::Version) => text(alloc, version()),
        Err(WordsRefusal::Usage) => Ok(usage(alloc)?),
        Err(WordsRefusal::NoMemory) => Err(Failure::NoMemory),
    }
}
