//! `check` and `migrate`.

ghost use Rattle.std.specs.Prelude.{◌≡◌, ◌<◌, ◌⊎◌, List, ℕ, IfOk, OnOk, IfSome, None, length, take};
ghost use Rattle.jr_ports.specs.Stream.{Gains};
ghost use Rattle.encoded_texts.specs.Encoded.{encoded_text};
ghost use Rattle.java_run.specs.Check.{Begins, IsCheckOf};
ghost use Rattle.program_input.specs.Input.{TakesAtMost, TakesUpTo};
ghost use Rattle.command_answers.specs.Answers.{Checks, ComeTo, IsDecided, IsJournalText, IsJudged, IsMigrated, checked_answer};
ghost use Rattle.file_answers.specs.Folder.{AreListed, ReadsInOrder};

use file_answers::{Failure, Judged, Loaded, given, load_folder, not_execution};
use java_run::{Checked, JournalCheck};
use java_world::JavaWorld;
use jr_ports::{ClassDir, Source};
use op_core::NoMemory;
use program_accept::Program;
use program_answers::{Answer, Output, Status};
use program_input::{Feed, feed_up_to, read_up_to};
use rows::{Bytes, Rows};
use std::alloc::{AllocError, Global};
use trace_journal::{JournalRefusal, as_newest};

/// How many bytes are read at most: one more than a journal may have.
const MOST_READ: usize = 268_435_457;

// The check of the journal of an accepted program, which is given the input.
#[derive(Drop)]
struct InputCheck<'p> {
    check: JournalCheck<'p, JavaWorld<'p>>,
}

impl<'p> Feed for InputCheck<'p> {
    ghost use Rattle.java_run.specs.Check.{FindsOn, Found as CheckFound};

    ghost Found = { CheckFound };

    ghost rest = { λ input more found. FindsOn (λ p. p.units) input.check more found };

    fn feed(&mut self, piece: &[u8]) -> Result<(), NoMemory> {
        self.check.feed(piece)
    }
}

impl<'p> InputCheck<'p> {
    // The check before the first byte.
    fn begin(
        alloc: Global,
        program: &'p JavaWorld<'p>,
        accepted: &Program,
    ) -> Result<Self, NoMemory>
        requires { program.now.units ≡ accepted.now.units }
        ensures { IfOk result (λ input. Begins (λ p. p.units) accepted.now.units accepted.now.main input.check) }
    {
        let check = JournalCheck::begin(alloc, program, accepted)?;
        Ok(InputCheck { check })
    }
}

// Whether the journal on the input is one of an execution of a program.
fn check_journal<I: Source>(
    alloc: Global,
    accepted: &Program,
    input: &mut I,
) -> Result<Checked, Failure>
    ensures checked { IfOk result (λ checked. (text : List ℕ) × IsJournalText (I.left input.old) text
        × IsCheckOf accepted.now.units accepted.now.main text checked) }
    ensures taken { TakesAtMost 268435457 (I.left input.old) (I.left input.new) }
    ensures calls { TakesUpTo 268435457 (I.taken input.old) (I.taken input.new) }
    ensures cause { result ≡ Err Failure.Failed → I.faults input.old < I.faults input.new }
    ensures ok_faults { OnOk result (I.faults input.new ≡ I.faults input.old) }
    ensures memory_faults { result ≡ Err Failure.NoMemory → I.faults input.new ≡ I.faults input.old }
{
    let program = JavaWorld::new(alloc, accepted)?;
    let mut input_check = InputCheck::begin(alloc, &program, accepted)?;
    feed_up_to(alloc, input, MOST_READ, &mut input_check)?;
    let checked = input_check.check.finish(alloc, accepted.world())?;
    Ok(checked)
}

// What the check of a journal came to.
fn checked_answer(alloc: Global, checked: Checked) -> Result<Answer, AllocError>
    ensures { IfOk result (λ answer. answer ≡ checked_answer checked) }
{
    match checked {
        Checked::Execution(lines) => Ok(Answer {
            status: Status::Done,
            out: Output::from_pieces(lines),
            err: Rows::new(alloc),
        }),
        Checked::NotExecution(number) => not_execution(alloc, number),
    }
}

// The answer of `check` to what the class files of a folder come to. Where they are no program the input isn't called.
fn check_loaded<I: Source>(alloc: Global, loaded: Loaded, input: &mut I) -> Result<Answer, Failure>
    ensures answer { IfOk result (λ answer. (main : List ℕ) (names files : List (List ℕ)) → loaded.count ≡ length files
        → ComeTo main names files loaded.judged → IsJudged (Checks (I.left input.old)) main names files answer) }
    ensures taken { TakesAtMost 268435457 (I.left input.old) (I.left input.new) }
    ensures calls { TakesUpTo 268435457 (I.taken input.old) (I.taken input.new) }
    ensures cause { result ≡ Err Failure.Failed → I.faults input.old < I.faults input.new }
    ensures ok_faults { OnOk result (I.faults input.new ≡ I.faults input.old) }
    ensures memory_faults { result ≡ Err Failure.NoMemory → I.faults input.new ≡ I.faults input.old }
{
    match loaded.judged {
        Judged::Program(program) => {
            let checked = check_journal(alloc, &program, input)?;
            Ok(checked_answer(alloc, checked)?)
        }
        Judged::Other(answer) => Ok(answer),
    }
}

/// The answer of `check` to a folder, the name of its main class and the journal on the input.
///
/// # Errors
/// `Failed` comes exactly where the folder's or the input's count of faults rose in this call.
pub fn check<D: ClassDir, I: Source>(
    alloc: Global,
    dir: &str,
    main: &str,
    classes: &mut D,
    input: &mut I,
) -> Result<Answer, Failure>
    requires { D.asked classes.old ≡ None }
    ensures answer { IfOk result (λ answer. (names : List (List ℕ))
        × AreListed (D.asked classes.new) (D.contents classes.old) dir.now names
        × Gains (D.read_names classes.old) (D.read_names classes.new) (take 1025 names)
        × IsDecided (Checks (I.left input.old)) (encoded_text main.now) (D.contents classes.old) (take 1025 names) answer) }
    ensures cause { result ≡ Err Failure.Failed
        → (D.faults classes.old < D.faults classes.new) ⊎ (I.faults input.old < I.faults input.new) }
    ensures ok_faults { OnOk result ((D.faults classes.new ≡ D.faults classes.old) × (I.faults input.new ≡ I.faults input.old)) }
    ensures memory_faults { result ≡ Err Failure.NoMemory
        → (D.faults classes.new ≡ D.faults classes.old) × (I.faults input.new ≡ I.faults input.old) }
    ensures asked { IfSome (D.asked classes.new) (λ asked. asked.dir ≡ dir.now) }
    ensures order { ReadsInOrder 1025 (D.asked classes.new) (D.read_names classes.old) (D.read_names classes.new) }
    ensures taken { TakesAtMost 268435457 (I.left input.old) (I.left input.new) }
    ensures calls { TakesUpTo 268435457 (I.taken input.old) (I.taken input.new) }
{
    let loaded = load_folder(alloc, dir, main, classes)?;
    check_loaded(alloc, loaded, input)
}

/// The answer of `migrate` to a text.
///
/// # Errors
/// It fails only when memory runs out.
pub fn answer_to_journal(alloc: Global, text: Vec<u8>) -> Result<Answer, NoMemory>
    ensures { IfOk result (λ answer. IsMigrated text.items answer) }
{
    match as_newest(alloc, text) {
        Ok(newest) => Ok(given(alloc, Bytes::from_vec(newest))?),
        Err(JournalRefusal::Fault(fault)) => Ok(not_execution(alloc, fault.line())?),
        Err(JournalRefusal::NoMemory) => Err(NoMemory),
    }
}

/// The answer of `migrate` to the text on the input.
///
/// # Errors
/// `Failed` comes exactly where the input's count of faults rose in this call.
pub fn migrate<I: Source>(alloc: Global, input: &mut I) -> Result<Answer, Failure>
    ensures answer { IfOk result (λ answer. (text : List ℕ) × IsJournalText (I.left input.old) text × IsMigrated text answer) }
    ensures taken { TakesAtMost 268435457 (I.left input.old) (I.left input.new) }
    ensures calls { TakesUpTo 268435457 (I.taken input.old) (I.taken input.new) }
    ensures cause { result ≡ Err Failure.Failed → I.faults input.old < I.faults input.new }
    ensures ok_faults { OnOk result (I.faults input.new ≡ I.faults input.old) }
    ensures memory_faults { result ≡ Err Failure.NoMemory → I.faults input.new ≡ I.faults input.old }
{
    let text = read_up_to(alloc, input, MOST_READ)?;
    let answer = answer_to_journal(alloc, text)?;
    Ok(answer)
}
