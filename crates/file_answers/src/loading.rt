//! Commands over the program of a folder.

ghost use Rattle.std.specs.Prelude.{◌≡◌, ◌<◌, List, ℕ, IfOk, OnOk, IfSome, None, map, take, string_bytes};
ghost use Rattle.jr_ports.specs.Stream.{Gains};
ghost use Rattle.encoded_texts.specs.Encoded.{encoded_text};
ghost use Rattle.file_answers.specs.Answers.{ComeTo, IsJudged, IsDecided, IsLoaded};
ghost use Rattle.file_answers.specs.Folder.{AreListed, ReadsInOrder};

use crate::answers::{no_main, refused};
use crate::failure::Failure;
use crate::verdict::Verdict;
use encoded_texts::encoded_text;
use jr_ports::ClassDir;
use op_core::NoMemory;
use program_accept::{AcceptRefusal, Program, accept};
use program_answers::Answer;
use program_input::{class_names, read_files};
use std::alloc::Global;

/// How many class files are read at most: one more than a program has, so that too many are seen.
const MOST_READ: usize = 1025;

/// What class files come to before anything is done with them.
#[derive(Drop)]
pub enum Judged {
    /// A program that is accepted.
    Program(Program),
    /// No such program, to which this is answered.
    Other(Answer),
}

/// What the class files of a folder come to.
#[derive(Drop)]
pub struct Loaded {
    /// How many they are.
    pub count: usize,
    /// What they come to.
    pub judged: Judged,
}

/// What class files of these names and bytes come to, where the program is to begin with a class.
///
/// # Errors
/// It fails only when memory runs out.
pub fn judge(
    alloc: Global,
    names: &[String],
    files: Vec<Vec<u8>>,
    main: &str,
) -> Result<Judged, NoMemory>
    ensures { IfOk result (ComeTo (encoded_text main.now) (map string_bytes names.now) (map (λ f. f.items) files.items)) }
{
    let main = encoded_text(alloc, main)?;
    match accept(alloc, files, main.as_slice()) {
        Ok(program) => Ok(Judged::Program(program)),
        Err(AcceptRefusal::NoMain) => Ok(Judged::Other(no_main(alloc)?)),
        Err(AcceptRefusal::Refused(refusal)) => Ok(Judged::Other(refused(alloc, names, refusal)?)),
        Err(AcceptRefusal::NoMemory) => Err(NoMemory),
    }
}

/// The answer to class files of these names and bytes, and to the name of a class, whose parts are joined by slashes:
/// where they are a program that begins with that class, the verdict's, and else the first rule that they break.
///
/// # Errors
/// It fails only when memory runs out.
pub fn answer_to_files<V: Verdict>(
    alloc: Global,
    names: &[String],
    files: Vec<Vec<u8>>,
    main: &str,
    verdict: &V,
) -> Result<Answer, NoMemory>
    ensures { IfOk result (λ answer.
        IsJudged (V.answers verdict.now) (encoded_text main.now) (map string_bytes names.now) (map (λ f. f.items) files.items) answer) }
{
    let count = files.len();
    let judged = judge(alloc, names, files, main)?;
    match judged {
        Judged::Program(program) => verdict.answer(alloc, count, &program),
        Judged::Other(answer) => Ok(answer),
    }
}

/// What a folder and the name of its main class come to. All files are read before any is judged.
///
/// # Errors
/// `Failed` comes exactly where the folder's count of faults rose in this call.
pub fn load_folder<D: ClassDir>(
    alloc: Global,
    dir: &str,
    main: &str,
    classes: &mut D,
) -> Result<Loaded, Failure>
    requires { D.asked classes.old ≡ None }
    ensures loaded { IfOk result (λ loaded. (names : List (List ℕ))
        × AreListed (D.asked classes.new) (D.contents classes.old) dir.now names
        × Gains (D.read_names classes.old) (D.read_names classes.new) (take 1025 names)
        × IsLoaded (encoded_text main.now) (D.contents classes.old) (take 1025 names) loaded) }
    ensures cause { result ≡ Err Failure.Failed → D.faults classes.old < D.faults classes.new }
    ensures ok_faults { OnOk result (D.faults classes.new ≡ D.faults classes.old) }
    ensures memory_faults { result ≡ Err Failure.NoMemory → D.faults classes.new ≡ D.faults classes.old }
    ensures asked { IfSome (D.asked classes.new) (λ asked. asked.dir ≡ dir.now) }
    ensures order { ReadsInOrder 1025 (D.asked classes.new) (D.read_names classes.old) (D.read_names classes.new) }
{
    let mut names = class_names(alloc, classes, dir)?;
    names.truncate(MOST_READ);
    let files = read_files(alloc, classes, dir, names.as_slice())?;
    let count = files.len();
    let judged = judge(alloc, names.as_slice(), files, main)?;
    Ok(Loaded { count, judged })
}

/// The answer to a folder and the name of its main class: to its program, the verdict's. All files are read before any is
/// judged.
///
/// # Errors
/// `Failed` comes exactly where the folder's count of faults rose in this call.
pub fn decide_program<D: ClassDir, V: Verdict>(
    alloc: Global,
    dir: &str,
    main: &str,
    classes: &mut D,
    verdict: &V,
) -> Result<Answer, Failure>
    requires { D.asked classes.old ≡ None }
    ensures answer { IfOk result (λ answer. (names : List (List ℕ))
        × AreListed (D.asked classes.new) (D.contents classes.old) dir.now names
        × Gains (D.read_names classes.old) (D.read_names classes.new) (take 1025 names)
        × IsDecided (V.answers verdict.now) (encoded_text main.now) (D.contents classes.old) (take 1025 names) answer) }
    ensures cause { result ≡ Err Failure.Failed → D.faults classes.old < D.faults classes.new }
    ensures ok_faults { OnOk result (D.faults classes.new ≡ D.faults classes.old) }
    ensures memory_faults { result ≡ Err Failure.NoMemory → D.faults classes.new ≡ D.faults classes.old }
    ensures asked { IfSome (D.asked classes.new) (λ asked. asked.dir ≡ dir.now) }
    ensures order { ReadsInOrder 1025 (D.asked classes.new) (D.read_names classes.old) (D.read_names classes.new) }
{
    let loaded = load_folder(alloc, dir, main, classes)?;
    let Loaded { count, judged } = loaded;
    match judged {
        Judged::Program(program) => Ok(verdict.answer(alloc, count, &program)?),
        Judged::Other(answer) => Ok(answer),
    }
}
