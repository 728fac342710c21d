//! The words of the command line.

ghost use Rattle.std.specs.Prelude.{◌≡◌, ◌≤◌, ℕ, List, None, Some, IfOk, IfSome, map, string_bytes};
ghost use Rattle.std.specs.List.{All, list_all};
ghost use Rattle.std.specs.Option.{option_and_then};
ghost use Rattle.command_words.specs.Grammar as grammar;
ghost use Rattle.command_words.specs.Options as options;

use crate::given::{are_different, counts_given, limits_of, number_given, options_of, schedule_of};
use crate::options::{CommandOption, NumberOption};
use crate::request::{ProgramCommand, Request};
use decimal_numbers::number_up_to;
use rows::Text;
use std::alloc::{AllocError, AllocFailed, Global};

/// Why there is no request.
#[derive(Clone, Copy)]
pub enum WordsRefusal {
    /// No command has these words.
    Usage,
    /// There was no memory.
    NoMemory,
}

impl From<AllocError> for WordsRefusal {
    ghost use Rattle.command_words.specs.declared.words.WordsRefusal.TheVariants.{NoMemory};
    ghost use Rattle.std.specs.Prelude.{◌≡◌};

    ghost from_gives = { λ _ refusal. refusal ≡ NoMemory };

    fn from(_error: AllocError) -> Self {
        WordsRefusal::NoMemory
    }
}

impl<T: Drop> From<AllocFailed<T>> for WordsRefusal {
    ghost use Rattle.command_words.specs.declared.words.WordsRefusal.TheVariants.{NoMemory};
    ghost use Rattle.std.specs.Prelude.{◌≡◌};

    ghost from_gives = { λ _ refusal. refusal ≡ NoMemory };

    fn from(_error: AllocFailed<T>) -> Self {
        WordsRefusal::NoMemory
    }
}

// Whether a word is no option.
fn is_positional(word: &[u8]) -> bool
    ensures { result ≡ grammar.is_positional word.now }
{
    !matches!(word, [] | [b'-', b'-', ..])
}

fn slashed(alloc: Global, name: &[u8]) -> Result<Vec<u8>, AllocError>
    ensures { IfOk result (λ main. main.items ≡ grammar.with_slashes name.now) }
{
    name.iter()
        .map(|b| if *b == b'.' { b'/' } else { *b })
        .collect(alloc)
}

// A class's name with slashes for its dots.
fn with_slashes(alloc: Global, name: &str) -> Result<Text, AllocError>
    ensures { IfOk result (λ main. main ≡ grammar.with_slashes name.now) }
{
    let main = slashed(alloc, name.as_bytes())?;
    let text = String::from_utf8_lossy(alloc, main.as_slice())?;
    Ok(Text::from_string(text))
}

fn command_named(word: &[u8]) -> Option<ProgramCommand>
    ensures { result ≡ grammar.command_named word.now }
{
    if word == b"pick".as_slice() {
        Some(ProgramCommand::Pick)
    } else if word == b"trace".as_slice() {
        Some(ProgramCommand::Trace)
    } else if word == b"run".as_slice() {
        Some(ProgramCommand::Run)
    } else if word == b"check".as_slice() {
        Some(ProgramCommand::Check)
    } else if word == b"load".as_slice() {
        Some(ProgramCommand::Load)
    } else {
        None
    }
}

fn is_of_schedule(option: &CommandOption) -> bool
    ensures { result ≡ grammar.is_of_schedule option.now }
{
    matches!(
        option,
        CommandOption::Order(_) | CommandOption::Number(NumberOption::Seed, _)
    )
}

fn is_of_hosts(option: &CommandOption) -> bool
    ensures { result ≡ grammar.is_of_hosts option.now }
{
    matches!(
        option,
        CommandOption::Number(NumberOption::Workers | NumberOption::Slice, _)
    )
}

fn takes(command: ProgramCommand, option: &CommandOption) -> bool
    ensures { result ≡ grammar.takes command option.now }
{
    match command {
        ProgramCommand::Pick => !is_of_hosts(option),
        ProgramCommand::Trace => !is_of_hosts(option) && !option.is_counts(),
        ProgramCommand::Run => !is_of_schedule(option),
        ProgramCommand::Check | ProgramCommand::Load => false,
    }
}

fn takes_all(command: ProgramCommand, given: &[CommandOption]) -> bool
    ensures { result ≡ list_all (grammar.takes command) given.now }
{
    given.iter().all(|option| takes(command, option))
}

// The options of a command.
fn options_for(
    alloc: Global,
    command: ProgramCommand,
    written: &[String],
) -> Result<Vec<CommandOption>, WordsRefusal>
    ensures found { IfOk result (λ given. option_and_then (grammar.options_for command) (options.each_of options.option_of (map string_bytes written.now)) ≡ Some given.items) }
    ensures ranges { IfOk result (λ given. All options.IsInRange given.items) }
    ensures usage { result ≡ Err WordsRefusal.Usage → option_and_then (grammar.options_for command) (options.each_of options.option_of (map string_bytes written.now)) ≡ None }
{
    let given = options_of(alloc, written)?;
    if !takes_all(command, given.as_slice()) || !are_different(given.as_slice()) {
        return Err(WordsRefusal::Usage);
    }
    Ok(given)
}

// What a command asks for with its options.
fn request_for(
    alloc: Global,
    command: ProgramCommand,
    dir: Text,
    main: Text,
    given: &[CommandOption],
) -> Result<Request, AllocError>
    requires { All options.IsInRange given.now }
    ensures value { IfOk result (λ request. request ≡ grammar.request_for command dir main given.now) }
    ensures limits { IfOk result grammar.HasLimits }
{
    let limits = limits_of(given);
    match command {
        ProgramCommand::Pick => Ok(Request::Pick {
            dir,
            main,
            limits,
            schedule: schedule_of(alloc, given)?,
            counts: counts_given(given),
        }),
        ProgramCommand::Trace => Ok(Request::Trace {
            dir,
            main,
            limits,
            schedule: schedule_of(alloc, given)?,
        }),
        ProgramCommand::Run => Ok(Request::Run {
            dir,
            main,
            limits,
            workers: number_given(NumberOption::Workers, given).unwrap_or(4) as u32,
            slice: number_given(NumberOption::Slice, given).unwrap_or(10_000) as u32,
            counts: counts_given(given),
        }),
        ProgramCommand::Check => Ok(Request::Check { dir, main }),
        ProgramCommand::Load => Ok(Request::Load { dir, main }),
    }
}

// What a command with a folder, a class and options asks for.
fn command_request(
    alloc: Global,
    command: ProgramCommand,
    dir: &String,
    name: &String,
    written: &[String],
) -> Result<Request, WordsRefusal>
    ensures found { IfOk result (λ request. grammar.command_request command (string_bytes dir.now) (string_bytes name.now) (map string_bytes written.now) ≡ Some request) }
    ensures limits { IfOk result grammar.HasLimits }
    ensures usage { result ≡ Err WordsRefusal.Usage → grammar.command_request command (string_bytes dir.now) (string_bytes name.now) (map string_bytes written.now) ≡ None }
{
    let given = options_for(alloc, command, written)?;
    let dir = Text::copy_of(alloc, dir.as_str())?;
    let main = with_slashes(alloc, name.as_str())?;
    let request = request_for(alloc, command, dir, main, given.as_slice())?;
    Ok(request)
}

// COMMAND DIR MAIN OPTION ..
fn program_request(
    alloc: Global,
    word: &String,
    dir: &String,
    name: &String,
    written: &[String],
) -> Result<Request, WordsRefusal>
    ensures found { IfOk result (λ request. grammar.program_request (string_bytes word.now) (string_bytes dir.now) (string_bytes name.now) (map string_bytes written.now) ≡ Some request) }
    ensures limits { IfOk result grammar.HasLimits }
    ensures usage { result ≡ Err WordsRefusal.Usage → grammar.program_request (string_bytes word.now) (string_bytes dir.now) (string_bytes name.now) (map string_bytes written.now) ≡ None }
{
    if !is_positional(dir.as_bytes()) || !is_positional(name.as_bytes()) {
        return Err(WordsRefusal::Usage);
    }
    match command_named(word.as_bytes()) {
        Some(command) => command_request(alloc, command, dir, name, written),
        None => Err(WordsRefusal::Usage),
    }
}

fn lone_request(word: &[u8]) -> Option<Request>
    ensures value { result ≡ grammar.lone_request word.now }
    ensures limits { IfSome result grammar.HasLimits }
{
    if word == b"make".as_slice() {
        Some(Request::Make)
    } else if word == b"migrate".as_slice() {
        Some(Request::Migrate)
    } else if word == b"--help".as_slice() {
        Some(Request::Help)
    } else if word == b"--version".as_slice() {
        Some(Request::Version)
    } else {
        None
    }
}

fn stress_request(word: &[u8], number: &[u8]) -> Option<Request>
    ensures value { result ≡ grammar.stress_request word.now number.now }
    ensures limits { IfSome result grammar.HasLimits }
{
    if word != b"stress".as_slice() {
        return None;
    }
    let number = number_up_to(u64::MAX, number)?;
    Some(Request::Stress { number })
}

/// What the words of the command line, without the program's name, ask for. Limits are in the ranges of their options.
///
/// # Errors
/// `Usage` exactly where no command has these words. `NoMemory` may come anywhere.
pub fn words_of(alloc: Global, words: &[String]) -> Result<Request, WordsRefusal>
    ensures found { IfOk result (λ request. grammar.request_of (map string_bytes words.now) ≡ Some request) }
    ensures limits { IfOk result grammar.HasLimits }
    ensures usage { result ≡ Err WordsRefusal.Usage → grammar.request_of (map string_bytes words.now) ≡ None }
{
    match words {
        [] => Err(WordsRefusal::Usage),
        [word] => lone_request(word.as_bytes()).ok_or(WordsRefusal::Usage),
        [word, number] => {
            stress_request(word.as_bytes(), number.as_bytes()).ok_or(WordsRefusal::Usage)
        }
        [word, dir, name, written @ ..] => program_request(alloc, word, dir, name, written),
    }
}
