//! What the words of the command line ask for.

use op_core::Limits;
use rows::Text;
use schedules::Schedule;

/// A command over the class files of a folder.
#[derive(Clone, Copy)]
pub(crate) enum ProgramCommand {
    Pick,
    Trace,
    Run,
    Check,
    Load,
}

/// What the words ask for. `dir` is the folder of the class files, and `main` the main class's name, a slash between its
/// parts.
#[derive(Drop)]
pub enum Request {
    /// Executes a program on one host thread, by a schedule, and prints its lines.
    Pick {
        dir: Text,
        main: Text,
        limits: Limits,
        schedule: Schedule,
        /// Whether the sections that were opened and undone are counted.
        counts: bool,
    },
    /// Does the same, and prints the journal.
    Trace {
        dir: Text,
        main: Text,
        limits: Limits,
        schedule: Schedule,
    },
    /// Executes a program on several host threads, and prints its lines.
    Run {
        dir: Text,
        main: Text,
        limits: Limits,
        /// How many host threads, from 1 to 64.
        workers: u32,
        /// How many turns of a thread a host thread makes in a row, from 1 to 1,000,000.
        slice: u32,
        counts: bool,
    },
    /// Says whether the journal on the standard input is one of an execution of the program.
    Check {
        dir: Text,
        main: Text,
    },
    /// Says whether the program of a folder is accepted.
    Load {
        dir: Text,
        main: Text,
    },
    /// Makes a class file of the text on the standard input.
    Make,
    /// Writes the journal on the standard input in the newest version.
    Migrate,
    /// Executes the program that a number stands for, twice.
    Stress {
        number: u64,
    },
    /// Says what the program does.
    Help,
    /// Says which version it is.
    Version,
}
