//! What `--help` and `--version` print.

ghost use Rattle.std.specs.Prelude.{◌≡◌};
ghost use Rattle.file_answers.specs.Answers.{help_text, version_text};

/// What `--help` prints.
pub const HELP: &str = "jrev executes Java class files whose monitors can be revoked.

usage: jrev pick DIR MAIN [OPTION..]
       jrev run DIR MAIN [OPTION..]
       jrev trace DIR MAIN [OPTION..]
       jrev check DIR MAIN
       jrev load DIR MAIN
       jrev make
       jrev migrate
       jrev stress N
       jrev --help
       jrev --version

pick       loads the class files of the folder DIR and executes the class MAIN, a dot or a slash between the
           parts of its name, with its threads by turns on one processor, and prints its lines. A thread of
           higher priority takes a monitor back from a thread of lower priority, which then goes on from where
           it entered that monitor, unless what it did since then can't be undone any more.
run        does what pick does, with the threads of the program on several processors at once.
trace      executes a program as pick does and prints the journal of the run: a line for each operation of a
           thread that isn't undone, and one for each time that a thread undid some. docs/journal.md explains it.
check      reads a journal from the standard input and says whether it is one of an execution of the program.
           If it is, check prints the lines of that execution, and else the line of the journal that shows it.
load       says whether the class files of the folder DIR are accepted as a program that begins with the
           class MAIN: whether they are read, decoded, linked and verified. It executes nothing. The line
           refused: STAGE FILE NUMBER METHOD PLACE says what is wrong; docs/refusals.md explains it.
make       reads the text of an assembler from the standard input and writes the class file that it stands for.
migrate    reads a journal of either version from the standard input and writes it in version 2.
stress     makes a program of 2 to 16 threads from the number N, which count under one monitor, and executes
           it twice, by turns that N draws and on several processors. Each run prints first or second,
           then 8000, then 500 for each thread.
--help     prints this text.
--version  prints the version.

options of pick, run and trace, each at most once:
  --turns=N        the most turns of a thread (1000000000)
  --heap=N         the most words of objects (4194304)
  --sections=N     the most sections (4194304)
options of pick and trace alone:
  --order=ITEM,..  the turns that come first: 2*100 gives thread 2 one hundred turns. After the order
                   the first thread that can go on has the turn. 2@20 gives thread 2 turns up to its
                   next step of kind 20; docs/schedules.md has the kinds
  --seed=N         after the order a thread is drawn for each turn, by this number
options of run alone; docs/hosts.md says how to choose them:
  --workers=N      on how many processors at once, from 1 to 64 (4)
  --slice=N        the most turns that a thread has in a row, from 1 to 1000000 (10000)
option of pick and run alone:
  --counts         prints how many sections were opened, and how often a thread undid levels

examples: jrev pick classes Main
          jrev run classes Main --workers=2
          jrev pick classes Main --seed=7
          jrev trace classes Main --seed=7 | jrev check classes Main
          jrev load classes Main
          jrev make < one.jasm > One.new && mv One.new classes/One.class

exit status:
  0  the command did its work
  1  all threads of the program have ended, one or more by an exception that nothing caught
  2  no command has these words
  3  the program is not accepted
  4  no class in DIR is named MAIN, or it has no main method
  5  no thread of the program can go on
  6  the program reached a limit
  7  the folder or the standard input could not be read
  8  the output could not be written
  9  there was no memory
 10  the standard input is not the journal of an execution
 11  the assembler's text is refused at a line
";

/// What `--version` prints.
pub const VERSION: &str = "jrev 0.1.0
";

/// What the program does, with its words and its exit statuses.
#[tactic(auto, unfolding(crate::specs::Answers::help_text))]
pub fn help() -> &'static str
    ensures { result.now ≡ help_text }
{
    HELP
}

/// The program's name and version, a line.
#[tactic(auto, unfolding(crate::specs::Answers::version_text))]
pub fn version() -> &'static str
    ensures { result.now ≡ version_text }
{
    VERSION
}
