//! How a run of the program ended, and the exit status for it.

ghost use Rattle.std.specs.Prelude.{◌≡◌};
ghost use Rattle.program_answers.specs.Status.{number_of};

/// How a run of the program ended.
#[derive(Clone, Copy)]
pub enum Status {
    /// The command did its work.
    Done,
    /// A thread ended by an exception that nothing caught.
    Died,
    /// The words ask for nothing that there is.
    Usage,
    /// A class file wasn't accepted.
    Refused,
    /// The named class isn't there, or has no main method.
    NoMain,
    /// Some thread hasn't ended, and none can go on.
    Stuck,
    /// A counted quantity reached its number.
    Limit,
    /// The folder or the input failed.
    ReadFault,
    /// The standard output or the standard error failed.
    WriteFault,
    /// There was no memory.
    Memory,
    /// The journal is no execution from this line on.
    NotExecution(u32),
    /// The assembler text is refused at this line.
    MakeRefused(u32),
}

impl Status {
    /// The exit status of the process.
    pub fn number(&self) -> u8
        ensures { result ≡ number_of self.now }
    {
        match self {
            Status::Done => 0,
            Status::Died => 1,
            Status::Usage => 2,
            Status::Refused => 3,
            Status::NoMain => 4,
            Status::Stuck => 5,
            Status::Limit => 6,
            Status::ReadFault => 7,
            Status::WriteFault => 8,
            Status::Memory => 9,
            Status::NotExecution(_) => 10,
            Status::MakeRefused(_) => 11,
        }
    }
}
