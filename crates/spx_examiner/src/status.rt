// How the program ends.
ghost use Rattle.std.specs.Prelude.{◌≡◌};
ghost use Rattle.spx_examiner.specs.Codes.{code_of};

/// How the program ended.
#[derive(Clone, Copy, Debug, PartialEq, Eq)]
pub enum Status {
    /// There is no finding, the conditions are printed, or the run ended.
    Accepted,
    /// There are findings.
    Refused,
    /// The words have the form of no command.
    Usage,
    /// A file could not be loaded.
    ReadFault,
    /// The text could not be written whole.
    WriteFault,
    NoMemory,
    /// A counted quantity passes its greatest number.
    Limit,
    /// A check of the run fails.
    RunFault,
    /// The run does not end within its turns.
    NotEnded,
}

impl Status {
    /// The number with which the process ends.
    pub fn code(self) -> u8
        ensures { result ≡ code_of self }
    {
        match self {
            Status::Accepted => 0,
            Status::Refused => 1,
            Status::Usage => 2,
            Status::ReadFault => 3,
            Status::WriteFault => 4,
            Status::NoMemory => 5,
            Status::Limit => 6,
            Status::RunFault => 7,
            Status::NotEnded => 8,
        }
    }
}
