//! How a run of the tool ends.

ghost use Rattle.std.specs.Prelude.{◌≡◌};
ghost use Rattle.commands.specs.Commands.{exit_code};

/// How a run of the tool ends.
#[derive(Clone, Copy, Debug, PartialEq, Eq)]
pub enum Status {
    /// The command did what it was asked for.
    Done,
    /// The file was read and is not valid.
    Refused,
    /// The words are no command.
    Words,
    /// The file could not be read.
    ReadFault,
    /// The output could not be written.
    OutFault,
    /// The file to be written could not be written.
    TargetFault,
    /// A request for memory was refused.
    NoMemory,
    /// The file has more bytes than its limit.
    TooLong,
}

impl Status {
    /// The exit status of the program: 0 to 7, in the order above.
    pub fn code(self) -> u8
        ensures { result ≡ exit_code self }
    {
        match self {
            Status::Done => 0,
            Status::Refused => 1,
            Status::Words => 2,
            Status::ReadFault => 3,
            Status::OutFault => 4,
            Status::TargetFault => 5,
            Status::NoMemory => 6,
            Status::TooLong => 7,
        }
    }
}
