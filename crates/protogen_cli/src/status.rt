ghost use Rattle.std.specs.Prelude.{◌≡◌};
ghost use Rattle.std.specs.Process.{exit_status};
ghost use Rattle.protogen_cli.specs.Statuses.{exit_code};

use pg_perm::Fault;
use std::process::ExitCode;

/// How a call ended.
#[derive(Clone, Copy, Debug, PartialEq, Eq)]
pub enum Status {
    /// What the words ask for was done and written.
    Done,
    /// The first line of the text that breaks a rule, and the first rule that it breaks.
    Text(Fault),
    /// The words are not those of a command.
    Usage,
    /// The input could not be read to its end. Nothing was written.
    ReadFault,
    /// The output could not be written to its end.
    WriteFault,
    /// Memory has run out. Nothing was written.
    Memory,
    /// The input has more than 1,048,576 bytes.
    TooLong,
    /// The first line of the script that breaks a rule, and the first rule that it breaks.
    Script(Fault),
}

impl Status {
    /// What the program ends with. Its exit status is the number of this status.
    pub fn exit_code(&self) -> ExitCode
        ensures { exit_status result ≡ exit_code self.now }
    {
        ExitCode::from(self.code())
    }

    /// The exit status of the program, from 0 to 7.
    pub fn code(&self) -> u8
        ensures { result ≡ exit_code self.now }
    {
        match self {
            Status::Done => 0,
            Status::Text(_) => 1,
            Status::Usage => 2,
            Status::ReadFault => 3,
            Status::WriteFault => 4,
            Status::Memory => 5,
            Status::TooLong => 6,
            Status::Script(_) => 7,
        }
    }
}
