ghost use Rattle.std.specs.Prelude.{◌≡◌};
ghost use Rattle.std.specs.Process.{exit_status};
ghost use Rattle.prairie_top.specs.Statuses.{number};

use std::process::ExitCode;

/// How a run ends.
#[derive(Clone, Copy, PartialEq, Eq)]
pub enum Status {
    /// A plan was put whole.
    Done,
    /// The words are none that the program knows.
    Usage,
    /// The rules, the catalog or the query are refused.
    Refused,
    /// No plan implements the query.
    NoPlan,
    /// A limit was reached.
    Limit,
    /// Equal trees have different views.
    Disagree,
    /// A tree equals a proper part of itself.
    Loop,
    /// A text could not be read.
    ReadFault,
    /// The answer could not be put whole.
    WriteFault,
    /// There was not enough memory.
    Memory,
    /// The certificate does not certify.
    CertRefused,
}

impl Status {
    /// The program's exit status, from 0 to 10.
    pub fn number(self) -> u8
        ensures { result ≡ number self }
    {
        match self {
            Status::Done => 0,
            Status::Usage => 1,
            Status::Refused => 2,
            Status::NoPlan => 3,
            Status::Limit => 4,
            Status::Disagree => 5,
            Status::Loop => 6,
            Status::ReadFault => 7,
            Status::WriteFault => 8,
            Status::Memory => 9,
            Status::CertRefused => 10,
        }
    }

    /// The program's exit status, for its `main` to end with.
    pub fn exit_code(self) -> ExitCode
        ensures { exit_status result ≡ number self }
    {
        ExitCode::from(self.number())
    }
}
