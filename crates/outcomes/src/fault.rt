ghost use Rattle.std.specs.Prelude.{◌≡◌};
ghost use Rattle.outcomes.specs.Faults.{number_of};

use thiserror::Error;

/// Why a run of the program did not come to its end.
#[derive(Clone, Copy, Debug, PartialEq, Eq, Error)]
pub enum ProgramFault {
    /// A read failed, and nothing was written.
    #[error("input unread")]
    Input,
    /// A write failed, and a prefix of the text was written.
    #[error("output unwritten")]
    Output,
}

impl ProgramFault {
    /// The fault's number: 1 or 2.
    pub fn number(self) -> u8
        ensures { result ≡ number_of self }
    {
        match self {
            ProgramFault::Input => 1,
            ProgramFault::Output => 2,
        }
    }
}
