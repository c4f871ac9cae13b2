ghost use Rattle.std.specs.Prelude.{◌≡◌};

use crate::limits::{GREATEST_SITE, GREATEST_WEIGHT, LONGEST_OBJECT, MOST_MEMBERS};
use thiserror::Error;

/// Why a number or a name is out of range.
#[derive(Clone, Copy, Debug, PartialEq, Eq, Error)]
pub enum TypeFault {
    #[error("a federation has 1 to {most} members", most = MOST_MEMBERS)]
    BadCount,
    #[error("a site number is 1 to {greatest}", greatest = GREATEST_SITE)]
    BadSite,
    #[error("an object's name has 1 to {longest} bytes", longest = LONGEST_OBJECT)]
    BadObject,
    #[error("a version is at least 1")]
    ZeroVersion,
    #[error("a round is at least 1")]
    ZeroRound,
    #[error("a weight is 1 to {greatest}", greatest = GREATEST_WEIGHT)]
    BadWeight,
}

impl TypeFault {
    ghost use Rattle.fed_types.specs.Faults.{fault_number};

    /// The number of the fault, 1 to 6.
    pub fn number(self) -> u8
        ensures { result ≡ fault_number self }
    {
        match self {
            TypeFault::BadCount => 1,
            TypeFault::BadSite => 2,
            TypeFault::BadObject => 3,
            TypeFault::ZeroVersion => 4,
            TypeFault::ZeroRound => 5,
            TypeFault::BadWeight => 6,
        }
    }
}
