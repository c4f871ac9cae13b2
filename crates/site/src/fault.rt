ghost use Rattle.std.specs.Prelude.{◌≡◌};
ghost use Rattle.site.specs.Faults.{number_of};

use bag_check::BagFault;
use book::CommitFault;
use fed_types::BagId;
use proposer::ProposeFault;
use std::alloc::AllocError;
use thiserror::Error;

/// Why a site refused a call. After `Device` the site needs opening; after any other fault it is as
/// it was.
#[derive(Clone, Copy, Debug, PartialEq, Eq, Error)]
pub enum SiteFault {
    /// The tree is no valid bag, for this fault, which isn't `Memory`.
    #[error("no valid bag: {0}")]
    InvalidBag(BagFault),
    /// The site's own deposit for the slot is a different bag: this one.
    #[error("another bag was deposited")]
    OtherDeposit(BagId),
    /// A different bag is known for the slot: this one.
    #[error("another bag is known")]
    OtherKnown(BagId),
    /// The cell's device failed.
    #[error("the cell's device failed")]
    Device,
    /// An allocation failed.
    #[error("out of memory")]
    Memory,
    /// The site needs opening.
    #[error("the site needs opening")]
    NeedsOpen,
    /// The site has no deposit for the slot.
    #[error("there is no deposit for the slot")]
    NoDeposit,
    /// No round is left for the slot.
    #[error("no round is left for the slot")]
    RoundsSpent,
    /// A bag is known for the slot.
    #[error("a bag is known for the slot")]
    AlreadyKnown,
    /// The site has neither a vote nor a deposit for the slot.
    #[error("there is neither a vote nor a deposit for the slot")]
    NothingToRecover,
}

impl SiteFault {
    /// The number of the fault in what the program prints and sends, 10 to 19.
    pub fn number(self) -> u8
        ensures { result ≡ number_of self }
    {
        match self {
            SiteFault::InvalidBag(_) => 10,
            SiteFault::OtherDeposit(_) => 11,
            SiteFault::OtherKnown(_) => 12,
            SiteFault::Device => 13,
            SiteFault::Memory => 14,
            SiteFault::NeedsOpen => 15,
            SiteFault::NoDeposit => 16,
            SiteFault::RoundsSpent => 17,
            SiteFault::AlreadyKnown => 18,
            SiteFault::NothingToRecover => 19,
        }
    }
}

impl From<BagFault> for SiteFault {
    ghost use Rattle.site.specs.Faults.{check_fault};

    ghost from_gives = { λ fault e. e ≡ check_fault fault };

    fn from(fault: BagFault) -> SiteFault {
        match fault {
            BagFault::Memory => SiteFault::Memory,
            fault => SiteFault::InvalidBag(fault),
        }
    }
}

impl From<CommitFault> for SiteFault {
    ghost use Rattle.site.specs.Faults.{commit_fault};

    ghost from_gives = { λ fault e. e ≡ commit_fault fault };

    fn from(fault: CommitFault) -> SiteFault {
        match fault {
            CommitFault::Device => SiteFault::Device,
            CommitFault::Memory => SiteFault::Memory,
            CommitFault::NeedsOpen => SiteFault::NeedsOpen,
        }
    }
}

impl From<ProposeFault> for SiteFault {
    ghost use Rattle.site.specs.Faults.{propose_fault};

    ghost from_gives = { λ fault e. e ≡ propose_fault fault };

    fn from(fault: ProposeFault) -> SiteFault {
        match fault {
            ProposeFault::RoundsSpent => SiteFault::RoundsSpent,
            ProposeFault::Memory => SiteFault::Memory,
        }
    }
}

impl From<AllocError> for SiteFault {
    ghost use Rattle.site.specs.declared.fault.SiteFault.TheVariants.{Memory};

    ghost from_gives = { λ _ e. e ≡ Memory };

    fn from(_e: AllocError) -> SiteFault {
        SiteFault::Memory
    }
}
