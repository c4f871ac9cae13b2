use book::{CommitFault, OpenFault};
use cell_device::CellFault;
use cell_file::Unopened;
use dgram::DgramFault;
use fed_types::TypeFault;
use hex::FromHexError;
use probe_tools::ToolFault;
use schedule::ParseFault;
use std::alloc::AllocError;
use std::io;
use thiserror::Error;

/// Why the program has no answer.
#[derive(Clone, Copy, Debug, PartialEq, Eq, Error)]
pub enum Fault {
    /// The arguments are not those of a task.
    #[error("tasks: encode|decode|decide|arrive N, file|commit|turns PATH SITE, bench|fill PATH N, open PATH, memory, deciding, serving, sites, sites-once, schedule")]
    Arguments,
    /// A line is no comment, no federation with the hex digits of a datagram, and no site with
    /// those of a cell, with or without weights and a call that fails.
    #[error("a line that is neither FEDERATION HEX nor SITE WEIGHT .. | fail|stop CALL KEPT | HEX")]
    Line,
    /// A script, a schedule or a list of turns has a line that it can't have.
    #[error("a line that no script and no schedule has")]
    Script,
    /// A line asks for no turn.
    #[error("a line that is neither commit nor open")]
    Turn,
    /// Standard input, the arguments or the clock couldn't be read, or standard output not written.
    #[error("input unread")]
    Input,
    /// There is no cell at a path, or its device failed.
    #[error("Device")]
    Device,
    /// The cell holds no journal of the site.
    #[error("{0:?}")]
    Refused(OpenFault),
    /// An allocation failed.
    #[error("memory")]
    Memory,
    /// An allocation failed in a call of a site, which changed nothing.
    #[error("a call without memory")]
    Unchanged,
    /// A call answered what it must not: it refused what is in range, wrote other bytes, or didn't
    /// leave what it was refused to change.
    #[error("a wrong answer")]
    Wrong,
}

impl From<AllocError> for Fault {
    fn from(_e: AllocError) -> Fault {
        Fault::Memory
    }
}

impl From<io::Error> for Fault {
    fn from(e: io::Error) -> Fault {
        if e.kind() == io::ErrorKind::OutOfMemory {
            Fault::Memory
        } else {
            Fault::Input
        }
    }
}

impl From<FromHexError> for Fault {
    fn from(e: FromHexError) -> Fault {
        match e {
            FromHexError::OutOfMemory => Fault::Memory,
            _ => Fault::Line,
        }
    }
}

impl From<TypeFault> for Fault {
    fn from(_e: TypeFault) -> Fault {
        Fault::Wrong
    }
}

impl From<DgramFault> for Fault {
    fn from(e: DgramFault) -> Fault {
        match e {
            DgramFault::Memory => Fault::Memory,
            DgramFault::NotOurs | DgramFault::Malformed => Fault::Wrong,
        }
    }
}

impl From<Unopened> for Fault {
    fn from(e: Unopened) -> Fault {
        match e {
            Unopened::InUse | Unopened::Device => Fault::Device,
            Unopened::Memory => Fault::Memory,
        }
    }
}

impl From<CellFault> for Fault {
    fn from(e: CellFault) -> Fault {
        match e {
            CellFault::Device => Fault::Device,
            CellFault::Memory => Fault::Memory,
        }
    }
}

impl From<OpenFault> for Fault {
    fn from(e: OpenFault) -> Fault {
        match e {
            OpenFault::Device => Fault::Device,
            OpenFault::Memory => Fault::Memory,
            fault => Fault::Refused(fault),
        }
    }
}

impl From<ParseFault> for Fault {
    fn from(e: ParseFault) -> Fault {
        match e {
            ParseFault::Line(_) => Fault::Script,
            ParseFault::Memory => Fault::Memory,
        }
    }
}

impl From<ToolFault> for Fault {
    fn from(e: ToolFault) -> Fault {
        match e {
            ToolFault::Line => Fault::Script,
            ToolFault::Clock => Fault::Input,
            ToolFault::Memory => Fault::Memory,
            ToolFault::Unchanged => Fault::Unchanged,
            ToolFault::Wrong => Fault::Wrong,
        }
    }
}

impl From<CommitFault> for Fault {
    fn from(e: CommitFault) -> Fault {
        match e {
            CommitFault::Device => Fault::Device,
            CommitFault::Memory => Fault::Memory,
            CommitFault::NeedsOpen => Fault::Wrong,
        }
    }
}
