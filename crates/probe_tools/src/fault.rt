use bag_tree::TreeFault;
use fed_types::TypeFault;
use hex::FromHexError;
use std::alloc::AllocError;
use std::io;
use thiserror::Error;

/// Why a script has no answers, or a measure no figures.
#[derive(Clone, Copy, Debug, PartialEq, Eq, Error)]
pub enum ToolFault {
    /// A line that a script can't have, or that names what there isn't.
    #[error("a line that the script can't have")]
    Line,
    /// The clock couldn't be read.
    #[error("no clock")]
    Clock,
    /// An allocation failed.
    #[error("memory")]
    Memory,
    /// A call found no memory, and changed nothing.
    #[error("a call without memory")]
    Unchanged,
    /// A call that found no memory changed what a query, the records or the cell show, or found
    /// none again; or a call that is timed was refused.
    #[error("a wrong answer")]
    Wrong,
}

impl From<AllocError> for ToolFault {
    fn from(_e: AllocError) -> ToolFault {
        ToolFault::Memory
    }
}

impl From<io::Error> for ToolFault {
    fn from(_e: io::Error) -> ToolFault {
        ToolFault::Clock
    }
}

impl From<TypeFault> for ToolFault {
    fn from(_e: TypeFault) -> ToolFault {
        ToolFault::Line
    }
}

impl From<FromHexError> for ToolFault {
    fn from(e: FromHexError) -> ToolFault {
        match e {
            FromHexError::OutOfMemory => ToolFault::Memory,
            _ => ToolFault::Line,
        }
    }
}

impl From<TreeFault> for ToolFault {
    fn from(e: TreeFault) -> ToolFault {
        match e {
            TreeFault::Memory => ToolFault::Memory,
            _ => ToolFault::Line,
        }
    }
}
