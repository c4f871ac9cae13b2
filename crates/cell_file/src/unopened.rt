use std::fs::TryLockError;
use std::io::{self, ErrorKind};
use thiserror::Error;

/// Why the cell in a file can't be had.
#[derive(Clone, Copy, Debug, PartialEq, Eq, Error)]
pub enum Unopened {
    /// Another process has it open: a site, or a reader that keeps sites out while it reads.
    #[error("another process has the cell open")]
    InUse,
    /// It isn't a file, it isn't there, or the system refuses it.
    #[error("the cell's file can't be opened")]
    Device,
    /// Out of memory.
    #[error("out of memory")]
    Memory,
}

/// What an error of the system says of it.
pub(crate) fn unopened_by(error: &io::Error) -> Unopened {
    if error.kind() == ErrorKind::OutOfMemory {
        Unopened::Memory
    } else {
        Unopened::Device
    }
}

/// What a lock that can't be had says of it.
pub(crate) fn unlocked_by(error: &TryLockError) -> Unopened {
    match error {
        TryLockError::WouldBlock => Unopened::InUse,
        TryLockError::Error(error) => unopened_by(error),
    }
}
