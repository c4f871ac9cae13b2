//! What a site says beside its cell, as others read it.

use crate::beside::{file_seen_at, path_beside};
use crate::synced_text::synced_by;
use std::alloc::AllocError;
use std::fs::{File, TryLockError};
use std::io;
use system_files::expect_same;

/// How many of its first bytes are synced of the cell in the file of this path, by what the site
/// says that has it open. `None` if no site says so now: what an earlier one left isn't believed,
/// since the cell may have been replaced meanwhile. It fails only if memory runs out.
pub fn synced_length(rt: &HostRuntime, path: &str) -> Result<Option<u64>, AllocError> {
    let beside = path_beside(rt.alloc(), path)?;
    Ok(length_at(rt, beside.as_str()).unwrap_or(None))
}

// The length that the file of this path says, if a site holds its lock.
fn length_at(rt: &HostRuntime, path: &str) -> io::Result<Option<u64>> {
    let seen = file_seen_at(rt, path)?;
    let file = File::open(rt, path)?;
    expect_same(seen, &file)?;
    // The lock is asked for first: whoever holds it has written before it was taken.
    match file.try_lock_shared() {
        Ok(()) => Ok(None),
        Err(TryLockError::WouldBlock) => synced_by(&file),
        Err(TryLockError::Error(error)) => Err(error),
    }
}
