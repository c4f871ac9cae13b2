//! What files know, and of which federation cells are.

use code_words::CELL_START;
use known_bags::{DiskSources, KnownBag, SourceFault, SourceFiles, push_known};
use ledger::read_contents;
use standings::versions_in;
use std::alloc::AllocError;

/// So many bytes of a cell have its header, and more.
const FRONT: usize = 128;

/// What files know.
#[derive(Debug, Drop)]
pub(crate) struct Known {
    /// How many versions.
    pub(crate) versions: u64,
    /// The number of the federation of each cell among them.
    pub(crate) federations: Vec<u64>,
}

/// What the files of these paths know.
pub(crate) fn known_by(rt: &HostRuntime, paths: &[&str]) -> Result<Known, SourceFault> {
    let mut bags = Vec::new(rt.alloc());
    let mut federations = Vec::new(rt.alloc());
    for path in paths {
        if let Some(federation) = push_file(rt, &mut bags, path)? {
            federations
                .push(federation)
                .map_err(|_| SourceFault::Memory)?;
        }
    }
    match versions_in(rt.alloc(), bags.as_slice()) {
        Ok(count) => Ok(Known {
            versions: count as u64,
            federations,
        }),
        Err(AllocError) => Err(SourceFault::Memory),
    }
}

/// Appends the bags that the file of this path knows, and gives the number of its federation, if it
/// is a cell.
pub(crate) fn push_file(
    rt: &HostRuntime,
    bags: &mut Vec<KnownBag>,
    path: &str,
) -> Result<Option<u64>, SourceFault> {
    let bytes = DiskSources { rt }.source_bytes(path)?;
    push_known(rt.alloc(), bags, bytes.as_slice())?;
    match federation_of(rt, bytes.as_slice()) {
        Ok(federation) => Ok(federation),
        Err(AllocError) => Err(SourceFault::Memory),
    }
}

fn federation_of(rt: &HostRuntime, bytes: &[u8]) -> Result<Option<u64>, AllocError> {
    if !bytes.starts_with(CELL_START) {
        return Ok(None);
    }
    let front = bytes.get(..FRONT).unwrap_or(bytes);
    match read_contents(rt.alloc(), front)? {
        Some(contents) => Ok(Some(contents.owner.members.federation())),
        None => Ok(None),
    }
}
