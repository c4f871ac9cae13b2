//! The file beside a cell.

ghost use Rattle.std.specs.Prelude.{◌≡◌, string_bytes, IfOk};
ghost use Rattle.cell_file.specs.SyncedTexts.{path_beside};

use std::alloc::{AllocError, Global};
use std::fs;
use std::io::{self, ErrorKind};
use system_files::FileId;

/// The path of the file in which the site of the cell of this path says how much is synced.
pub fn path_beside(alloc: Global, path: &str) -> Result<String, AllocError>
    ensures { IfOk result (λ beside. string_bytes beside ≡ path_beside path.now) }
{
    let mut beside = String::from_str(alloc, path)?;
    beside.push_str(".synced")?;
    Ok(beside)
}

/// The file of this path, if one is there. A link is refused, so nothing is made where a link leads
/// to no file; and so is anything else that isn't a file.
pub(crate) fn file_seen_at(rt: &HostRuntime, path: &str) -> io::Result<Option<FileId>> {
    match fs::symlink_metadata(rt, path) {
        Ok(there) if !there.is_file() => Err(ErrorKind::InvalidInput.into()),
        Ok(there) => Ok(Some(FileId::of(&there))),
        Err(error) if error.kind() == ErrorKind::NotFound => Ok(None),
        Err(error) => Err(error),
    }
}
