//! Lists of folders: a name a line, or names that end by NUL.

ghost use Rattle.std.specs.Prelude.{◌≡◌, ◌<◌, map, length, IfOk};
ghost use Rattle.folder_checks.specs.Names.{names_of, without_end};

use outcomes::{ReadFault, read_all};
use std::alloc::{AllocError, Global};
use std::fs::File;
use std::io::ErrorKind;

/// A file that names folders.
#[derive(Clone, Copy, Debug)]
pub struct FolderList<'a> {
    /// Its path, or `-` for standard input.
    pub path: &'a str,
    /// The byte that ends each name.
    pub end: u8,
}

/// The list's bytes. A pipe is read to its end.
pub(crate) fn list_bytes(rt: &HostRuntime, list: FolderList<'_>) -> Result<Vec<u8>, ReadFault> {
    if list.path == "-" {
        return read_all(rt.alloc(), &mut rt.reader());
    }
    match File::open(rt, list.path) {
        Ok(mut file) => read_all(rt.alloc(), &mut file),
        Err(error) if error.kind() == ErrorKind::OutOfMemory => Err(ReadFault::Memory),
        Err(_) => Err(ReadFault::Input),
    }
}

/// The names in the bytes of a list: this byte ends each, and may be left out after the last.
pub fn names_in(alloc: Global, bytes: &[u8], end: u8) -> Result<Vec<&[u8]>, AllocError>
    ensures { IfOk result
        (λ names. map (λ name. name.now) names.items ≡ names_of end bytes.now) }
{
    if bytes.is_empty() {
        return Ok(Vec::new(alloc));
    }
    without_end(bytes, end).split(|b| *b == end).collect(alloc)
}

// The bytes without this one at their end, if it is there.
fn without_end(bytes: &[u8], end: u8) -> &[u8]
    requires { 0 < length bytes.now }
    ensures { result.now ≡ without_end end bytes.now }
{
    let last = bytes.len() - 1;
    if bytes[last] == end {
        &bytes[..last]
    } else {
        bytes
    }
}
