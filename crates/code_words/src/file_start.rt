//! How files begin and are called, and what the first bytes of one are.

use std::fs::File;
use std::io::{ErrorKind, Read};

/// What a cell begins with.
pub const CELL_START: &[u8] = b"BPJ";

/// A byte order mark, as some editors put it before a text.
pub const MARK: &[u8] = b"\xef\xbb\xbf";

/// What the name of the file beside a cell has after the cell's.
pub const SYNCED: &str = ".synced";

/// How many bytes of a file are looked at.
const MOST: usize = 65536;

/// The first bytes of the file of this path; none where it can't be read. Of a pipe they are gone
/// then, and a pipe with a name may have to be waited for: look first.
pub fn first_bytes(rt: &HostRuntime, path: &str) -> Vec<u8> {
    let mut bytes = Vec::new(rt.alloc());
    if let Ok(mut file) = File::open(rt, path) {
        let mut piece = [0u8; 4096];
        for _ in 0..MOST / 4096 {
            match file.read(&mut piece) {
                Ok(count) if count > 0 => {
                    if bytes.extend_from_slice(&piece[..count]).is_err() {
                        break;
                    }
                }
                Err(error) if error.kind() == ErrorKind::Interrupted => {}
                _ => break,
            }
        }
    }
    bytes
}
