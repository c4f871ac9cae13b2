//! The bytes that say how many bytes of a cell are synced.

ghost use Rattle.std.specs.Prelude.{◌≡◌, ◌↔◌, ◌<◌, ◌^◌, ℕ, OnOk, Some};
ghost use Rattle.std.specs.Int.{w64, to_be_bytes};
ghost use Rattle.cell_file.specs.SyncedTexts.{synced_text};

use fields::{CHECKSUM_BYTES, put_checksum, without_checksum};
use std::alloc::AllocError;
use std::fs::File;
use std::io;
use std::os::unix::fs::FileExt;

/// The bytes of the length, a number of 64 bits.
const LENGTH_BYTES: usize = 8;

/// How many bytes say a length.
pub(crate) const SYNCED_BYTES: usize = LENGTH_BYTES + CHECKSUM_BYTES;

/// Makes these the bytes that say a length. If they have room for it, no memory is needed.
pub(crate) fn put_synced(out: &mut Vec<u8>, length: u64) -> Result<(), AllocError>
    ensures { OnOk result (out.new.items ≡ synced_text length) }
{
    out.clear();
    out.extend_from_slice(&length.to_be_bytes())?;
    put_checksum(out, 0)
}

/// The length that these bytes say, if they say one.
pub(crate) fn synced_in(bytes: &[u8]) -> Option<u64>
    ensures { (length : ℕ) → length < 2 ^ 64
        → (result ≡ Some length) ↔ (bytes.now ≡ synced_text length) }
{
    match without_checksum(bytes) {
        Some(front) => length_in(front),
        None => None,
    }
}

// The number that these bytes are, if they are as many as a length has.
fn length_in(bytes: &[u8]) -> Option<u64>
    ensures { (length : ℕ) → length < 2 ^ 64
        → (result ≡ Some length) ↔ (bytes.now ≡ to_be_bytes w64 length) }
{
    match bytes {
        [a, b, c, d, e, f, g, h] => Some(u64::from_be_bytes([*a, *b, *c, *d, *e, *f, *g, *h])),
        _ => None,
    }
}

/// The length that a file says, if it has such bytes and no more.
pub(crate) fn synced_by(file: &File) -> io::Result<Option<u64>> {
    let mut text = [0u8; SYNCED_BYTES + 1];
    let count = file.read_at(&mut text, 0)?;
    Ok(text.get(..count).and_then(synced_in))
}
