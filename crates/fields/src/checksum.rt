//! The checksum that follows a message's fields. No call takes memory except for the bytes that it
//! appends.

ghost use Rattle.std.specs.Prelude.{◌≡◌, ◌≤◌, vec_len, drop, option_map};
ghost use Rattle.fields.specs.Checksums.{checksum, without_checksum};
ghost use Rattle.fields.specs.Puts.{Puts};

use sha2::{Digest, Sha256};
use std::alloc::AllocError;

/// The bytes of a checksum.
pub const CHECKSUM_BYTES: usize = 8;

// The first bytes of the SHA-256 (FIPS 180-4) of the bytes.
#[tactic(auto, unfolding(crate::specs::Checksums::checksum))]
fn checksum(bytes: &[u8]) -> [u8; CHECKSUM_BYTES]
    ensures { result ≡ checksum bytes.now }
{
    let [a, b, c, d, e, f, g, h, ..] = Sha256::digest(bytes);
    [a, b, c, d, e, f, g, h]
}

/// Appends the checksum of the items from this place on. `Puts` says what a failed call leaves.
pub fn put_checksum(out: &mut Vec<u8>, from: usize) -> Result<(), AllocError>
    requires { from ≤ vec_len out.old }
    ensures { Puts result out.old out.new (checksum (drop from out.old.items)) }
{
    let sum = checksum(&out[from..]);
    out.extend_from_slice(&sum)
}

/// The bytes before the last `CHECKSUM_BYTES`, if these are their checksum.
#[tactic(auto, unfolding(crate::specs::Checksums::without_checksum))]
pub fn without_checksum(bytes: &[u8]) -> Option<&[u8]>
    ensures { option_map (λ x. x.now) result ≡ without_checksum bytes.now }
{
    if bytes.len() < CHECKSUM_BYTES {
        return None;
    }
    let (front, sum) = bytes.split_at(bytes.len() - CHECKSUM_BYTES);
    if sum != checksum(front).as_slice() {
        return None;
    }
    Some(front)
}
