//! A key as one block of the hash function.

ghost use Rattle.std.specs.Prelude.{◌≡◌, ◌≤◌, ◌-◌, ◌++◌, length, replicate};
ghost use Rattle.tags.specs.Hmac.{key_block, padded, block_len};

use sha2::{Digest, Sha256};

/// The bytes of a block of SHA-256.
pub(crate) const BLOCK_BYTES: usize = 64;

/// The key as one block: where it is longer it is hashed first, and zeros are behind it.
#[tactic(auto, unfolding(crate::specs::Hmac::key_block))]
pub(crate) fn key_block(key: &[u8]) -> [u8; BLOCK_BYTES]
    ensures { result ≡ key_block key.now }
{
    if key.len() > BLOCK_BYTES {
        filled(&Sha256::digest(key))
    } else {
        filled(key)
    }
}

/// These bytes, with zeros behind them.
fn filled(bytes: &[u8]) -> [u8; BLOCK_BYTES]
    requires { length bytes.now ≤ block_len }
    ensures { result ≡ bytes.now ++ replicate (block_len - length bytes.now) 0 }
{
    let mut block = [0u8; BLOCK_BYTES];
    let (front, _) = block.split_at_mut(bytes.len());
    front.copy_from_slice(bytes);
    block
}

/// Each byte of a block, combined with this one.
pub(crate) fn padded(block: &[u8; BLOCK_BYTES], pad: u8) -> [u8; BLOCK_BYTES]
    ensures { result ≡ padded pad block.now }
{
    let mut bytes = *block;
    'bytes: for place in 0..BLOCK_BYTES {
        bytes[place] ^= pad;
    }
    bytes
}
