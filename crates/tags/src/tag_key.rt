ghost use Rattle.std.specs.Prelude.{◌≡◌, IfOk, option_map};
ghost use Rattle.tags.specs.Hmac.{key_block, tag_by};
ghost use Rattle.tags.specs.Rings.{name_of};
ghost use Rattle.tags.specs.Tags.{sealed, text_in, is_sealed, opened};

use crate::equality::are_equal;
use crate::key_block::{BLOCK_BYTES, key_block, padded};
use sha2::{Digest, Sha256};
use std::alloc::{AllocError, Global};
use std::marker::Model;

/// The bytes of a tag.
pub const TAG_BYTES: usize = 32;

/// A key, ready to make tags: the two hashers have taken its padded blocks. A clause sees its
/// block.
#[derive(Drop)]
pub struct TagKey {
    block: [u8; BLOCK_BYTES],
    inner: Sha256,
    outer: Sha256,
}

impl Model for TagKey {
    ghost use Rattle.std.specs.Prelude.{ℕ, List};
    ghost use Rattle.sha2.specs.Hashers.{Holds256};
    ghost use Rattle.tags.specs.Hmac.{padded};

    ghost Value = { List ℕ };

    ghost view = { λ k. k.block };

    ghost invariant = { λ k.
        Holds256 k.inner (padded 0x36 k.block) × Holds256 k.outer (padded 0x5C k.block) };
}

impl TagKey {
    /// This key, of any length.
    pub fn new(key: &[u8]) -> TagKey
        ensures { result ≡ key_block key.now }
    {
        let block = key_block(key);
        let mut inner = Sha256::new();
        inner.update(padded(&block, 0x36).as_slice());
        let mut outer = Sha256::new();
        outer.update(padded(&block, 0x5C).as_slice());
        TagKey {
            block,
            inner,
            outer,
        }
    }

    /// The tag of a text.
    #[tactic(auto, unfolding(crate::specs::Hmac::tag_by))]
    pub fn tag(&self, text: &[u8]) -> [u8; TAG_BYTES]
        ensures { result ≡ tag_by self.now text.now }
    {
        let mut inner = copy_of(&self.inner);
        inner.update(text);
        let mut outer = copy_of(&self.outer);
        outer.update(inner.finalize().as_slice());
        outer.finalize()
    }

    /// The text with its tag behind it.
    pub fn sealed(&self, alloc: Global, text: &[u8]) -> Result<Vec<u8>, AllocError>
        ensures { IfOk result (λ bytes. bytes.items ≡ sealed self.now text.now) }
    {
        let mut bytes = Vec::with_capacity(alloc, text.len() + TAG_BYTES)?;
        bytes.extend_from_slice(text)?;
        bytes.extend_from_slice(&self.tag(text))?;
        Ok(bytes)
    }

    /// The text before the tag, where the last bytes are its tag.
    #[tactic(auto, unfolding(crate::specs::Tags::opened))]
    pub fn opened<'b>(&self, bytes: &'b [u8]) -> Option<&'b [u8]>
        ensures { option_map (λ text. text.now) result ≡ opened self.now bytes.now }
    {
        if self.is_sealed(bytes) {
            Some(text_in(bytes))
        } else {
            None
        }
    }

    /// Whether the last bytes are the tag of what is before them.
    #[tactic(auto, unfolding(crate::specs::Tags::is_sealed))]
    pub(crate) fn is_sealed(&self, bytes: &[u8]) -> bool
        ensures { result ≡ is_sealed self.now bytes.now }
    {
        if bytes.len() < TAG_BYTES {
            return false;
        }
        let (text, tag) = bytes.split_at(bytes.len() - TAG_BYTES);
        are_equal(tag, &self.tag(text))
    }

    /// The key's name, by which two who have it can tell that they do.
    #[tactic(auto, unfolding(crate::specs::Rings::name_of))]
    pub fn name(&self) -> u32
        ensures { result ≡ name_of self.now }
    {
        let [a, b, c, d, ..] = Sha256::digest(&self.block);
        u32::from_be_bytes([a, b, c, d])
    }
}

/// All but the last bytes, which may be a tag.
pub(crate) fn text_in(bytes: &[u8]) -> &[u8]
    ensures { result.now ≡ text_in bytes.now }
{
    &bytes[..bytes.len().saturating_sub(TAG_BYTES)]
}

/// A hasher that has taken the same bytes.
fn copy_of(hasher: &Sha256) -> Sha256
    ensures { result ≡ hasher.now }
{
    let copy: Result<Sha256, AllocError> = hasher.clone();
    copy.unwrap()
}
