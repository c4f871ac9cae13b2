ghost use Rattle.std.specs.Prelude.{◌≡◌, ℕ, List};
ghost use Rattle.std.specs.Option.{option_copied};
ghost use Rattle.bag_tree.specs.Algorithms.{no_algorithms};
ghost use Rattle.bag_tree.specs.Digests.{digests_by, digests_of, digest_by, is_digest};

use crate::algorithms::Algorithms;
use crate::digester::Digester;
use bag_text::{Algorithm, HexDigest};
use md5::{Digest as _, Md5};
use sha1::Sha1;
use sha2::{Digest, Sha256, Sha512};

/// Digests of one file's bytes, by the algorithms that were wanted of those that a manifest may use
/// (RFC 1321, FIPS 180-4).
#[derive(Clone, Copy, Debug, PartialEq, Eq)]
pub struct Digests {
    pub md5: Option<[u8; 16]>,
    pub sha1: Option<[u8; 20]>,
    pub sha256: Option<[u8; 32]>,
    pub sha512: Option<[u8; 64]>,
}

impl Digests {
    /// The digests of a file if none is wanted.
    pub fn none() -> Digests
        ensures { (bytes : List ℕ) → result ≡ digests_by no_algorithms bytes }
    {
        Digests {
            md5: None,
            sha1: None,
            sha256: None,
            sha512: None,
        }
    }

    /// All digests of these bytes.
    pub fn of(bytes: &[u8]) -> Digests
        ensures { result ≡ digests_of bytes.now }
    {
        let mut digester = Digester::new(Algorithms::all());
        digester.feed(bytes);
        digester.finish()
    }

    /// The digest by this algorithm, 16, 20, 32 or 64 bytes, where it was wanted.
    pub fn by(&self, algorithm: Algorithm) -> Option<&[u8]>
        ensures { option_copied result ≡ digest_by algorithm self.now }
    {
        match algorithm {
            Algorithm::Md5 => bytes_of(&self.md5),
            Algorithm::Sha1 => bytes_of(&self.sha1),
            Algorithm::Sha256 => bytes_of(&self.sha256),
            Algorithm::Sha512 => bytes_of(&self.sha512),
        }
    }

    /// Whether the digest by this algorithm was wanted, and is this one.
    pub fn has(&self, algorithm: Algorithm, digest: &HexDigest<'_>) -> bool
        ensures { result ≡ is_digest digest.now (digest_by algorithm self.now) }
    {
        match self.by(algorithm) {
            None => false,
            Some(known) => digest.equals(known),
        }
    }
}

/// Whether this is the digest of the bytes by this algorithm.
pub fn is_digest_of(digest: &HexDigest<'_>, algorithm: Algorithm, bytes: &[u8]) -> bool
    ensures { result ≡ is_digest digest.now (digest_by algorithm (digests_of bytes.now)) }
{
    match algorithm {
        Algorithm::Md5 => digest.equals(&Md5::digest(bytes)),
        Algorithm::Sha1 => digest.equals(&Sha1::digest(bytes)),
        Algorithm::Sha256 => digest.equals(&Sha256::digest(bytes)),
        Algorithm::Sha512 => digest.equals(&Sha512::digest(bytes)),
    }
}

fn bytes_of<const N: usize>(digest: &Option<[u8; N]>) -> Option<&[u8]>
    ensures { option_copied result ≡ digest.now }
{
    match digest {
        None => None,
        Some(bytes) => Some(bytes),
    }
}
