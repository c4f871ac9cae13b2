ghost use Rattle.std.specs.Prelude.{◌≡◌};
ghost use Rattle.bag_tree.specs.Digests.{digests_by, digest_by, is_digest};
ghost use Rattle.sha2.specs.Sha512.{sha512};

use crate::algorithms::Algorithms;
use crate::digester::Digester;
use crate::digests::{Digests, is_digest_of};
use bag_text::{Algorithm, HexDigest};
use sha2::{Digest, Sha512};
use std::marker::Model;

/// The bytes of a text that describes a bag, and the algorithms by which its digests are wanted. A
/// digest is computed when it is asked for, since for most texts none is; it is kept for the next
/// time if that was requested before.
#[derive(Drop)]
pub(crate) struct KeptText {
    wanted: Algorithms,
    bytes: Vec<u8>,
    /// The digests that were computed.
    computed: Digests,
}

impl Model for KeptText {
    ghost use Rattle.std.specs.Prelude.{◌≡◌};
    ghost use Rattle.bag_tree.specs.declared.algorithms.Algorithms.{Algorithms};
    ghost use Rattle.bag_tree.specs.Digests.{digests_by};
    ghost use Rattle.bag_tree.specs.inner.Kept.{Kept};

    ghost Value = { Kept };

    ghost view = { λ t. record { wanted = t.wanted; bytes = t.bytes.items } };

    ghost invariant = { λ t.
        (by : Algorithms) × (t.computed ≡ digests_by by t.bytes.items) };
}

impl KeptText {
    /// These bytes, whose digests by these algorithms are wanted.
    pub(crate) fn new(wanted: Algorithms, bytes: Vec<u8>) -> KeptText
        ensures { result ≡ record { wanted = wanted; bytes = bytes.items } }
    {
        KeptText {
            wanted,
            bytes,
            computed: Digests::none(),
        }
    }

    pub(crate) fn bytes(&self) -> &[u8]
        ensures { result.now ≡ self.now.bytes }
    {
        self.bytes.as_slice()
    }

    pub(crate) fn into_bytes(self) -> Vec<u8>
        ensures { result.items ≡ self.bytes }
    {
        self.bytes
    }

    /// Computes those wanted digests that are by one of these algorithms.
    pub(crate) fn compute_digests(&mut self, by: Algorithms)
        ensures { self.new ≡ self.old }
    {
        let mut digester = Digester::new(self.wanted.and(by));
        digester.feed(self.bytes.as_slice());
        self.computed = digester.finish();
    }

    /// Whether the digest by this algorithm is wanted, and is this one.
    #[tactic(auto, using(crate::proofs::Known::of_computed, crate::proofs::Known::of_wanted))]
    pub(crate) fn has_digest(&self, algorithm: Algorithm, digest: &HexDigest<'_>) -> bool
        ensures { result ≡ is_digest digest.now
            (digest_by algorithm (digests_by self.now.wanted self.now.bytes)) }
    {
        if !self.wanted.has(algorithm) {
            return false;
        }
        match self.computed.by(algorithm) {
            None => is_digest_of(digest, algorithm, self.bytes()),
            Some(known) => digest.equals(known),
        }
    }

    /// The SHA-512 of the bytes, wanted or not.
    pub(crate) fn sha512(&self) -> [u8; 64]
        ensures { result ≡ sha512 self.now.bytes }
    {
        match self.computed.sha512 {
            None => Sha512::digest(self.bytes.as_slice()),
            Some(digest) => digest,
        }
    }
}
