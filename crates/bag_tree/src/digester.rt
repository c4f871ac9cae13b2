use crate::algorithms::Algorithms;
use crate::digests::Digests;
use crate::fed::Fed;
use md5::{Digest as _, Md5};
use sha1::Sha1;
use sha2::{Digest, Sha256, Sha512};
use std::marker::Model;

/// The wanted hash functions at work on one file's bytes, which may come in pieces: `new`, a `feed`
/// for each piece, and `finish`. A clause sees what is wanted, and the bytes that came so far.
#[derive(Drop)]
pub struct Digester {
    wanted: Algorithms,
    // The hash functions that aren't wanted are never fed.
    md5: Md5,
    sha1: Sha1,
    sha256: Sha256,
    sha512: Sha512,
    fed: Fed,
}

impl Model for Digester {
    ghost use Rattle.bag_tree.specs.Digests.{Feed};
    ghost use Rattle.bag_tree.specs.inner.Taken.{HaveTaken};

    ghost Value = { Feed };

    ghost view = { λ d. record { wanted = d.wanted; bytes = d.fed.bytes } };

    ghost invariant = { λ d. HaveTaken d.wanted d.md5 d.sha1 d.sha256 d.sha512 d.fed.bytes };
}

impl Digester {
    ghost use Rattle.std.specs.Prelude.{◌≡◌};
    ghost use Rattle.bag_tree.specs.Digests.{digests_by, nothing_fed, fed_with};

    /// No byte has come yet, and these digests are wanted.
    pub fn new(wanted: Algorithms) -> Digester
        ensures { result ≡ nothing_fed wanted }
    {
        Digester {
            wanted,
            md5: Md5::new(),
            sha1: Sha1::new(),
            sha256: Sha256::new(),
            sha512: Sha512::new(),
            fed: Fed::nothing(),
        }
    }

    /// Takes the next bytes.
    pub fn feed(&mut self, piece: &[u8])
        ensures { self.new ≡ fed_with self.old piece.now }
    {
        if self.wanted.md5 {
            self.md5.update(piece);
        }
        if self.wanted.sha1 {
            self.sha1.update(piece);
        }
        if self.wanted.sha256 {
            self.sha256.update(piece);
        }
        if self.wanted.sha512 {
            self.sha512.update(piece);
        }
        self.fed = Fed::with(&self.fed, piece);
    }

    /// The wanted digests of all bytes that came.
    pub fn finish(self) -> Digests
        ensures { result ≡ digests_by self.wanted self.bytes }
    {
        Digests {
            md5: if self.wanted.md5 {
                Some(self.md5.finalize())
            } else {
                None
            },
            sha1: if self.wanted.sha1 {
                Some(self.sha1.finalize())
            } else {
                None
            },
            sha256: if self.wanted.sha256 {
                Some(self.sha256.finalize())
            } else {
                None
            },
            sha512: if self.wanted.sha512 {
                Some(self.sha512.finalize())
            } else {
                None
            },
        }
    }
}
