ghost use Rattle.std.specs.Prelude.{◌≡◌, true, false, Some, None, IfOk, is_some};
ghost use Rattle.std.specs.Option.{option_copied, option_map};
ghost use Rattle.sha2.specs.Sha512.{sha512};
ghost use Rattle.bag_tree.specs.Digests.{digests_by, digest_by, is_digest};
ghost use Rattle.bag_tree.specs.Path.{is_read_text};

use crate::algorithms::Algorithms;
use crate::digests::Digests;
use crate::kept_text::KeptText;
use crate::path::is_read_text;
use crate::tree::TreeFile;
use bag_text::{Algorithm, HexDigest};
use std::alloc::{AllocError, Global};
use std::marker::Model;

/// What a checker knows of one file: its path, its digests by the algorithms that were wanted, and,
/// if it is one of the texts that describe a bag, its bytes.
#[derive(Drop)]
pub struct FileFacts {
    path: String,
    contents: Contents,
}

/// What is kept of a file's bytes.
#[derive(Drop)]
enum Contents {
    Text(KeptText),
    Hashed(Digests),
}

impl Model for FileFacts {
    ghost use Rattle.std.specs.Prelude.{◌≡◌, string_bytes};
    ghost use Rattle.bag_tree.specs.Facts.{FileFact};
    ghost use Rattle.bag_tree.specs.Path.{is_read_text};
    ghost use Rattle.bag_tree.specs.inner.Contents.{fact_in, is_text};

    ghost Value = { FileFact };

    ghost view = { λ f. fact_in (string_bytes f.path) f.contents };

    // The texts that describe a bag are kept, and no other file.
    ghost invariant = { λ f. is_text f.contents ≡ is_read_text (string_bytes f.path) };
}

impl FileFacts {
    ghost use Rattle.std.specs.Prelude.{string_bytes};
    ghost use Rattle.bag_tree.specs.Facts.{fact_of_file};

    /// A text that describes a bag, of these bytes, whose digests by these algorithms are wanted.
    pub fn kept(path: String, wanted: Algorithms, bytes: Vec<u8>) -> FileFacts
        requires { is_read_text (string_bytes path) ≡ true }
        ensures { result ≡ record {
          path = string_bytes path;
          digests = digests_by wanted bytes.items;
          text = Some bytes.items;
        } }
    {
        FileFacts {
            path,
            contents: Contents::Text(KeptText::new(wanted, bytes)),
        }
    }

    /// Any other file, of these digests.
    pub fn hashed(path: String, digests: Digests) -> FileFacts
        requires { is_read_text (string_bytes path) ≡ false }
        ensures { result ≡ record {
          path = string_bytes path;
          digests = digests;
          text = None;
        } }
    {
        FileFacts {
            path,
            contents: Contents::Hashed(digests),
        }
    }

    /// The facts of one file of a tree, with all digests.
    pub(crate) fn of(alloc: Global, file: &TreeFile) -> Result<FileFacts, AllocError>
        ensures { IfOk result (λ facts. facts ≡ fact_of_file file.now) }
    {
        let path = String::from_str(alloc, file.path())?;
        if is_read_text(file.path().as_bytes()) {
            let bytes = Vec::from_slice(alloc, file.bytes())?;
            let mut facts = FileFacts::kept(path, Algorithms::all(), bytes);
            facts.compute_digests(Algorithms::all());
            Ok(facts)
        } else {
            Ok(FileFacts::hashed(path, Digests::of(file.bytes())))
        }
    }

    /// Computes those wanted digests of a text that are by one of these algorithms, so that asking
    /// for them takes no time. Nothing changes that a clause sees.
    pub fn compute_digests(&mut self, by: Algorithms)
        ensures { self.new ≡ self.old }
    {
        match &mut self.contents {
            Contents::Text(text) => text.compute_digests(by),
            Contents::Hashed(_) => {}
        }
    }

    /// The path, relative to the tree's own folder.
    pub fn path(&self) -> &str
        ensures { result.now ≡ self.now.path }
    {
        self.path.as_str()
    }

    /// Whether the digest of the file's bytes by this algorithm was wanted, and is this one.
    pub fn has_digest(&self, algorithm: Algorithm, digest: &HexDigest<'_>) -> bool
        ensures { result ≡ is_digest digest.now (digest_by algorithm self.now.digests) }
    {
        match &self.contents {
            Contents::Text(text) => text.has_digest(algorithm, digest),
            Contents::Hashed(digests) => digests.has(algorithm, digest),
        }
    }

    /// The file's bytes, if it is one of the texts that describe a bag.
    pub fn text(&self) -> Option<&[u8]>
        ensures value { option_copied result ≡ self.now.text }
        ensures read { is_some self.now.text ≡ is_read_text self.now.path }
    {
        match &self.contents {
            Contents::Text(text) => Some(text.bytes()),
            Contents::Hashed(_) => None,
        }
    }

    /// The file's bytes, moved, if it is one of the texts that describe a bag.
    pub fn into_text(self) -> Option<Vec<u8>>
        ensures { option_map (λ bytes. bytes.items) result ≡ self.text }
    {
        let FileFacts { contents, .. } = self;
        match contents {
            Contents::Text(text) => Some(text.into_bytes()),
            Contents::Hashed(_) => None,
        }
    }

    /// The SHA-512 of the file's bytes, if it is one of the texts that describe a bag.
    pub fn sha512_of_text(&self) -> Option<[u8; 64]>
        ensures { result ≡ option_map sha512 self.now.text }
    {
        match &self.contents {
            Contents::Text(text) => Some(text.sha512()),
            Contents::Hashed(_) => None,
        }
    }
}
