ghost use Rattle.std.specs.Prelude.{◌≡◌};

use bag_check::Kind;
use bag_text::{Algorithm, Entry};
use std::marker::Model;

/// An entry of a manifest, and the number of its line, counted from 1.
#[derive(Drop)]
pub(crate) struct NumberedEntry<'a> {
    line: usize,
    entry: Entry<'a>,
}

impl<'a> Model for NumberedEntry<'a> {
    ghost use Rattle.bag_explain.specs.Lines.{NumberedFile};

    ghost Value = { NumberedFile };

    ghost view = { λ it. record { line = it.line; file = it.entry } };
}

impl<'a> NumberedEntry<'a> {
    pub(crate) fn new(line: usize, entry: Entry<'a>) -> NumberedEntry<'a>
        ensures { result ≡ record { line = line; file = entry.entry } }
    {
        NumberedEntry { line, entry }
    }

    pub(crate) fn line(&self) -> usize
        ensures { result ≡ self.now.line }
    {
        self.line
    }

    pub(crate) fn entry(&self) -> &Entry<'a>
        ensures { result.now ≡ self.now.file }
    {
        &self.entry
    }
}

/// What a manifest lists, if no line of it is malformed, and else the numbers of the malformed
/// lines.
#[derive(Drop)]
pub(crate) struct NumberedListing<'a> {
    kind: Kind,
    algorithm: Algorithm,
    malformed: Vec<usize>,
    entries: Vec<NumberedEntry<'a>>,
}

impl<'a> Model for NumberedListing<'a> {
    ghost use Rattle.bag_explain.specs.Listings.{NumberedListing};

    ghost Value = { NumberedListing };

    ghost view = { λ l. record {
      kind = l.kind;
      algorithm = l.algorithm;
      malformed = l.malformed.items;
      files = l.entries.items;
    } };
}

impl<'a> NumberedListing<'a> {
    ghost use Rattle.bag_explain.specs.Listings.{unless_malformed};
    ghost use Rattle.bag_explain.specs.Places.{name_of};

    /// A manifest of this kind and algorithm has these malformed lines, and lists these entries.
    pub(crate) fn new(
        kind: Kind,
        algorithm: Algorithm,
        malformed: Vec<usize>,
        entries: Vec<NumberedEntry<'a>>,
    ) -> NumberedListing<'a>
        ensures { result ≡ record {
          kind = kind;
          algorithm = algorithm;
          malformed = malformed.items;
          files = unless_malformed malformed.items entries.entry.items;
        } }
    {
        let mut entries = entries;
        if !malformed.is_empty() {
            entries.clear();
        }
        NumberedListing {
            kind,
            algorithm,
            malformed,
            entries,
        }
    }

    pub(crate) fn kind(&self) -> Kind
        ensures { result ≡ self.now.kind }
    {
        self.kind
    }

    pub(crate) fn algorithm(&self) -> Algorithm
        ensures { result ≡ self.now.algorithm }
    {
        self.algorithm
    }

    /// The manifest's name.
    pub(crate) fn name(&self) -> &'static str
        ensures { result.now ≡ name_of self.now }
    {
        self.kind.manifest_name(self.algorithm)
    }

    pub(crate) fn malformed(&self) -> &[usize]
        ensures { result.now ≡ self.now.malformed }
    {
        self.malformed.as_slice()
    }

    pub(crate) fn entries(&self) -> &[NumberedEntry<'a>]
        ensures { result.now ≡ self.now.files }
    {
        self.entries.as_slice()
    }
}
