ghost use Rattle.std.specs.Prelude.{◌≡◌};

use crate::manifests::Kind;
use bag_text::{Algorithm, Entry};
use std::marker::Model;

/// What a manifest lists, if every line of it is well-formed.
#[derive(Drop)]
pub(crate) struct Listing<'a> {
    kind: Kind,
    algorithm: Algorithm,
    entries: Vec<Entry<'a>>,
}

impl<'a> Model for Listing<'a> {
    ghost use Rattle.bag_check.specs.inner.Order.{Listed};

    ghost Value = { Listed };

    ghost view = { λ l. record {
      kind = l.kind;
      algorithm = l.algorithm;
      files = l.entries.items;
    } };
}

impl<'a> Listing<'a> {
    /// A manifest of this kind and algorithm lists these files.
    pub(crate) fn new(kind: Kind, algorithm: Algorithm, entries: Vec<Entry<'a>>) -> Listing<'a>
        ensures { result ≡ record {
          kind = kind;
          algorithm = algorithm;
          files = entries.entry.items;
        } }
    {
        Listing {
            kind,
            algorithm,
            entries,
        }
    }

    pub(crate) fn kind(&self) -> Kind
        ensures { result ≡ self.now.kind }
    {
        self.kind
    }

    pub(crate) fn algorithm(&self) -> Algorithm
        ensures { result ≡ self.now.algorithm }
    {
        self.algorithm
    }

    pub(crate) fn entries(&self) -> &[Entry<'a>]
        ensures { result.now ≡ self.now.files }
    {
        self.entries.as_slice()
    }
}
