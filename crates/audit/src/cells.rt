ghost use Rattle.std.specs.Prelude.{◌≡◌, ◌++◌, ◌∷◌, [], List, OnOk};
ghost use Rattle.fed_types.specs.Quorums.{quorums_of};
ghost use Rattle.audit.specs.Evidence.{SiteRecord};
ghost use Rattle.audit.specs.Findings.{IsFinding};
ghost use Rattle.audit.specs.Tables.{Represents};

use crate::finding::Finding;
use crate::rows::{Rows, fill, row_of};
use crate::votes::Votes;
use fed_types::{Members, SiteNo, Slot};
use indexmap::IndexMap;
use records::Record;
use std::alloc::{AllocError, Global};
use std::hash::RandomState;
use std::marker::Model;

/// The records of cells of several sites, and what they say together of each version. A clause
/// sees its `Tables`.
#[derive(Drop)]
pub struct Cells {
    alloc: Global,
    members: Members,
    votes: Votes,
    rows: Rows,
}

impl Model for Cells {
    ghost use Rattle.audit.specs.Tables.{Tables};

    ghost Value = { Tables };

    ghost view = { λ c. record {
      members = c.members;
      votes = c.votes.entries;
      rows = c.rows.entries;
    } };
}

impl Cells {
    /// No record was given. This hashing finds versions and votes. Its seed is random, since
    /// whoever hands in a cell chooses their names.
    pub fn new(alloc: Global, members: Members, hashing: RandomState) -> Cells
        ensures members { result.members ≡ members }
        ensures nothing { Represents result [] }
    {
        Cells {
            alloc,
            members,
            votes: IndexMap::with_hasher(alloc, hashing),
            rows: IndexMap::with_hasher(alloc, hashing),
        }
    }

    /// What the records that were given say together of a version.
    pub fn finding(&self, slot: &Slot) -> Finding
        ensures { (given : List SiteRecord) → Represents self.now given
            → IsFinding (quorums_of self.now.members) given slot.now result }
    {
        row_of(&self.rows, slot).finding()
    }

    /// A record of a cell of this site is given.
    pub fn note(&mut self, site: SiteNo, kept: &Record) -> Result<(), AllocError>
        ensures noted { OnOk result ((given : List SiteRecord) → Represents self.old given
            → Represents self.new (given ++ record { site = site; kept = kept.now } ∷ [])) }
        ensures members { self.new.members ≡ self.old.members }
    {
        fill(
            self.alloc,
            self.members,
            &mut self.votes,
            &mut self.rows,
            site,
            kept,
        )
    }
}
