//! What is kept of each version.

ghost use Rattle.std.specs.Prelude.{◌≡◌, ◌++◌, ◌∷◌, [], List, OnOk, IfOk};
ghost use Rattle.fed_types.specs.Quorums.{quorums_of};
ghost use Rattle.slot_table.specs.Rows.{row_of, IsWith};
ghost use Rattle.audit.specs.Evidence.{SiteRecord};
ghost use Rattle.audit.specs.inner.Rows.{empty_row};
ghost use Rattle.audit.specs.Tables.{AreRows, AreVoters, IsRowFor};

use crate::row::Row;
use crate::votes::{Cast, Votes, count};
use fed_types::{Members, SiteNo, Slot, Vote};
use indexmap::IndexMap;
use records::{Entry, Record};
use std::alloc::{AllocError, Global};
use std::hash::RandomState;

/// The versions, in the order in which they were given, and what was given of each.
pub(crate) type Rows = IndexMap<Slot, Row, RandomState>;

/// What was given of a version.
pub(crate) fn row_of(rows: &Rows, slot: &Slot) -> Row
    ensures { result ≡ row_of empty_row rows.now.entries slot.now }
{
    match rows.get(slot) {
        Some(row) => *row,
        None => Row::EMPTY,
    }
}

/// This is what was given of a version.
pub(crate) fn put_row(rows: &mut Rows, slot: Slot, row: Row) -> Result<(), AllocError>
    ensures { OnOk result (IsWith rows.old.entries rows.new.entries slot row) }
{
    match rows.insert(slot, row) {
        Ok(_) => Ok(()),
        Err(_) => Err(AllocError),
    }
}

// The row of a version after a vote of a site.
fn after_vote(
    votes: &mut Votes,
    members: Members,
    site: SiteNo,
    cast: Cast,
    row: Row,
) -> Result<Row, AllocError>
    ensures row { IfOk result (λ after. (given : List SiteRecord)
        → AreVoters votes.old.entries given → IsRowFor (quorums_of members) given cast.slot row
        → IsRowFor (quorums_of members)
        (given
        ++ record { site = site; kept = record { slot = cast.slot; body = Entry.Vote cast.vote } }
        ∷ [])
        cast.slot after) }
    ensures voters { OnOk result ((given : List SiteRecord) → AreVoters votes.old.entries given
        → AreVoters votes.new.entries
        (given
        ++ record { site = site; kept = record { slot = cast.slot; body = Entry.Vote cast.vote } }
        ∷ [])) }
{
    let vote = cast.vote;
    let voters = count(votes, site, cast)?;
    if voters.is_quorum(&members) {
        Ok(row.chosen(vote))
    } else {
        Ok(row)
    }
}

/// The row of a record's version after it, when it was this before. The counted votes change too.
pub(crate) fn row_after(
    alloc: Global,
    votes: &mut Votes,
    members: Members,
    site: SiteNo,
    kept: &Record,
    row: Row,
) -> Result<Row, AllocError>
    ensures row { IfOk result (λ after. (given : List SiteRecord)
        → AreVoters votes.old.entries given
        → IsRowFor (quorums_of members) given kept.now.slot row
        → IsRowFor (quorums_of members) (given ++ record { site = site; kept = kept.now } ∷ [])
        kept.now.slot after) }
    ensures voters { OnOk result ((given : List SiteRecord) → AreVoters votes.old.entries given
        → AreVoters votes.new.entries (given ++ record { site = site; kept = kept.now } ∷ [])) }
{
    match kept.body {
        Entry::Vote(vote) => {
            let slot = kept.slot.copy(alloc)?;
            after_vote(votes, members, site, Cast { slot, vote }, row)
        }
        Entry::Known(bag) => Ok(row.named(bag)),
        _ => Ok(row),
    }
}

/// Takes note of a record of a cell of this site.
pub(crate) fn fill(
    alloc: Global,
    members: Members,
    votes: &mut Votes,
    rows: &mut Rows,
    site: SiteNo,
    kept: &Record,
) -> Result<(), AllocError>
    ensures voters { OnOk result ((given : List SiteRecord) → AreVoters votes.old.entries given
        → AreVoters votes.new.entries (given ++ record { site = site; kept = kept.now } ∷ [])) }
    ensures rows { OnOk result ((given : List SiteRecord) → AreVoters votes.old.entries given
        → AreRows (quorums_of members) rows.old.entries given
        → AreRows (quorums_of members) rows.new.entries
        (given ++ record { site = site; kept = kept.now } ∷ [])) }
{
    let slot = kept.slot.copy(alloc)?;
    let before = row_of(rows, &kept.slot);
    match row_after(alloc, votes, members, site, kept, before) {
        Ok(after) => put_row(rows, slot, after),
        Err(AllocError) => Err(AllocError),
    }
}
