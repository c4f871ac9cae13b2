//! The sites that have each vote on record.

ghost use Rattle.std.specs.Prelude.{◌≡◌, OnOk, IfOk};
ghost use Rattle.fed_types.specs.Voters.{with_voter};
ghost use Rattle.audit.specs.inner.Casts.{voters_in, IsCounted};

use fed_types::{SiteNo, Slot, Vote, Voters};
use indexmap::IndexMap;
use std::alloc::{AllocError, Global};
use std::hash::RandomState;

/// A vote for a version.
#[derive(Debug, Drop, PartialEq, Eq, Hash)]
pub(crate) struct Cast {
    pub(crate) slot: Slot,
    pub(crate) vote: Vote,
}

/// The votes that were given, and the sites that have each on record.
pub(crate) type Votes = IndexMap<Cast, Voters, RandomState>;

// The sites that have a vote on record.
fn voters_in(votes: &Votes, cast: &Cast) -> Voters
    ensures { result ≡ voters_in votes.now.entries cast.now }
{
    match votes.get(cast) {
        Some(voters) => *voters,
        None => Voters::new(),
    }
}

// These are the sites that have a vote on record.
fn put(votes: &mut Votes, cast: Cast, voters: Voters) -> Result<(), AllocError>
    ensures { OnOk result (IsCounted votes.old.entries votes.new.entries cast voters) }
{
    match votes.insert(cast, voters) {
        Ok(_) => Ok(()),
        Err(_) => Err(AllocError),
    }
}

/// Counts that a site has a vote on record, and gives the sites that have it.
pub(crate) fn count(votes: &mut Votes, site: SiteNo, cast: Cast) -> Result<Voters, AllocError>
    ensures counted { OnOk result (IsCounted votes.old.entries votes.new.entries cast
        (with_voter (voters_in votes.old.entries cast) site)) }
    ensures voters { IfOk result
        (λ voters. voters ≡ with_voter (voters_in votes.old.entries cast) site) }
{
    let mut voters = voters_in(votes, &cast);
    voters.add(site);
    put(votes, cast, voters)?;
    Ok(voters)
}
