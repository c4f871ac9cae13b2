ghost use Rattle.std.specs.Prelude.{◌≡◌, Some};
ghost use Rattle.records.specs.SlotStates.{earlier, higher};
ghost use Rattle.ledger.specs.Versions.{standing};
ghost use Rattle.ledger.specs.inner.Rows.{noted};

use crate::standing::Standing;
use fed_types::{BagId, Vote};
use records::Entry;

/// What records say of a version: its known bag, the site's deposit, and its vote.
#[derive(Clone, Copy, Debug)]
pub(crate) struct Row {
    pub(crate) known: Option<BagId>,
    pub(crate) deposit: Option<BagId>,
    pub(crate) vote: Option<Vote>,
}

impl Row {
    /// The row of a version without records.
    pub(crate) const EMPTY: Row = Row {
        known: None,
        deposit: None,
        vote: None,
    };

    /// The row after one more entry of the version.
    pub(crate) fn noted(self, entry: &Entry) -> Row
        ensures { result ≡ noted self (Some entry.now) }
    {
        let Row {
            known,
            deposit,
            vote,
        } = self;
        match *entry {
            Entry::Deposit(bag) => Row {
                known,
                deposit: earlier(deposit, bag),
                vote,
            },
            Entry::Vote(cast) => Row {
                known,
                deposit,
                vote: higher(vote, cast),
            },
            Entry::Known(bag) => Row {
                known: earlier(known, bag),
                deposit,
                vote,
            },
            Entry::Round(_) | Entry::Promise(_) => self,
        }
    }

    /// What it says of the version.
    pub(crate) fn standing(self) -> Standing
        ensures { result ≡ standing self.known self.deposit self.vote }
    {
        match (self.known, self.deposit, self.vote) {
            (Some(bag), _, _) => Standing::Known(bag),
            (None, Some(bag), _) => Standing::Pending(bag),
            (None, None, Some(vote)) => Standing::Voted(vote.bag),
            (None, None, None) => Standing::Asked,
        }
    }
}

// The first of two bags.
fn earlier(first: Option<BagId>, bag: BagId) -> Option<BagId>
    ensures { result ≡ earlier first bag }
{
    match first {
        Some(first) => Some(first),
        None => Some(bag),
    }
}

// The vote of the greater ballot; of equal ballots the first.
fn higher(best: Option<Vote>, vote: Vote) -> Option<Vote>
    ensures { result ≡ higher (λ v. v.ballot) best vote }
{
    match best {
        Some(best) if best.ballot >= vote.ballot => Some(best),
        _ => Some(vote),
    }
}
