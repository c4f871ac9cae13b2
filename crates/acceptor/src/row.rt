ghost use Rattle.std.specs.Prelude.{◌≡◌, Some};
ghost use Rattle.records.specs.SlotStates.{higher};
ghost use Rattle.acceptor.specs.inner.Noted.{noted};

use fed_types::{Ballot, Vote};
use records::Entry;

/// What an acceptor knows of a slot: what it has promised, and its vote.
#[derive(Clone, Copy, Debug)]
pub(crate) struct Row {
    pub(crate) promised: Option<Ballot>,
    pub(crate) vote: Option<Vote>,
}

impl Row {
    /// The row of a slot without records.
    pub(crate) const EMPTY: Row = Row {
        promised: None,
        vote: None,
    };

    /// The row after one more entry of the slot.
    pub(crate) fn noted(self, entry: &Entry) -> Row
        ensures { result ≡ noted self (Some entry.now) }
    {
        match *entry {
            Entry::Promise(ballot) => Row {
                promised: higher(self.promised, ballot),
                vote: self.vote,
            },
            Entry::Vote(vote) => Row {
                promised: higher(self.promised, vote.ballot),
                vote: higher_vote(self.vote, vote),
            },
            Entry::Deposit(_) | Entry::Round(_) | Entry::Known(_) => self,
        }
    }
}

// The greater ballot.
fn higher(best: Option<Ballot>, ballot: Ballot) -> Option<Ballot>
    ensures { result ≡ higher (λ b. b) best ballot }
{
    match best {
        Some(best) if best >= ballot => Some(best),
        _ => Some(ballot),
    }
}

// The vote of the greater ballot; of equal ballots the first.
fn higher_vote(best: Option<Vote>, vote: Vote) -> Option<Vote>
    ensures { result ≡ higher (λ v. v.ballot) best vote }
{
    match best {
        Some(best) if best.ballot >= vote.ballot => Some(best),
        _ => Some(vote),
    }
}
