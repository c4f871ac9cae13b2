ghost use Rattle.std.specs.Prelude.{◌≡◌, max, Some};
ghost use Rattle.proposer.specs.Rows.{empty_row, begun_in};
ghost use Rattle.proposer.specs.inner.Rows.{noted_row, is_of_round, HeardPromise, IssuesWaiting};

use crate::ballot_state::{BallotState, Plan, Promise};
use fed_types::{BagId, Ballot, Quorums};
use records::Entry;

/// What a proposer knows of a slot. What its ballots propose is boxed, so that a slot that was only
/// asked about takes a few words.
#[derive(Drop)]
pub(crate) struct Row {
    /// The greatest round that the site has used.
    used: u32,
    /// The greatest round that stood in the way of one of its ballots.
    pub(crate) floor: u32,
    /// The ballot that was begun, until its record is noted.
    pub(crate) begun: Option<Box<Plan>>,
    /// The current ballot.
    current: Option<BallotState>,
}

impl Row {
    /// The row of a slot if nothing is known of it.
    pub(crate) fn empty() -> Row
        ensures { result ≡ empty_row }
    {
        Row {
            used: 0,
            floor: 0,
            begun: None,
            current: None,
        }
    }

    /// The greater of the round that was used and the one that stood in the way.
    pub(crate) fn last_round(&self) -> u32
        ensures { result ≡ max self.now.used self.now.floor }
    {
        self.used.max(self.floor)
    }

    /// Hears a promise, which counts only if it is for the current ballot, and gives the bag to
    /// propose.
    pub(crate) fn promise<Q: Quorums>(
        &mut self,
        members: &Q,
        ballot: Ballot,
        promise: &Promise,
        own: Option<BagId>,
    ) -> Option<BagId>
        ensures { HeardPromise (Q.quorum_system members.now) own ballot promise.now self.old
            self.new result }
    {
        match &mut self.current {
            Some(state) => state.promise_for(members, ballot, promise, own),
            None => None,
        }
    }

    /// The promise that waits counts from now on, if one waits.
    pub(crate) fn issued(&mut self)
        ensures { IssuesWaiting self.old self.new }
    {
        if let Some(state) = &mut self.current {
            state.issued();
        }
    }

    /// Takes note of an entry: the ballot that was begun becomes current with its Round.
    pub(crate) fn note(&mut self, entry: &Entry)
        ensures { self.new ≡ noted_row self.old (Some entry.now) }
    {
        let Entry::Round(round) = *entry else {
            return;
        };
        self.used = self.used.max(round.number());
        if self.has_begun(round.number()) {
            self.current = match self.begun.take() {
                Some(plan) => Some(BallotState::of(plan)),
                None => None,
            };
        }
    }

    // Whether a ballot of this round was begun.
    fn has_begun(&self, number: u32) -> bool
        ensures { result ≡ is_of_round number (begun_in self.now) }
    {
        match &self.begun {
            Some(begun) => begun.ballot.round() == number,
            None => false,
        }
    }
}
