ghost use Rattle.std.specs.Prelude.{◌≡◌, Some, box_value};
ghost use Rattle.fed_types.specs.Voters.{with_voter};
ghost use Rattle.proposer.specs.BallotStates.{fresh, state_of};
ghost use Rattle.proposer.specs.Proposals.{bag_of};
ghost use Rattle.proposer.specs.inner.BallotStates.{counted, higher_prior, becomes_quorum, issued};
ghost use Rattle.proposer.specs.inner.BallotStates.{bag_after, state_after, given_bag};
ghost use Rattle.proposer.specs.inner.BallotStates.{after_promise};

use fed_types::{BagId, Ballot, Quorums, SiteNo, Vote, Voters};
use std::marker::Model;

/// A promise: the site that gives it, and the vote that it names.
#[derive(Clone, Copy, Debug)]
pub(crate) struct Promise {
    pub(crate) site: SiteNo,
    pub(crate) prior: Option<Vote>,
}

/// A ballot that was begun, and what is seldom asked for once it is current.
#[derive(Clone, Copy, Debug)]
pub(crate) struct Plan {
    pub(crate) ballot: Ballot,
    /// The highest of the votes that were named.
    best: Option<Vote>,
    /// The promise that made the proposal ready, until the proposal is issued.
    pub(crate) waiting: Option<Promise>,
}

impl Plan {
    /// The plan of a ballot that nobody has promised.
    pub(crate) fn new(ballot: Ballot) -> Plan
        ensures { state_of result ≡ fresh ballot }
    {
        Plan {
            ballot,
            best: None,
            waiting: None,
        }
    }
}

/// What was gathered for the current ballot: the sites that promised it, and the highest of the
/// votes that they named. The ballot and those sites alone answer most promises, so only the rest
/// is boxed. A clause sees a `BallotState` of specs/.
#[derive(Drop)]
pub(crate) struct BallotState {
    ballot: Ballot,
    promised_by: Voters,
    pub(crate) plan: Box<Plan>,
}

impl Model for BallotState {
    ghost use Rattle.std.specs.Prelude.{box_value};
    ghost use Rattle.proposer.specs.BallotStates.{BallotState};

    ghost Value = { BallotState };

    ghost view = { λ r. record {
      ballot = r.ballot;
      promised_by = r.promised_by;
      best = (box_value r.plan).best;
      waiting = (box_value r.plan).waiting;
    } };
}

impl BallotState {
    /// The state of the ballot of this plan, which nobody has promised.
    pub(crate) fn of(plan: Box<Plan>) -> BallotState
        ensures { result ≡ state_of (box_value plan) }
    {
        BallotState {
            ballot: plan.ballot,
            promised_by: Voters::new(),
            plan,
        }
    }

    /// Hears a promise, which counts only if it is for this ballot, and gives the bag to propose.
    pub(crate) fn promise_for<Q: Quorums>(
        &mut self,
        members: &Q,
        ballot: Ballot,
        promise: &Promise,
        own: Option<BagId>,
    ) -> Option<BagId>
        ensures state { Some self.new
            ≡ after_promise (Q.quorum_system members.now) own ballot promise.now (Some self.old) }
        ensures bag { result
            ≡ given_bag (Q.quorum_system members.now) own ballot promise.now (Some self.old) }
    {
        if self.ballot == ballot {
            self.promise(members, promise, own)
        } else {
            None
        }
    }

    /// Hears a promise of the ballot, and gives the bag to propose. The promise counts, unless it
    /// makes the proposal ready; then it waits.
    pub(crate) fn promise<Q: Quorums>(
        &mut self,
        members: &Q,
        promise: &Promise,
        own: Option<BagId>,
    ) -> Option<BagId>
        ensures bag { result ≡ bag_after (Q.quorum_system members.now) own self.old promise.now }
        ensures state { self.new
            ≡ state_after (Q.quorum_system members.now) own self.old promise.now }
    {
        let bag = self.bag_after(members, promise, own);
        match bag {
            Some(_) => self.plan.waiting = Some(*promise),
            None => self.count(promise),
        }
        bag
    }

    /// The promise that waits counts from now on, if one waits.
    pub(crate) fn issued(&mut self)
        ensures { self.new ≡ issued self.old }
    {
        if let Some(promise) = self.plan.waiting {
            self.count(&promise);
            self.plan.waiting = None;
        }
    }

    // The bag to propose once this promise is heard.
    fn bag_after<Q: Quorums>(
        &self,
        members: &Q,
        promise: &Promise,
        own: Option<BagId>,
    ) -> Option<BagId>
        ensures { result ≡ bag_after (Q.quorum_system members.now) own self.now promise.now }
    {
        if becomes_quorum(members, self.promised_by, self.promised_with(promise.site)) {
            bag_of(higher(self.plan.best, promise.prior), own)
        } else {
            None
        }
    }

    // Counts a promise.
    fn count(&mut self, promise: &Promise)
        ensures { self.new ≡ counted self.old promise.now }
    {
        self.promised_by = self.promised_with(promise.site);
        if promise.prior.is_some() {
            self.plan.best = higher(self.plan.best, promise.prior);
        }
    }

    // The sites that promised, and this one.
    fn promised_with(&self, site: SiteNo) -> Voters
        ensures { result ≡ with_voter self.now.promised_by site }
    {
        let mut sites = self.promised_by;
        sites.add(site);
        sites
    }
}

// Whether these voters are a quorum, and without the last one they weren't.
fn becomes_quorum<Q: Quorums>(members: &Q, before: Voters, voters: Voters) -> bool
    ensures { result ≡ becomes_quorum (Q.quorum_system members.now) before voters }
{
    members.is_quorum(&voters) && !members.is_quorum(&before)
}

// The vote of the greater ballot; of equal ballots the first.
fn higher(best: Option<Vote>, prior: Option<Vote>) -> Option<Vote>
    ensures { result ≡ higher_prior best prior }
{
    match prior {
        Some(vote) => match best {
            Some(best) if best.ballot >= vote.ballot => Some(best),
            _ => Some(vote),
        },
        None => best,
    }
}

// The bag of the vote, or the own one.
fn bag_of(best: Option<Vote>, own: Option<BagId>) -> Option<BagId>
    ensures { result ≡ bag_of best own }
{
    match best {
        Some(vote) => Some(vote.bag),
        None => own,
    }
}
