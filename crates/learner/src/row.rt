ghost use Rattle.std.specs.Prelude.{◌≡◌, [], Some, None, false, IsTrue, OnOk, OnErr, IfOk};
ghost use Rattle.fed_types.specs.Voters.{with_voter};
ghost use Rattle.learner.specs.LearnerStates.{known_in, counted_in};
ghost use Rattle.learner.specs.inner.Counts.{IsRowCounted, UnlessKnown, first_known};
ghost use Rattle.learner.specs.inner.Counts.{is_learned, unless_settled};
ghost use Rattle.learner.specs.declared.row.Row.TheVariants as rows;

use crate::votes::Votes;
use fed_types::{BagId, Quorums, SiteNo, Vote, Voters};
use std::alloc::{AllocError, Global};

/// What a learner knows of a slot.
#[derive(Drop)]
pub(crate) enum Row {
    /// This bag is known; votes are no longer counted.
    Known(BagId),
    /// No bag is known, and no vote was heard.
    Unheard,
    /// No bag is known; the votes that were heard. They are in the row itself, a few words larger
    /// than the row of a known bag, so that the first vote takes no memory.
    Heard(Votes),
}

impl Row {
    // The sites counted for a vote, while no bag is known.
    fn counted(&self, vote: &Vote) -> Option<Voters>
        ensures { result
            ≡ unless_settled (known_in (Some self.now)) (counted_in (Some self.now) vote.now) }
    {
        match self {
            Row::Known(_) => None,
            Row::Unheard => Some(Voters::new()),
            Row::Heard(votes) => Some(votes.voters(vote)),
        }
    }

    /// Hears that a site cast a vote, and says whether the vote's bag is learned from it: then
    /// nothing changes.
    pub(crate) fn add_vote<Q: Quorums>(
        &mut self,
        alloc: Global,
        members: &Q,
        vote: &Vote,
        from: SiteNo,
    ) -> Result<bool, AllocError>
        ensures known { known_in (Some self.new) ≡ known_in (Some self.old) }
        ensures learned { IfOk result (λ learned. learned
            ≡ is_learned (Q.quorum_system members.now) (known_in (Some self.old))
            (with_voter (counted_in (Some self.old) vote.now) from)) }
        ensures unchanged { IfOk result (λ learned. IsTrue learned → self.new ≡ self.old) }
        ensures counted { IfOk result (λ learned. learned ≡ false
            → UnlessKnown (known_in (Some self.old)) (self.new ≡ self.old)
            (IsRowCounted self.old self.new vote.now
            (with_voter (counted_in (Some self.old) vote.now) from))) }
        ensures err { OnErr result (self.new ≡ self.old) }
        ensures memory { OnErr result (false
            ≡ is_learned (Q.quorum_system members.now) (known_in (Some self.old))
            (with_voter (counted_in (Some self.old) vote.now) from)) }
        ensures unknown { OnErr result (known_in (Some self.old) ≡ None) }
    {
        let Some(mut voters) = self.counted(vote) else {
            return Ok(false);
        };
        voters.add(from);
        if members.is_quorum(&voters) {
            return Ok(true);
        }
        self.count(alloc, vote, voters)?;
        Ok(false)
    }

    // Counts these sites for a vote. Where a bag is known it changes nothing.
    fn count(&mut self, alloc: Global, vote: &Vote, voters: Voters) -> Result<(), AllocError>
        ensures known { known_in (Some self.new) ≡ known_in (Some self.old) }
        ensures ok { known_in (Some self.old) ≡ None
            → OnOk result (IsRowCounted self.old self.new vote.now voters) }
        ensures err { OnErr result (self.new ≡ self.old) }
    {
        match self {
            Row::Known(_) => {}
            Row::Unheard => *self = Row::Heard(Votes::of(*vote, voters)),
            Row::Heard(votes) => votes.set(alloc, vote, voters)?,
        }
        Ok(())
    }

    /// The bag is known, unless another was known before.
    pub(crate) fn settle(&mut self, bag: BagId)
        ensures { self.new ≡ rows.Known (first_known (known_in (Some self.old)) bag) }
    {
        if let Row::Unheard | Row::Heard(_) = self {
            *self = Row::Known(bag);
        }
    }
}
