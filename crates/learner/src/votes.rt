ghost use Rattle.std.specs.Prelude.{◌≡◌, ◌∷◌, [], None, OnOk, OnErr};
ghost use Rattle.std.specs.Map.{lookup};
ghost use Rattle.dgram.specs.Heard.{same_vote};
ghost use Rattle.fed_types.specs.declared.vote.Vote.{Vote as declared_vote};
ghost use Rattle.learner.specs.LearnerStates.{voters_for_vote, IsCountedWith};

use crate::others::Others;
use fed_types::{Vote, Voters};
use std::alloc::{AllocError, Global};
use std::marker::Model;

/// The votes that were heard, at least one, and the sites that were heard to have cast each. A
/// clause sees the votes and their voters.
#[derive(Drop)]
pub(crate) struct Votes {
    /// The vote that was heard first. There is seldom another, and then the others aren't searched.
    first: Vote,
    voters: Voters,
    others: Others,
}

impl Model for Votes {
    ghost use Rattle.std.specs.Prelude.{ℕ, List, ◌∷◌};
    ghost use Rattle.fed_types.specs.declared.vote.Vote.{Vote};

    ghost Value = { List (Vote × List ℕ) };

    ghost view = { λ v. (v.first, v.voters) ∷ v.others };
}

impl Votes {
    /// These sites cast this vote.
    pub(crate) fn of(vote: Vote, voters: Voters) -> Votes
        ensures { result ≡ (vote, voters) ∷ [] }
    {
        Votes {
            first: vote,
            voters,
            others: Others::none(),
        }
    }

    /// The sites that cast this vote.
    pub(crate) fn voters(&self, vote: &Vote) -> Voters
        ensures { result ≡ voters_for_vote self.now vote.now }
    {
        if *vote == self.first {
            return self.voters;
        }
        self.others.voters(vote)
    }

    /// These are the sites that cast this vote. It takes no memory for a vote that was heard
    /// before.
    pub(crate) fn set(
        &mut self,
        alloc: Global,
        vote: &Vote,
        voters: Voters,
    ) -> Result<(), AllocError>
        ensures ok { OnOk result (IsCountedWith self.old self.new vote.now voters) }
        ensures err { OnErr result (self.new ≡ self.old) }
        ensures memory { OnErr result (lookup (same_vote vote.now) self.old ≡ None) }
    {
        if self.first == *vote {
            self.voters = voters;
            return Ok(());
        }
        self.others.set(alloc, *vote, voters)
    }
}
