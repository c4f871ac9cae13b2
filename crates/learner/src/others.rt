ghost use Rattle.std.specs.Prelude.{◌≡◌, ◌∷◌, [], None, OnOk, OnErr, IfOk, box_value};
ghost use Rattle.std.specs.Map.{lookup};
ghost use Rattle.dgram.specs.Heard.{same_vote};
ghost use Rattle.learner.specs.LearnerStates.{voters_for_vote, IsCountedWith};

use fed_types::{Vote, Voters};
use std::alloc::{AllocError, Global};
use std::collections::BTreeMap;
use std::marker::Model;

/// The votes of a slot except the one that was heard first, and the sites that were heard to have
/// cast each. There are seldom any: until then there is no map. A clause sees the votes and their
/// voters.
#[derive(Drop)]
pub(crate) struct Others {
    map: Option<Box<BTreeMap<Vote, Voters>>>,
}

impl Model for Others {
    ghost use Rattle.std.specs.Prelude.{ℕ, List};
    ghost use Rattle.fed_types.specs.declared.vote.Vote.{Vote};
    ghost use Rattle.learner.specs.inner.Others.{entries_in};

    ghost Value = { List (Vote × List ℕ) };

    ghost view = { λ o. entries_in o.map };
}

impl Others {
    /// No other vote was heard.
    pub(crate) fn none() -> Others
        ensures { result ≡ [] }
    {
        Others { map: None }
    }

    /// The sites that cast this vote.
    pub(crate) fn voters(&self, vote: &Vote) -> Voters
        ensures { result ≡ voters_for_vote self.now vote.now }
    {
        match &self.map {
            None => Voters::new(),
            Some(map) => voters_in(map, vote),
        }
    }

    /// These are the sites that cast this vote. It takes no memory for a vote that was heard
    /// before.
    pub(crate) fn set(
        &mut self,
        alloc: Global,
        vote: Vote,
        voters: Voters,
    ) -> Result<(), AllocError>
        ensures ok { OnOk result (IsCountedWith self.old self.new vote voters) }
        ensures err { OnErr result (self.new ≡ self.old) }
        ensures memory { OnErr result (lookup (same_vote vote) self.old ≡ None) }
    {
        match &mut self.map {
            Some(map) => set_in(map, vote, voters),
            None => {
                self.map = Some(map_of(alloc, vote, voters)?);
                Ok(())
            }
        }
    }
}

// The sites that cast this vote.
fn voters_in(map: &BTreeMap<Vote, Voters>, vote: &Vote) -> Voters
    ensures { result ≡ voters_for_vote map.now.entries vote.now }
{
    match map.get(vote) {
        Some(voters) => *voters,
        None => Voters::new(),
    }
}

// These are the sites that cast this vote.
fn set_in(map: &mut BTreeMap<Vote, Voters>, vote: Vote, voters: Voters) -> Result<(), AllocError>
    ensures ok { OnOk result (IsCountedWith map.old.entries map.new.entries vote voters) }
    ensures err { OnErr result (map.new.entries ≡ map.old.entries) }
    ensures memory { OnErr result (lookup (same_vote vote) map.old.entries ≡ None) }
{
    match map.insert(vote, voters) {
        Ok(_) => Ok(()),
        Err(_) => Err(AllocError),
    }
}

// A map in which these are the sites that cast this vote, and there is no other vote.
fn map_of(
    alloc: Global,
    vote: Vote,
    voters: Voters,
) -> Result<Box<BTreeMap<Vote, Voters>>, AllocError>
    ensures { IfOk result (λ map. IsCountedWith [] (box_value map).entries vote voters) }
{
    let mut map = BTreeMap::new(alloc);
    set_in(&mut map, vote, voters)?;
    Ok(Box::new(alloc, map)?)
}
