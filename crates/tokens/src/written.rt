//! How a version of an object, a bag, a ballot and a vote are written in a line.

ghost use Rattle.tokens.specs.Pushes.{Pushes};
ghost use Rattle.tokens.specs.Written.{slot_text, bag_text, ballot_text, vote_text};

use crate::escape::push_escaped;
use fed_types::{BagId, Ballot, Slot, Vote};
use std::alloc::{AllocError, Global};

/// Appends `OBJ V`: the object's name as one word, and the version.
#[tactic(auto, using(std::proofs::Common::append_assoc))]
pub fn push_slot(text: &mut String, slot: &Slot) -> Result<(), AllocError>
    ensures { Pushes result text.old text.new (slot_text slot.now) }
{
    push_escaped(text, slot.object())?;
    let version = slot.version();
    write!(text, " {version}")
}

/// Appends a space, and the 128 hex digits of a bag's identity.
#[tactic(auto, using(std::proofs::Common::append_assoc))]
pub fn push_bag(alloc: Global, text: &mut String, bag: BagId) -> Result<(), AllocError>
    ensures { Pushes result text.old text.new (bag_text bag) }
{
    let digits = hex::encode(alloc, bag.0)?;
    text.push(' ')?;
    text.push_str(digits.as_str())
}

/// Appends a ballot's round and site, a space before each.
#[tactic(auto, using(std::proofs::Common::append_assoc))]
pub fn push_ballot(text: &mut String, ballot: Ballot) -> Result<(), AllocError>
    ensures { Pushes result text.old text.new (ballot_text ballot) }
{
    let round = ballot.round();
    let site = ballot.site().number();
    write!(text, " {round} {site}")
}

/// Appends a vote's ballot and bag, a space before each word.
#[tactic(auto, using(std::proofs::Common::append_assoc))]
pub fn push_vote(alloc: Global, text: &mut String, vote: Vote) -> Result<(), AllocError>
    ensures { Pushes result text.old text.new (vote_text vote) }
{
    push_ballot(text, vote.ballot)?;
    push_bag(alloc, text, vote.bag)
}
