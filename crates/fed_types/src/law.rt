//! Laws of the names, each as the contract of a function that does nothing.

ghost use Rattle.std.specs.Prelude.{◌≡◌};
ghost use Rattle.fed_types.specs.Limits.{bag_len, greatest_site, greatest_weight, longest_object};
ghost use Rattle.fed_types.specs.Limits.{most_members};
ghost use Rattle.fed_types.specs.Sites.{IsSiteNumber};
ghost use Rattle.fed_types.specs.Values.{IsBag, IsBallot, IsMembership, IsSlot, IsVote};

use crate::bag_id::{BAG_BYTES, BagId};
use crate::ballot::Ballot;
use crate::limits::{GREATEST_SITE, GREATEST_WEIGHT, LONGEST_OBJECT, MOST_MEMBERS};
use crate::members::Members;
use crate::site_no::SiteNo;
use crate::slot::Slot;
use crate::vote::Vote;

/// The limits that the code names are those of the definitions.
pub fn limits_law()
    ensures site { GREATEST_SITE ≡ greatest_site }
    ensures members { MOST_MEMBERS ≡ most_members }
    ensures weight { GREATEST_WEIGHT ≡ greatest_weight }
    ensures object { LONGEST_OBJECT ≡ longest_object }
    ensures bag { BAG_BYTES ≡ bag_len }
{}

/// A site's number is 1 to `GREATEST_SITE`.
pub fn sites_are_well_formed(site: SiteNo)
    ensures { IsSiteNumber site }
{
    let _number = site.number();
}

/// A federation's number has 64 bits, and it has 1 to `MOST_MEMBERS` members of weights 1 to
/// `GREATEST_WEIGHT`.
pub fn members_are_well_formed(members: &Members)
    ensures { IsMembership members.now }
{
    let _federation = members.federation();
    let _weights = members.weights();
}

/// A slot's object is a text of 1 to `LONGEST_OBJECT` bytes, and its version is at least 1 and has
/// 32 bits.
pub fn slots_are_well_formed(slot: &Slot)
    ensures { IsSlot slot.now }
{
    let _object = slot.object();
    let _version = slot.version();
}

/// A ballot's round is at least 1 and has 32 bits, and its site is 1 to `GREATEST_SITE`.
pub fn ballots_are_well_formed(ballot: Ballot)
    ensures { IsBallot ballot }
{
    let _round = ballot.round();
    let _site = ballot.site().number();
}

/// A bag's identity has `BAG_BYTES` bytes.
pub fn bags_are_well_formed(bag: &BagId)
    ensures { IsBag bag.now }
{}

/// A vote's ballot and bag are well-formed.
pub fn votes_are_well_formed(vote: &Vote)
    ensures { IsVote vote.now }
{
    ballots_are_well_formed(vote.ballot);
    bags_are_well_formed(&vote.bag);
}
