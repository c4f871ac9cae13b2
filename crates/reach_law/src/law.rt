ghost use Rattle.std.specs.Prelude.{ℕ, ◌+◌, ◌≤◌, List};
ghost use Rattle.fed_types.specs.declared.bag_id.BagId.{BagId};
ghost use Rattle.fed_types.specs.Limits.{greatest_round};
ghost use Rattle.fed_types.specs.Lists.{Has};
ghost use Rattle.fed_types.specs.Quorums.{QuorumSystem, AreQuorums, IsQuorum};
ghost use Rattle.fed_types.specs.Slots.{SlotName};
ghost use Rattle.records.specs.declared.record.Record.{Record};
ghost use Rattle.world_law.specs.Laws.{IsChosen};
ghost use Rattle.world_law.specs.Networks.{Network, Event, new_network, run};
ghost use Rattle.reach_law.specs.Running.{AreMembers, RoundsAreLeft, CanDecide, proposals_for};
ghost use Rattle.reach_law.specs.Reach.{IsWithinReach, HaveNothing, StaysUnknown};
ghost use Rattle.reach_law.specs.Undisturbed.{CanPropose, CanOutbid, AllArrive, in_the_end};
ghost use Rattle.reach_law.specs.Undisturbed.{Knows, AllKnow, KnowsOrCanOutbid};
ghost use Rattle.reach_law.specs.InTurn.{AreProposingTurns, Waits, IsProposedInTurn, IsNextOrAfter};

// A function here does nothing: its contract is the law, for any quorums that meet and grow.

// ---- what is within reach

/// A decision is always within reach, whatever has happened. Let the members that run be a quorum,
/// and let one of them know the slot's bag, or have voted for one or have a deposit, and have
/// rounds left. Then some events in which only they take part and nothing fails let all of them
/// know one bag: at most ten for each of them and two more. If a bag was chosen before, it is this
/// one.
pub fn a_decision_is_within_reach()
    ensures { (q : QuorumSystem) (events : List Event) (running : List ℕ) (slot : SlotName)
        → AreQuorums q → AreMembers q running → IsQuorum q running
        → CanDecide (run q new_network events) running slot
        → IsWithinReach q (run q new_network events) running slot }
{}

/// Every quorum that runs and has rounds left can reach what was chosen, whoever has deposited it,
/// and whoever is lost.
pub fn what_is_chosen_is_within_reach()
    ensures { (q : QuorumSystem) (events : List Event) (running : List ℕ) (slot : SlotName)
        (bag : BagId) → AreQuorums q → AreMembers q running → IsQuorum q running
        → IsChosen q (run q new_network events) slot bag
        → ((n : ℕ) → Has n running → RoundsAreLeft (run q new_network events) running slot n)
        → IsWithinReach q (run q new_network events) running slot }
{}

/// If none of the members that run has a deposit, has voted, or knows the bag, nothing that they do
/// lets one of them know it, unless an earlier datagram still arrives: they need that, or another
/// member, or a deposit.
pub fn no_decision_without_a_vote_or_a_deposit()
    ensures { (q : QuorumSystem) (w : Network) (running : List ℕ) (slot : SlotName)
        → HaveNothing w running slot → StaysUnknown q w running slot }
{}

/// Rounds are left for a slot, at every site, as long as there were fewer than 4,294,967,294
/// proposals for it and recoveries of it.
pub fn rounds_are_left()
    ensures { (q : QuorumSystem) (events : List Event) (running : List ℕ) (slot : SlotName)
        (site : ℕ) → AreQuorums q → proposals_for slot events + 2 ≤ greatest_round
        → RoundsAreLeft (run q new_network events) running slot site }
{}

// ---- proposals that nothing disturbs

/// An undisturbed ballot is decided. Let a member begin a ballot above all that the members that
/// run, a quorum, have promised. Let nothing of the slot arrive but what is sent since, each such
/// datagram to one of these members at least once, in any order. Then all of them know a bag.
/// Meanwhile anything may happen with other slots in which nothing fails at those that run; and at
/// other members, whatever isn't about the slot.
pub fn an_undisturbed_ballot_is_decided()
    ensures { (q : QuorumSystem) (history : List Event) (running : List ℕ) (slot : SlotName)
        (site : ℕ) (events : List Event) → AreQuorums q → AreMembers q running
        → IsQuorum q running → CanOutbid (run q new_network history) running slot site
        → AllArrive q (run q new_network history) running slot site events
        → AllKnow (in_the_end q (run q new_network history) slot site events) running slot }
{}

/// After any undisturbed proposal the site knows the bag, or its next ballot is above all that the
/// members that run have promised.
pub fn an_undisturbed_proposal_outbids()
    ensures { (q : QuorumSystem) (w : Network) (running : List ℕ) (slot : SlotName) (site : ℕ)
        (events : List Event) → AreMembers q running → CanPropose w running slot site
        → AllArrive q w running slot site events
        → KnowsOrCanOutbid (in_the_end q w slot site events) running slot site }
{}

/// So two undisturbed proposals decide, whatever has happened before: afterwards the site knows the
/// slot's bag.
pub fn two_undisturbed_proposals_decide()
    ensures { (q : QuorumSystem) (history : List Event) (running : List ℕ) (slot : SlotName)
        (site : ℕ) (first second : List Event) → AreQuorums q → AreMembers q running
        → IsQuorum q running → CanPropose (run q new_network history) running slot site
        → AllArrive q (run q new_network history) running slot site first
        → AllArrive q (in_the_end q (run q new_network history) slot site first) running slot site
        second
        → Knows (in_the_end q (in_the_end q (run q new_network history) slot site first) slot site
        second) slot site }
{}

// ---- of a site that serves

/// A site that serves proposes each of its deposits in turn: one that waits is proposed within as
/// many proposing turns as there are deposits, while no others are added.
pub fn each_deposit_has_its_turn()
    ensures { (records : ℕ → List Record) (tried : ℕ → ℕ) (place most : ℕ)
        → AreProposingTurns records tried → Waits records place most
        → IsProposedInTurn records tried place most }
{}

/// So each of two has the first or the second of these turns.
pub fn each_of_two_has_its_turn()
    ensures { (records : ℕ → List Record) (tried : ℕ → ℕ) (place : ℕ)
        → AreProposingTurns records tried → Waits records place 2
        → IsNextOrAfter records tried place }
{}
