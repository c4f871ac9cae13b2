//! What a learner does to the rows of slots.

ghost use Rattle.std.specs.Prelude.{◌≡◌, Some, None, [], false, IsTrue, OnOk, OnErr, IfOk, IsOk};
ghost use Rattle.std.specs.Prelude.{IsSome};
ghost use Rattle.fed_types.specs.Voters.{with_voter};
ghost use Rattle.slot_table.specs.Rows.{row_at, IsWith, HasRooms};
ghost use Rattle.learner.specs.LearnerStates.{known_in, counted_in};
ghost use Rattle.learner.specs.inner.Counts.{KnowsSame, CountsSame, IsCounted, UnlessKnown};
ghost use Rattle.learner.specs.inner.Counts.{first_known, is_learned};
ghost use Rattle.learner.specs.declared.row.Row.TheVariants as rows;

use crate::row::Row;
use fed_types::{BagId, Quorums, SiteNo, Slot, Vote};
use slot_table::SlotTable;
use std::alloc::{AllocError, Global};

/// Gives the slot a row, if it has none.
#[tactic(auto, using(crate::proofs::Rows::knows_same, crate::proofs::Rows::counts_same))]
pub(crate) fn reserve(table: &mut SlotTable<Row>, slot: &Slot) -> Result<(), AllocError>
    ensures known { KnowsSame table.old table.new }
    ensures counted { CountsSame table.old table.new }
    ensures rooms { HasRooms table.old table.new }
    ensures present { OnOk result (IsSome (row_at table.new slot.now)) }
    ensures succeeds { IsSome (row_at table.old slot.now) → IsOk result }
{
    table.reserve(slot, Row::Unheard)
}

/// Hears that a site cast a vote for the slot, and says whether the vote's bag is learned from it:
/// then nothing changes.
pub(crate) fn add_vote<Q: Quorums>(
    alloc: Global,
    table: &mut SlotTable<Row>,
    members: &Q,
    slot: &Slot,
    vote: &Vote,
    from: SiteNo,
) -> Result<bool, AllocError>
    ensures known { KnowsSame table.old table.new }
    ensures learned { IfOk result (λ learned. learned
        ≡ is_learned (Q.quorum_system members.now) (known_in (row_at table.old slot.now))
        (with_voter (counted_in (row_at table.old slot.now) vote.now) from)) }
    ensures unchanged { IfOk result (λ learned. IsTrue learned → table.new ≡ table.old) }
    ensures counted { IfOk result (λ learned. learned ≡ false
        → UnlessKnown (known_in (row_at table.old slot.now)) (CountsSame table.old table.new)
        (IsCounted table.old table.new slot.now vote.now
        (with_voter (counted_in (row_at table.old slot.now) vote.now) from))) }
    ensures err { OnErr result (CountsSame table.old table.new) }
    ensures memory { OnErr result (false
        ≡ is_learned (Q.quorum_system members.now) (known_in (row_at table.old slot.now))
        (with_voter (counted_in (row_at table.old slot.now) vote.now) from)) }
    ensures unknown { OnErr result (known_in (row_at table.old slot.now) ≡ None) }
    ensures rooms { HasRooms table.old table.new }
{
    match table.get_mut(slot) {
        Some(row) => row.add_vote(alloc, members, vote, from),
        None => {
            let mut row = Row::Unheard;
            let learned = row.add_vote(alloc, members, vote, from)?;
            if !learned {
                table.reserve(slot, row)?;
            }
            Ok(learned)
        }
    }
}

/// The bag of a slot that has a row is known, unless another was known before.
pub(crate) fn settle(table: &mut SlotTable<Row>, slot: &Slot, bag: BagId)
    requires { IsSome (row_at table.old slot.now) }
    ensures { IsWith table.old table.new slot.now
        (rows.Known (first_known (known_in (row_at table.old slot.now)) bag)) }
{
    if let Some(row) = table.get_mut(slot) {
        row.settle(bag);
    }
}
