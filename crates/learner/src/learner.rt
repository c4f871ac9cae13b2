ghost use Rattle.std.specs.Prelude.{
  ◌≡◌,
  ◌++◌,
  ◌∷◌,
  [],
  List,
  None,
  Option,
  OnOk,
  OnErr,
  IfOk,
  IsOk,
  IsSome,
};
ghost use Rattle.records.specs.Records.{Records};
ghost use Rattle.records.specs.SlotStates.{known_of, known_in as known_in_entry};
ghost use Rattle.dgram.specs.declared.message.Message.{Message};
ghost use Rattle.slot_table.specs.Rows.{row_at, HasRooms};
ghost use Rattle.learner.specs.LearnedBags.{with_vote, learned_from, learned_of_known};
ghost use Rattle.learner.specs.LearnerStates.{Represents, RepresentsSame, known_in};

use crate::row::Row;
use crate::table::{add_vote, reserve, settle};
use fed_types::{BagId, Ballot, Quorums, SiteNo, Slot, Vote};
use records::{Entry, Record};
use slot_table::SlotTable;
use std::alloc::{AllocError, Global};
use std::marker::Model;

/// A learner. It is made for no records, hears votes, and notes each record that the site has
/// committed. A clause sees a `LearnerState`.
#[derive(Drop)]
pub struct Learner<Q: Quorums + Drop> {
    alloc: Global,
    members: Q,
    table: SlotTable<Row>,
}

impl<Q: Quorums + Drop> Model for Learner<Q> {
    ghost use Rattle.learner.specs.LearnerStates.{LearnerState};

    ghost Value = { LearnerState Q };

    ghost view = { λ l. record { members = l.members; rows = l.table } };
}

impl<Q: Quorums + Drop> Learner<Q> {
    /// A learner without records that has heard nothing.
    #[tactic(auto, unfolding(records::specs::SlotStates::known_of, dgram::specs::Heard::voters_for, dgram::specs::Heard::bodies_of))]
    pub fn new(alloc: Global, members: Q) -> Learner<Q>
        ensures stands { Represents result.rows [] [] }
        ensures members { result.members ≡ members }
    {
        Learner {
            alloc,
            members,
            table: SlotTable::new(alloc),
        }
    }

    /// The known bag of the slot, if a Known record of it was noted. It takes no memory.
    pub fn known(&self, slot: &Slot) -> Option<BagId>
        ensures row { result ≡ known_in (row_at self.now.rows slot.now) }
        ensures known { (records : Records) (heard : List Message)
            → Represents self.now.rows records heard → result ≡ known_of slot.now records }
    {
        match self.table.get(slot) {
            Some(Row::Known(bag)) => Some(*bag),
            _ => None,
        }
    }

    /// What is learned from a site that knows this bag. It takes no memory.
    pub fn told(&self, slot: &Slot, bag: BagId) -> Option<BagId>
        ensures { (records : Records) (heard : List Message)
            → Represents self.now.rows records heard
            → result ≡ learned_of_known slot.now records bag }
    {
        match self.known(slot) {
            None => Some(bag),
            Some(_) => None,
        }
    }

    /// Hears that a site, a member, has cast a vote. Gives the bag that is learned from it; then
    /// nothing changes, and the Known record settles the slot once it is noted.
    pub fn accepted(
        &mut self,
        from: SiteNo,
        slot: &Slot,
        ballot: Ballot,
        bag: BagId,
    ) -> Result<Option<BagId>, AllocError>
        ensures learned { IfOk result (λ o. (records : Records)
            (heard : List Message) → Represents self.old.rows records heard
            → o ≡ learned_from (Q.quorum_system self.old.members) slot.now records heard from
            (record { ballot = ballot; bag = bag })) }
        ensures heard { IfOk result (λ o. o ≡ None → (records : Records)
            (heard : List Message) → Represents self.old.rows records heard
            → Represents self.new.rows records (with_vote heard slot.now from
            (record { ballot = ballot; bag = bag }))) }
        ensures unchanged { IfOk result (λ o. IsSome o → self.new ≡ self.old) }
        ensures memory { OnErr result (RepresentsSame self.old.rows self.new.rows) }
        // Memory can run out only if nothing is learned, and the vote still counts.
        ensures no_memory { OnErr result ((records : Records)
            (heard : List Message) → Represents self.old.rows records heard
            → (known_of slot.now records ≡ None)
            × (learned_from (Q.quorum_system self.old.members) slot.now records heard from
            (record { ballot = ballot; bag = bag }) ≡ None)) }
        ensures rooms { HasRooms self.old.rows self.new.rows }
        ensures members { self.new.members ≡ self.old.members }
    {
        let vote = Vote { ballot, bag };
        let learned = add_vote(
            self.alloc,
            &mut self.table,
            &self.members,
            slot,
            &vote,
            from,
        )?;
        if learned {
            return Ok(Some(bag));
        }
        Ok(None)
    }

    /// Makes room for the slot, so that `note` of its records takes no memory. It says nothing
    /// about the slot.
    pub fn reserve(&mut self, slot: &Slot) -> Result<(), AllocError>
        ensures same { RepresentsSame self.old.rows self.new.rows }
        ensures rooms { HasRooms self.old.rows self.new.rows }
        ensures present { OnOk result (IsSome (row_at self.new.rows slot.now)) }
        ensures succeeds { IsSome (row_at self.old.rows slot.now) → IsOk result }
        ensures members { self.new.members ≡ self.old.members }
    {
        reserve(&mut self.table, slot)
    }

    /// Takes note of a record that was committed.
    pub fn note(&mut self, new: &Record) -> Result<(), AllocError>
        ensures noted { OnOk result ((records : Records) (heard : List Message)
            → Represents self.old.rows records heard
            → Represents self.new.rows (records ++ new.now ∷ []) heard) }
        ensures memory { OnErr result (RepresentsSame self.old.rows self.new.rows) }
        // Memory is taken for a Known record alone, of a slot without room.
        ensures no_memory { OnErr result (IsSome (known_in_entry new.now.body)) }
        ensures succeeds { IsSome (row_at self.old.rows new.now.slot) → IsOk result }
        ensures rooms { HasRooms self.old.rows self.new.rows }
        ensures members { self.new.members ≡ self.old.members }
    {
        if let Entry::Known(bag) = new.body {
            reserve(&mut self.table, &new.slot)?;
            settle(&mut self.table, &new.slot, bag);
        }
        Ok(())
    }
}
