ghost use Rattle.std.specs.Prelude.{◌≡◌, max, [], Some, None, Err};
ghost use Rattle.std.specs.Prelude.{OnOk, OnErr, IfOk, IsOk, IsSome};
ghost use Rattle.fed_types.specs.Faults.{IsOrFault};
ghost use Rattle.records.specs.Records.{Records};
ghost use Rattle.slot_table.specs.Rows.{row_at, IsWith, HasRooms};
ghost use Rattle.proposer.specs.Proposals.{next_ballot, ready, ballot_after};
ghost use Rattle.proposer.specs.VolatileStates.{VolatileState, new_volatile};
ghost use Rattle.proposer.specs.UnderWay.{UnderWay, nothing, begins};
ghost use Rattle.proposer.specs.VolatileStates.{promise_message};
ghost use Rattle.proposer.specs.Steps.{HearsPromise, IssuesProposal, HearsRefusal, NotesRecord};
ghost use Rattle.proposer.specs.BallotStates.{state_of};
ghost use Rattle.proposer.specs.Faults.{next_or_spent};
ghost use Rattle.proposer.specs.Rows.{Represents, IsOfSameSite, KnowsSame, row_of};
ghost use Rattle.proposer.specs.inner.Rows.{BeginsAt, HeardAt, IssuesAt};
ghost use Rattle.proposer.specs.inner.Rows.{with_begun, with_floor, noted_row};

use crate::ballot_state::{Plan, Promise};
use crate::fault::ProposeFault;
use crate::row::Row;
use fed_types::{BagId, Ballot, Quorums, SiteNo, Slot, Vote};
use records::Record;
use slot_table::SlotTable;
use std::alloc::{AllocError, Global};
use std::marker::Model;

/// A proposer of a site, by the quorums of its federation. A clause sees these, and its rows by
/// slot.
#[derive(Drop)]
pub struct Proposer<Q: Quorums + Drop> {
    alloc: Global,
    members: Q,
    site: SiteNo,
    table: SlotTable<Row>,
}

impl<Q: Quorums + Drop> Model for Proposer<Q> {
    ghost use Rattle.proposer.specs.Rows.{ProposerState};

    ghost Value = { ProposerState Q };

    ghost view = { λ p. record { members = p.members; site = p.site; rows = p.table } };
}

impl<Q: Quorums + Drop> Proposer<Q> {
    /// A proposer that knows of no record and has heard nothing.
    pub fn new(alloc: Global, members: Q, site: SiteNo) -> Proposer<Q>
        ensures stands { Represents result.rows [] new_volatile nothing }
        ensures whose { (result.members ≡ members) × (result.site ≡ site) }
    {
        Proposer {
            alloc,
            members,
            site,
            table: SlotTable::new(alloc),
        }
    }

    /// Makes room for the slot, so that `note` of its records takes no memory. It says nothing
    /// about the slot.
    pub fn reserve(&mut self, slot: &Slot) -> Result<(), AllocError>
        ensures same { KnowsSame self.old.rows self.new.rows }
        ensures present { OnOk result (IsSome (row_at self.new.rows slot.now)) }
        ensures succeeds { IsSome (row_at self.old.rows slot.now) → IsOk result }
        ensures rooms { HasRooms self.old.rows self.new.rows }
        ensures whose { IsOfSameSite self.old self.new }
    {
        self.table.reserve(slot, Row::empty())
    }

    /// Begins the slot's next ballot. It becomes current once its Round record is noted, which
    /// takes no memory. `RoundsSpent` if the greatest round was used or named in a refusal; else
    /// `Memory` if an allocation fails.
    pub fn begin(&mut self, slot: &Slot) -> Result<Ballot, ProposeFault>
        ensures answer { (records : Records) (volatile : VolatileState) (under : UnderWay)
            → Represents self.old.rows records volatile under
            → IsOrFault ProposeFault.Memory result
            (next_or_spent (next_ballot self.old.site slot.now records volatile.heard)) }
        ensures spent { (records : Records) (volatile : VolatileState) (under : UnderWay)
            → Represents self.old.rows records volatile under
            → next_ballot self.old.site slot.now records volatile.heard ≡ None
            → result ≡ Err ProposeFault.RoundsSpent }
        ensures begun { IfOk result (λ ballot.
            (records : Records) (volatile : VolatileState) (under : UnderWay)
            → Represents self.old.rows records volatile under
            → Represents self.new.rows records volatile (begins under slot.now ballot)) }
        ensures present { IfOk result (λ ballot. IsSome (row_at self.new.rows slot.now)) }
        ensures unchanged { OnErr result (KnowsSame self.old.rows self.new.rows) }
        ensures rooms { HasRooms self.old.rows self.new.rows }
        ensures whose { IsOfSameSite self.old self.new }
    {
        match self.next(slot) {
            None => Err(ProposeFault::RoundsSpent),
            Some(ballot) => match self.begin_ballot(slot, Plan::new(ballot)) {
                Ok(()) => Ok(ballot),
                Err(_) => Err(ProposeFault::Memory),
            },
        }
    }

    /// Hears a promise, and gives the bag to propose exactly when it makes the proposal ready: the
    /// bag of the highest vote named, or, if none is named, the own one, if there is one. Then the
    /// promise waits, and counts once `issued` is called. If a quorum has promised and there is no
    /// bag, nothing is proposed in this ballot. It takes no memory.
    pub fn promise(
        &mut self,
        from: SiteNo,
        slot: &Slot,
        ballot: Ballot,
        prior: Option<Vote>,
        own: Option<BagId>,
    ) -> Option<BagId>
        ensures ready { (records : Records) (volatile : VolatileState) (under : UnderWay)
            → Represents self.old.rows records volatile under
            → result ≡ ready (Q.quorum_system self.old.members) own slot.now
            (volatile.current slot.now) volatile.heard ballot
            (record { site = from; prior = prior }) }
        ensures heard { HearsPromise (Represents self.old.rows) (Represents self.new.rows)
            (promise_message slot.now from ballot prior) result }
        ensures rooms { HasRooms self.old.rows self.new.rows }
        ensures whose { IsOfSameSite self.old self.new }
    {
        let promise = Promise { site: from, prior };
        promise_in(&mut self.table, &self.members, slot, ballot, &promise, own)
    }

    /// The proposal that became ready is sent: the promise that waits counts from now on, if one
    /// waits. It takes no memory.
    pub fn issued(&mut self, slot: &Slot)
        ensures heard { IssuesProposal (Represents self.old.rows) (Represents self.new.rows)
            slot.now }
        ensures rooms { HasRooms self.old.rows self.new.rows }
        ensures whose { IsOfSameSite self.old self.new }
    {
        issue_in(&mut self.table, slot);
    }

    /// Hears a refusal, which raises the slot's next round.
    pub fn refused(&mut self, slot: &Slot, standing: Ballot) -> Result<(), AllocError>
        ensures heard { OnOk result (HearsRefusal (Represents self.old.rows)
            (Represents self.new.rows) slot.now standing) }
        ensures unchanged { OnErr result (KnowsSame self.old.rows self.new.rows) }
        ensures succeeds { IsSome (row_at self.old.rows slot.now) → IsOk result }
        ensures rooms { HasRooms self.old.rows self.new.rows }
        ensures whose { IsOfSameSite self.old self.new }
    {
        self.reserve(slot)?;
        refuse_in(&mut self.table, slot, standing.round());
        Ok(())
    }

    /// Notes a record that was committed. The Round of a ballot that was begun makes it current,
    /// and older promises no longer count.
    pub fn note(&mut self, new: &Record) -> Result<(), AllocError>
        ensures noted { OnOk result (NotesRecord (Represents self.old.rows)
            (Represents self.new.rows) new.now) }
        ensures unchanged { OnErr result (KnowsSame self.old.rows self.new.rows) }
        ensures succeeds { IsSome (row_at self.old.rows new.now.slot) → IsOk result }
        ensures rooms { HasRooms self.old.rows self.new.rows }
        ensures whose { IsOfSameSite self.old self.new }
    {
        self.reserve(&new.slot)?;
        note_in(&mut self.table, new);
        Ok(())
    }

    // The slot's next ballot, while rounds are left.
    fn next(&self, slot: &Slot) -> Option<Ballot>
        ensures { result ≡ ballot_after self.now.site
            (max (row_of self.now.rows slot.now).used (row_of self.now.rows slot.now).floor) }
    {
        match self.table.get(slot) {
            Some(row) => ballot_after(row.last_round(), self.site),
            None => ballot_after(0, self.site),
        }
    }

    // Begins a ballot.
    fn begin_ballot(&mut self, slot: &Slot, plan: Plan) -> Result<(), AllocError>
        ensures begun { OnOk result
            (BeginsAt (state_of plan) self.old.rows self.new.rows slot.now) }
        ensures present { OnOk result (IsSome (row_at self.new.rows slot.now)) }
        ensures unchanged { OnErr result (KnowsSame self.old.rows self.new.rows) }
        ensures rooms { HasRooms self.old.rows self.new.rows }
        ensures whose { IsOfSameSite self.old self.new }
    {
        let plan = Box::new(self.alloc, plan)?;
        self.reserve(slot)?;
        begin_in(&mut self.table, slot, plan);
        Ok(())
    }
}

// The ballot of the round after this one, while rounds are left.
fn ballot_after(last: u32, site: SiteNo) -> Option<Ballot>
    ensures { result ≡ ballot_after site last }
{
    if last == u32::MAX {
        return None;
    }
    Ballot::new(last + 1, site).ok()
}

// Begins a ballot in the slot's row.
fn begin_in(table: &mut SlotTable<Row>, slot: &Slot, plan: Box<Plan>)
    requires { IsSome (row_at table.old slot.now) }
    ensures { IsWith table.old table.new slot.now
        (with_begun (row_of table.old slot.now) plan) }
{
    if let Some(row) = table.get_mut(slot) {
        row.begun = Some(plan);
    }
}

// Raises the floor of the slot's row.
fn refuse_in(table: &mut SlotTable<Row>, slot: &Slot, round: u32)
    requires { IsSome (row_at table.old slot.now) }
    ensures { IsWith table.old table.new slot.now
        (with_floor (row_of table.old slot.now) round) }
{
    if let Some(row) = table.get_mut(slot) {
        row.floor = row.floor.max(round);
    }
}

// Takes note of a record in the row of its slot.
fn note_in(table: &mut SlotTable<Row>, new: &Record)
    requires { IsSome (row_at table.old new.now.slot) }
    ensures { IsWith table.old table.new new.now.slot
        (noted_row (row_of table.old new.now.slot) (Some new.now.body)) }
{
    if let Some(row) = table.get_mut(&new.slot) {
        row.note(&new.body);
    }
}

// Hears a promise in the slot's row. A slot without one has no current ballot.
fn promise_in<Q: Quorums>(
    table: &mut SlotTable<Row>,
    members: &Q,
    slot: &Slot,
    ballot: Ballot,
    promise: &Promise,
    own: Option<BagId>,
) -> Option<BagId>
    ensures heard { HeardAt (Q.quorum_system members.now) own ballot promise.now table.old
        table.new slot.now result }
    ensures rooms { HasRooms table.old table.new }
{
    match table.get_mut(slot) {
        Some(row) => row.promise(members, ballot, promise, own),
        None => None,
    }
}

// Counts what waits in the slot's row.
fn issue_in(table: &mut SlotTable<Row>, slot: &Slot)
    ensures issued { IssuesAt table.old table.new slot.now }
    ensures rooms { HasRooms table.old table.new }
{
    match table.get_mut(slot) {
        Some(row) => row.issued(),
        None => {}
    }
}
