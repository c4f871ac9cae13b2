ghost use Rattle.std.specs.Prelude.{◌≡◌, ◌++◌, ◌∷◌, [], List, Some, OnOk, OnErr, IsOk, IsSome};
ghost use Rattle.fed_types.specs.Slots.{SlotName};
ghost use Rattle.records.specs.Records.{Records};
ghost use Rattle.records.specs.SlotStates.{vote_of};
ghost use Rattle.slot_table.specs.Rows.{row_at, IsWith, HasRooms};
ghost use Rattle.acceptor.specs.Decisions.{
  on_prepare,
  on_accept,
  refuses,
  on_new_accept,
  is_vote,
  is_in_ballot,
  prepare_decision,
  accept_decision,
};
ghost use Rattle.acceptor.specs.Rows.{Represents, KnowsSame, row_of};
ghost use Rattle.acceptor.specs.inner.Noted.{noted};

use crate::decision::{Decision, Response};
use crate::row::Row;
use fed_types::{BagId, Ballot, Slot, Vote};
use records::{Entry, Record};
use slot_table::SlotTable;
use std::alloc::{AllocError, Global};
use std::marker::Model;

/// An acceptor. It is made for no records, and takes note of each record that the site has
/// committed. A clause sees its rows, by slot.
#[derive(Drop)]
pub struct Acceptor {
    table: SlotTable<Row>,
}

impl Model for Acceptor {
    ghost use Rattle.slot_table.specs.Rows.{Rows};
    ghost use Rattle.acceptor.specs.declared.row.Row.{Row};

    ghost Value = { Rows Row };

    ghost view = { λ a. a.table };
}

impl Acceptor {
    /// An acceptor without records.
    #[tactic(auto, unfolding(records::specs::SlotStates::promised_of, records::specs::SlotStates::vote_of))]
    pub fn new(alloc: Global) -> Acceptor
        ensures { Represents result [] }
    {
        Acceptor {
            table: SlotTable::new(alloc),
        }
    }

    /// The slot's vote, the one of the greatest ballot.
    pub fn vote(&self, slot: &Slot) -> Option<Vote>
        ensures { (records : Records) → Represents self.now records
            → result ≡ vote_of slot.now records }
    {
        self.row(slot).vote
    }

    /// What it decides when it is asked to promise a ballot. It takes no memory and changes
    /// nothing.
    #[tactic(auto, unfolding(crate::specs::Decisions::prepare_decision))]
    pub fn prepare(&self, slot: &Slot, ballot: Ballot) -> Decision
        ensures { (records : Records) → Represents self.now records
            → result ≡ prepare_decision slot.now records ballot }
    {
        prepared(self.row(slot), ballot)
    }

    /// What it decides when it is asked to vote for a bag in a ballot. It takes no memory and
    /// changes nothing.
    #[tactic(auto, unfolding(crate::specs::Decisions::accept_decision))]
    pub fn accept(&self, slot: &Slot, ballot: Ballot, bag: BagId) -> Decision
        ensures { (records : Records) → Represents self.now records
            → result ≡ accept_decision slot.now records (record { ballot = ballot; bag = bag }) }
    {
        accepted(self.row(slot), Vote { ballot, bag })
    }

    /// Makes room for the slot, so that `note` of its records takes no memory. It says nothing of
    /// the slot.
    pub fn reserve(&mut self, slot: &Slot) -> Result<(), AllocError>
        ensures same { KnowsSame self.old self.new }
        ensures rooms { HasRooms self.old self.new }
        ensures present { OnOk result (IsSome (row_at self.new slot.now)) }
        ensures succeeds { IsSome (row_at self.old slot.now) → IsOk result }
    {
        self.table.reserve(slot, Row::EMPTY)
    }

    /// Takes note of a record that was committed.
    pub fn note(&mut self, new: &Record) -> Result<(), AllocError>
        ensures noted { OnOk result ((records : Records)
            → Represents self.old records → Represents self.new (records ++ new.now ∷ [])) }
        ensures unchanged { OnErr result (KnowsSame self.old self.new) }
        ensures rooms { HasRooms self.old self.new }
        ensures succeeds { IsSome (row_at self.old new.now.slot) → IsOk result }
    {
        self.reserve(&new.slot)?;
        note_in(&mut self.table, new);
        Ok(())
    }

    // What is known of the slot.
    fn row(&self, slot: &Slot) -> Row
        ensures { result ≡ row_of self.now slot.now }
    {
        match self.table.get(slot) {
            Some(row) => *row,
            None => Row::EMPTY,
        }
    }
}

// Takes note of a record in the row of its slot.
fn note_in(table: &mut SlotTable<Row>, new: &Record)
    requires { IsSome (row_at table.old new.now.slot) }
    ensures { IsWith table.old table.new new.now.slot
        (noted (row_of table.old new.now.slot) (Some new.now.body)) }
{
    if let Some(row) = table.get_mut(&new.slot) {
        *row = row.noted(&new.body);
    }
}

fn prepared(row: Row, ballot: Ballot) -> Decision
    ensures { result ≡ on_prepare row.promised row.vote ballot }
{
    match row.promised {
        Some(promised) if promised >= ballot => refused(ballot, promised),
        _ => Decision {
            entry: Some(Entry::Promise(ballot)),
            answer: Response::Promised(ballot, row.vote),
        },
    }
}

fn accepted(row: Row, asked: Vote) -> Decision
    ensures { result ≡ on_accept row.promised row.vote asked }
{
    if is_vote(row.vote, asked.ballot, asked.bag) {
        Decision {
            entry: None,
            answer: Response::Accepted(asked),
        }
    } else {
        newly_accepted(row, asked)
    }
}

fn newly_accepted(row: Row, asked: Vote) -> Decision
    ensures { result ≡ on_new_accept row.promised row.vote asked }
{
    match row.promised {
        Some(promised) if asked.ballot < promised || is_in_ballot(row.vote, asked.ballot) => {
            refused(asked.ballot, promised)
        }
        _ => Decision {
            entry: Some(Entry::Vote(asked)),
            answer: Response::Accepted(asked),
        },
    }
}

fn refused(asked: Ballot, standing: Ballot) -> Decision
    ensures { result ≡ refuses asked standing }
{
    Decision {
        entry: None,
        answer: Response::Refused { asked, standing },
    }
}

fn is_vote(vote: Option<Vote>, ballot: Ballot, bag: BagId) -> bool
    ensures { result ≡ is_vote (record { ballot = ballot; bag = bag }) vote }
{
    match vote {
        Some(vote) => vote.ballot == ballot && vote.bag == bag,
        None => false,
    }
}

fn is_in_ballot(vote: Option<Vote>, ballot: Ballot) -> bool
    ensures { result ≡ is_in_ballot ballot vote }
{
    match vote {
        Some(vote) => vote.ballot == ballot,
        None => false,
    }
}
