ghost use Rattle.std.specs.Prelude.{◌≡◌, ◌++◌, ◌∷◌, [], None, Option, Err};
ghost use Rattle.std.specs.Prelude.{OnOk, OnErr, IfOk, IsOk, IsSome};
ghost use Rattle.std.specs.Option.{option_copied};
ghost use Rattle.fed_types.specs.Faults.{IsOrFault};
ghost use Rattle.fed_types.specs.Quorums.{quorums_of};
ghost use Rattle.records.specs.declared.owner.Owner.{Owner as declared_owner};
ghost use Rattle.records.specs.Records.{Records};
ghost use Rattle.records.specs.SlotStates.{deposit_of, known_of, vote_of};
ghost use Rattle.acceptor.specs.Decisions.{prepare_decision, accept_decision};
ghost use Rattle.proposer.specs.Faults.{next_or_spent};
ghost use Rattle.proposer.specs.Proposals.{next_ballot, ready};
ghost use Rattle.proposer.specs.VolatileStates.{VolatileState, new_volatile};
ghost use Rattle.proposer.specs.VolatileStates.{promise_message, hears};
ghost use Rattle.proposer.specs.UnderWay.{UnderWay, nothing, begins};
ghost use Rattle.proposer.specs.Steps.{HearsPromise, IssuesProposal, HearsRefusal, NotesRecord};
ghost use Rattle.learner.specs.LearnedBags.{learned_from, learned_of_known};
ghost use Rattle.dgram.specs.declared.body.Body.TheVariants.{Accepted};
ghost use Rattle.site.specs.Contents.{IsOf, IsOfSame, Represents, RepresentsSame, HasRoom};
ghost use Rattle.site.specs.Contents.{deposits_of, slot_at};

use crate::deposits::Deposits;
use acceptor::{Acceptor, Decision};
use fed_types::{BagId, Ballot, Members, SiteNo, Slot, Vote};
use learner::Learner;
use proposer::{ProposeFault, Proposer};
use records::{Entry, Owner, Record};
use std::alloc::{AllocError, Global};
use std::marker::Model;

/// What a site knows of every slot. A clause sees its `Contents`.
#[derive(Drop)]
pub struct Tables {
    deposits: Deposits,
    acceptor: Acceptor,
    proposer: Proposer<Members>,
    learner: Learner<Members>,
}

impl Model for Tables {
    ghost use Rattle.site.specs.Contents.{Contents};

    ghost Value = { Contents };

    ghost view = { λ t. record {
      deposits = t.deposits.bags;
      spare = t.deposits.room;
      depositing = t.deposits.by_slot;
      acceptor = t.acceptor;
      proposer = t.proposer;
      learner = t.learner;
    } };
}

impl Tables {
    /// The tables of a site without records that has heard nothing.
    pub fn new(alloc: Global, owner: &Owner) -> Tables
        ensures of { IsOf result owner.now [] }
        ensures stands { Represents result [] new_volatile nothing }
    {
        Tables {
            deposits: Deposits::new(alloc),
            acceptor: Acceptor::new(alloc),
            proposer: Proposer::new(alloc, owner.members, owner.site),
            learner: Learner::new(alloc, owner.members),
        }
    }

    /// The tables of a site with these records that has heard nothing.
    pub fn of(alloc: Global, owner: &Owner, records: &[Record]) -> Result<Tables, AllocError>
        ensures of { IfOk result (λ t. IsOf t owner.now records.now) }
        ensures stands { IfOk result (λ t. Represents t records.now new_volatile nothing) }
    {
        let mut tables = Tables::new(alloc, owner);
        for r in records {
            tables.reserve(&r.slot)?;
            tables.note(r.copy(alloc)?);
        }
        Ok(tables)
    }

    /// The slot's deposit.
    pub fn deposit(&self, slot: &Slot) -> Option<BagId>
        ensures { (owner : declared_owner) (records : Records)
            → IsOf self.now owner records → result ≡ deposit_of slot.now records }
    {
        self.deposits.of(slot)
    }

    /// The slot at this place, counted from 0, among those that have a deposit, in the order of
    /// their records.
    pub fn deposited(&self, place: usize) -> Option<&Slot>
        ensures { (owner : declared_owner) (records : Records)
            → IsOf self.now owner records
            → option_copied result ≡ slot_at (deposits_of records) place }
    {
        self.deposits.slot_at(place)
    }

    /// The slot's known bag.
    pub fn known(&self, slot: &Slot) -> Option<BagId>
        ensures { (owner : declared_owner) (records : Records)
            → IsOf self.now owner records → result ≡ known_of slot.now records }
    {
        self.learner.known(slot)
    }

    /// The slot's vote, the one of the greatest ballot.
    pub fn vote(&self, slot: &Slot) -> Option<Vote>
        ensures { (owner : declared_owner) (records : Records)
            → IsOf self.now owner records → result ≡ vote_of slot.now records }
    {
        self.acceptor.vote(slot)
    }

    /// What the acceptor decides when it is asked to promise a ballot.
    pub fn prepare(&self, slot: &Slot, ballot: Ballot) -> Decision
        ensures { (owner : declared_owner) (records : Records)
            → IsOf self.now owner records
            → result ≡ prepare_decision slot.now records ballot }
    {
        self.acceptor.prepare(slot, ballot)
    }

    /// What the acceptor decides when it is asked to vote.
    pub fn accept(&self, slot: &Slot, vote: Vote) -> Decision
        ensures { (owner : declared_owner) (records : Records)
            → IsOf self.now owner records → result ≡ accept_decision slot.now records vote }
    {
        self.acceptor.accept(slot, vote.ballot, vote.bag)
    }

    /// Begins the slot's next ballot.
    pub fn begin(&mut self, slot: &Slot) -> Result<Ballot, ProposeFault>
        ensures answer { (owner : declared_owner) (records : Records)
            (volatile : VolatileState) (under : UnderWay) → IsOf self.old owner records
            → Represents self.old records volatile under
            → IsOrFault ProposeFault.Memory result
            (next_or_spent (next_ballot owner.site slot.now records volatile.heard)) }
        ensures spent { (owner : declared_owner) (records : Records)
            (volatile : VolatileState) (under : UnderWay) → IsOf self.old owner records
            → Represents self.old records volatile under
            → next_ballot owner.site slot.now records volatile.heard ≡ None
            → result ≡ Err ProposeFault.RoundsSpent }
        ensures begun { IfOk result (λ ballot. (records : Records)
            (volatile : VolatileState) (under : UnderWay)
            → Represents self.old records volatile under
            → Represents self.new records volatile (begins under slot.now ballot)) }
        ensures of { IsOfSame self.old self.new }
        ensures same { OnErr result (RepresentsSame self.old self.new) }
    {
        self.proposer.begin(slot)
    }

    /// Hears a promise, and gives the bag to propose exactly when it makes the proposal ready: the
    /// bag of the highest vote named, or else the slot's deposit, if there is one. Then the promise
    /// waits, and is heard once `issued` is called.
    pub fn promise(
        &mut self,
        from: SiteNo,
        slot: &Slot,
        ballot: Ballot,
        prior: Option<Vote>,
    ) -> Option<BagId>
        ensures ready { (owner : declared_owner) (records : Records)
            (volatile : VolatileState) (under : UnderWay) → IsOf self.old owner records
            → Represents self.old records volatile under
            → result ≡ ready (quorums_of owner.members) (deposit_of slot.now records) slot.now
            (volatile.current slot.now) volatile.heard ballot
            (record { site = from; prior = prior }) }
        ensures heard { HearsPromise (Represents self.old) (Represents self.new)
            (promise_message slot.now from ballot prior) result }
        ensures of { IsOfSame self.old self.new }
    {
        let own = self.deposits.of(slot);
        self.proposer.promise(from, slot, ballot, prior, own)
    }

    /// The proposal that became ready is sent: the promise that waits is heard, if one waits.
    pub fn issued(&mut self, slot: &Slot)
        ensures heard { IssuesProposal (Represents self.old) (Represents self.new) slot.now }
        ensures of { IsOfSame self.old self.new }
    {
        self.proposer.issued(slot);
    }

    /// Hears a refusal, which raises the slot's next round.
    pub fn refused(&mut self, slot: &Slot, standing: Ballot) -> Result<(), AllocError>
        ensures heard { OnOk result (HearsRefusal (Represents self.old)
            (Represents self.new) slot.now standing) }
        ensures of { IsOfSame self.old self.new }
        ensures same { OnErr result (RepresentsSame self.old self.new) }
    {
        self.proposer.refused(slot, standing)
    }

    /// Hears a vote, and gives the bag that is learned from it: then nothing changes.
    pub fn accepted(
        &mut self,
        from: SiteNo,
        slot: &Slot,
        vote: Vote,
    ) -> Result<Option<BagId>, AllocError>
        ensures learned { IfOk result (λ o. (owner : declared_owner)
            (records : Records) (volatile : VolatileState) (under : UnderWay)
            → IsOf self.old owner records → Represents self.old records volatile under
            → o ≡ learned_from (quorums_of owner.members) slot.now records volatile.heard from
            vote) }
        ensures heard { IfOk result (λ o. o ≡ None → (records : Records)
            (volatile : VolatileState) (under : UnderWay)
            → Represents self.old records volatile under
            → Represents self.new records
            (hears volatile (record { slot = slot.now; body = Accepted from vote })) under) }
        ensures unchanged { IfOk result (λ o. IsSome o → self.new ≡ self.old) }
        ensures of { IsOfSame self.old self.new }
        ensures same { OnErr result (RepresentsSame self.old self.new) }
        // Memory can run out only if nothing is learned, and the vote still counts.
        ensures no_memory { OnErr result ((owner : declared_owner)
            (records : Records) (volatile : VolatileState) (under : UnderWay)
            → IsOf self.old owner records → Represents self.old records volatile under
            → (known_of slot.now records ≡ None)
            × (learned_from (quorums_of owner.members) slot.now records volatile.heard from vote
            ≡ None)) }
    {
        self.learner.accepted(from, slot, vote.ballot, vote.bag)
    }

    /// What is learned from a site that knows this bag.
    pub fn told(&self, slot: &Slot, bag: BagId) -> Option<BagId>
        ensures { (owner : declared_owner) (records : Records)
            → IsOf self.now owner records
            → result ≡ learned_of_known slot.now records bag }
    {
        self.learner.told(slot, bag)
    }

    /// Makes room for a record of this slot.
    pub fn reserve(&mut self, slot: &Slot) -> Result<(), AllocError>
        ensures same { RepresentsSame self.old self.new }
        ensures room { OnOk result (HasRoom self.new slot.now) }
        ensures succeeds { HasRoom self.old slot.now → IsOk result }
    {
        self.deposits.reserve(slot)?;
        self.acceptor.reserve(slot)?;
        self.proposer.reserve(slot)?;
        self.learner.reserve(slot)
    }

    /// Notes a record that was committed, for which there is room. It takes no memory.
    pub fn note(&mut self, new: Record)
        requires { HasRoom self.old new.slot }
        ensures of { (owner : declared_owner) (records : Records)
            → IsOf self.old owner records → IsOf self.new owner (records ++ new ∷ []) }
        ensures stands { NotesRecord (Represents self.old) (Represents self.new) new }
    {
        let _ = self.acceptor.note(&new);
        let _ = self.proposer.note(&new);
        let _ = self.learner.note(&new);
        let Record { slot, body } = new;
        if let Entry::Deposit(bag) = body {
            self.deposits.note(slot, bag);
        }
    }
}
