//! Many calls, and one sync.

ghost use Rattle.std.specs.Prelude.{◌≡◌, ◌↔◌, ◌<◌, true, false, [], length, Some, IfOk, OnOk};
ghost use Rattle.std.specs.Prelude.{IsErrOf};
ghost use Rattle.std.specs.Vec.{vec_capacity, vec_len};
ghost use Rattle.bag_check.specs.Check.{check_of};
ghost use Rattle.book.specs.Batches.{HoldsFirst, Syncs, synced_book, waiting};
ghost use Rattle.dgram.specs.Decoded.{message_of};
ghost use Rattle.proposer.specs.VolatileStates.{VolatileState};
ghost use Rattle.site.specs.Batches.{Calls, Queries, RefusesOnly, done_of};
ghost use Rattle.site.specs.Calls.{Deposits, Proposes, Recovers, Asks, Arrives};
ghost use Rattle.site.specs.Sites.{Represents};

use crate::fault::SiteFault;
use crate::member_site::Site;
use crate::sealed_answer::SealedAnswer;
use bag_tree::Facts;
use book::{CommitFault, SyncedCell, Waiting};
use cell_device::Cell;
use dgram::Message;
use fed_types::{Members, SiteNo, Slot};
use std::alloc::Global;
use std::marker::Model;
use std::mem;

/// A site whose newest records wait for a sync, with the answers of its calls since. It seals them:
/// only `sync` hands them out. A clause sees an `OpenBatch`.
#[derive(Drop)]
pub struct Batch<C: Cell> {
    alloc: Global,
    held: SyncedCell<C>,
    site: Site<Waiting>,
    sealed: Vec<SealedAnswer>,
}

impl<C: Cell> Model for Batch<C> {
    ghost use Rattle.site.specs.Batches.{OpenBatch, IsBatch};

    ghost Value = { OpenBatch C };

    ghost view = { λ b. record { held = b.held; site = b.site; sealed = b.sealed.items } };

    ghost invariant = { λ b. IsBatch C.device
        (record { held = b.held; site = b.site; sealed = b.sealed.items }) };
}

impl<C: Cell> Site<C> {
    /// Begins a batch: from now on the site's records wait until `Batch::sync`. There is no call on
    /// the cell, and nothing is sealed.
    pub fn begin_batch(self) -> Batch<C>
        ensures records { result.site.book.records ≡ self.book.records }
        ensures owner { result.site.book.owner ≡ self.book.owner }
        ensures represents { (volatile : VolatileState) → Represents self volatile
            → Represents result.site volatile }
        ensures cell { result.held.cell ≡ self.book.cell }
        ensures synced { result.held.synced ≡ length self.book.records }
        ensures needs_opening { result.held.needs_opening ≡ self.book.needs_opening }
        ensures sealed { result.sealed ≡ [] }
    {
        let Site {
            alloc,
            book,
            tables,
        } = self;
        let (book, held) = book.begin_batch();
        Batch {
            alloc,
            held,
            site: Site {
                alloc,
                book,
                tables,
            },
            sealed: Vec::new(alloc),
        }
    }
}

impl<C: Cell> Batch<C> {
    /// The site's number.
    pub fn number(&self) -> SiteNo
        ensures { result ≡ self.now.site.book.owner.site }
    {
        self.site.number()
    }

    /// The members of its federation.
    pub fn members(&self) -> Members
        ensures { result ≡ self.now.site.book.owner.members }
    {
        self.site.members()
    }

    /// Whether the device has failed since the site was opened.
    pub fn needs_opening(&self) -> bool
        ensures { result ≡ self.now.held.needs_opening }
    {
        self.held.needs_opening()
    }

    /// How many answers are sealed.
    pub fn sealed(&self) -> usize
        ensures { result ≡ length self.now.sealed }
    {
        self.sealed.len()
    }

    /// Proposes the slot's deposit, as `Site::propose`. Its answer is sealed. It is refused if the
    /// batch needs opening, or if there is no memory to seal an answer.
    pub fn propose(&mut self, slot: &Slot) -> Result<(), SiteFault>
        ensures calls { Calls self.old self.new (Proposes slot.now) result }
        ensures refused { RefusesOnly result }
        ensures needs_open { IsErrOf result SiteFault.NeedsOpen
            ↔ (self.old.held.needs_opening ≡ true) }
    {
        make_room(&self.held, &mut self.sealed)?;
        let answer = self.site.propose(slot);
        self.sealed.push_reserved(SealedAnswer::Called(answer));
        Ok(())
    }

    /// Takes a tree as the slot's deposit, as `Site::deposit`; the rest is as for `propose`.
    pub fn deposit(&mut self, slot: &Slot, facts: &Facts) -> Result<(), SiteFault>
        ensures calls { Calls self.old self.new (Deposits slot.now (check_of facts.now)) result }
        ensures refused { RefusesOnly result }
        ensures needs_open { IsErrOf result SiteFault.NeedsOpen
            ↔ (self.old.held.needs_opening ≡ true) }
    {
        make_room(&self.held, &mut self.sealed)?;
        let answer = self.site.deposit(slot, facts);
        self.sealed.push_reserved(SealedAnswer::Called(answer));
        Ok(())
    }

    /// Recovers what may be chosen for the slot, as `Site::recover`; the rest is as for `propose`.
    pub fn recover(&mut self, slot: &Slot) -> Result<(), SiteFault>
        ensures calls { Calls self.old self.new (Recovers slot.now) result }
        ensures refused { RefusesOnly result }
        ensures needs_open { IsErrOf result SiteFault.NeedsOpen
            ↔ (self.old.held.needs_opening ≡ true) }
    {
        make_room(&self.held, &mut self.sealed)?;
        let answer = self.site.recover(slot);
        self.sealed.push_reserved(SealedAnswer::Called(answer));
        Ok(())
    }

    /// Asks a member for the bag that it knows, as `Site::ask`; the rest is as for `propose`.
    pub fn ask(&mut self, slot: &Slot, to: SiteNo) -> Result<(), SiteFault>
        ensures calls { Calls self.old self.new (Asks slot.now to) result }
        ensures refused { RefusesOnly result }
        ensures needs_open { IsErrOf result SiteFault.NeedsOpen
            ↔ (self.old.held.needs_opening ≡ true) }
    {
        make_room(&self.held, &mut self.sealed)?;
        let answer = self.site.ask(slot, to);
        self.sealed.push_reserved(SealedAnswer::Called(answer));
        Ok(())
    }

    /// A datagram arrives, as at `Site::arrive`; the rest is as for `propose`.
    pub fn arrive(&mut self, bytes: &[u8]) -> Result<(), SiteFault>
        ensures calls { Calls self.old self.new (Arrives (message_of
            self.old.site.book.owner.members.federation bytes.now)) result }
        ensures refused { RefusesOnly result }
        ensures needs_open { IsErrOf result SiteFault.NeedsOpen
            ↔ (self.old.held.needs_opening ≡ true) }
    {
        make_room(&self.held, &mut self.sealed)?;
        let answer = self.site.arrive(bytes);
        self.sealed.push_reserved(SealedAnswer::Called(answer));
        Ok(())
    }

    /// A decoded datagram arrives, as at `Site::arrive_message`; the rest is as for `propose`.
    pub fn arrive_message(&mut self, message: Message) -> Result<(), SiteFault>
        ensures calls { Calls self.old self.new (Arrives (Some message)) result }
        ensures refused { RefusesOnly result }
        ensures needs_open { IsErrOf result SiteFault.NeedsOpen
            ↔ (self.old.held.needs_opening ≡ true) }
    {
        make_room(&self.held, &mut self.sealed)?;
        let answer = self.site.arrive_message(message);
        self.sealed.push_reserved(SealedAnswer::Called(answer));
        Ok(())
    }

    /// What the site knows of the slot, as `Site::query`. It may be on a record that waits, so the
    /// reply is sealed too.
    pub fn query(&mut self, slot: &Slot) -> Result<(), SiteFault>
        ensures queries { Queries self.old self.new slot.now result }
        ensures refused { RefusesOnly result }
        ensures needs_open { IsErrOf result SiteFault.NeedsOpen
            ↔ (self.old.held.needs_opening ≡ true) }
    {
        make_room(&self.held, &mut self.sealed)?;
        let reply = self.site.query(slot);
        self.sealed.push_reserved(SealedAnswer::Replied(reply));
        Ok(())
    }

    /// Syncs the records that wait, with one append and one sync, and hands out all answers, in
    /// order. If the device fails they are lost: no answer is handed out, now or later, and the
    /// site needs opening. If memory runs out all is as it was, and it can be tried again. If no
    /// record waits it makes no call.
    pub fn sync(&mut self) -> Result<Vec<SealedAnswer>, CommitFault>
        ensures syncs { self.old.held.needs_opening ≡ false
            → Syncs C.device (synced_book self.old.held self.old.site.book)
            (waiting self.old.held self.old.site.book) (done_of result)
            (synced_book self.new.held self.new.site.book) }
        ensures site { self.new.site ≡ self.old.site }
        ensures handed_out { IfOk result (λ answers. answers.items ≡ self.old.sealed) }
        ensures opened { OnOk result (self.new.sealed ≡ []) }
        ensures device { IsErrOf result CommitFault.Device → self.new.sealed ≡ [] }
        ensures memory { IsErrOf result CommitFault.Memory → self.new.sealed ≡ self.old.sealed }
        ensures needs_open { IsErrOf result CommitFault.NeedsOpen
            ↔ (self.old.held.needs_opening ≡ true) }
    {
        match sync_site(&mut self.held, &self.site) {
            Ok(()) => Ok(mem::replace(&mut self.sealed, Vec::new(self.alloc))),
            Err(CommitFault::Device) => {
                self.sealed.clear();
                Err(CommitFault::Device)
            }
            Err(fault) => Err(fault),
        }
    }

    /// Hands the cell back as it is, with no call on it. What is sealed is lost.
    pub fn close(self) -> C
        ensures { result ≡ self.held.cell }
    {
        let Batch { held, .. } = self;
        held.close()
    }
}

// Makes room for an answer, unless the batch needs opening.
fn make_room<C: Cell>(held: &SyncedCell<C>, sealed: &mut Vec<SealedAnswer>) -> Result<(), SiteFault>
    ensures room { OnOk result (vec_len sealed.new < vec_capacity sealed.new) }
    ensures items { sealed.new.items ≡ sealed.old.items }
    ensures refused { RefusesOnly result }
    ensures needs_open { IsErrOf result SiteFault.NeedsOpen ↔ (held.now.needs_opening ≡ true) }
{
    if held.needs_opening() {
        return Err(SiteFault::NeedsOpen);
    }
    sealed.reserve(1)?;
    Ok(())
}

// Syncs the site's records that wait.
fn sync_site<C: Cell>(held: &mut SyncedCell<C>, site: &Site<Waiting>) -> Result<(), CommitFault>
    requires { HoldsFirst C.device held.old site.now.book }
    ensures syncs { held.old.needs_opening ≡ false
        → Syncs C.device (synced_book held.old site.now.book) (waiting held.old site.now.book)
        result (synced_book held.new site.now.book) }
    ensures needs_open { IsErrOf result CommitFault.NeedsOpen
        ↔ (held.old.needs_opening ≡ true) }
    ensures held { HoldsFirst C.device held.new site.now.book }
{
    held.sync(site.alloc, &site.book)
}
