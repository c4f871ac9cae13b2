ghost use Rattle.std.specs.Prelude.{◌≡◌, ◌↔◌, ◌||◌, true, false, [], None, Some, Ok, Err, map};
ghost use Rattle.std.specs.Prelude.{is_some, Result, IfOk, IsErrOf};
ghost use Rattle.records.specs.SlotStates.{deposit_of, vote_of};
ghost use Rattle.std.specs.Option.{option_copied};
ghost use Rattle.site.specs.Contents.{deposits_of, slot_at};
ghost use Rattle.bag_check.specs.Check.{check_of};
ghost use Rattle.book.specs.OpenBooks.{HoldsText, RecoversTo};
ghost use Rattle.cell_device.specs.Memory.{fuse_of, failures_of, fuse_after_set, IsSameMedium};
ghost use Rattle.proposer.specs.VolatileStates.{VolatileState, new_volatile};
ghost use Rattle.site.specs.Answered.{IsAnswered, IsRefused};
ghost use Rattle.site.specs.Calls.{Deposits, Proposes, Recovers, Asks};
ghost use Rattle.site.specs.Calls.{reply_of, other_than, deposit_fault};
ghost use Rattle.site.specs.declared.answer.Line.TheVariants as site_lines;
ghost use Rattle.site.specs.Datagrams.{handed_out};
ghost use Rattle.book.specs.Opened.{Opens};
ghost use Rattle.site.specs.Opened.{book_of};
ghost use Rattle.site.specs.Sites.{Represents, effect};
ghost use Rattle.site.specs.inner.Begun.{next_effect};
ghost use Rattle.site.specs.inner.Concluded.{Concludes, one_datagram, all_datagrams};

use crate::answer::{Answer, Line, Outgoing, Reply};
use crate::begun_ballot::begin_ballot;
use crate::commit::commit_and_note;
use crate::datagrams::{to_all, to_one};
use crate::fault::SiteFault;
use crate::tables::Tables;
use bag_check::check;
use bag_tree::Facts;
use book::{Book, OpenFault};
use cell_device::{Cell, Fuse, MemoryCell};
use dgram::{Body, Message};
use fed_types::{BagId, Members, SiteNo, Slot};
use records::{Entry, Owner, Record};
use std::alloc::{AllocError, Global};
use std::marker::Model;

/// A site of a federation, over a cell. A clause sees an `OpenSite`.
#[derive(Drop)]
pub struct Site<C: Cell> {
    pub(crate) alloc: Global,
    pub(crate) book: Book<C>,
    pub(crate) tables: Tables,
}

impl<C: Cell> Model for Site<C> {
    ghost use Rattle.site.specs.Sites.{OpenSite, IsInOrder};

    ghost Value = { OpenSite C };

    ghost view = { λ s. record { book = s.book; tables = s.tables } };

    ghost invariant = { λ s. IsInOrder (record { book = s.book; tables = s.tables }) };
}

impl<C: Cell> Site<C> {
    /// Opens the site of this owner, from the journal in the cell. It has heard nothing yet, and
    /// has no current ballot. If it is refused, the cell is handed back.
    pub fn open(alloc: Global, cell: C, owner: Owner) -> Result<Site<C>, (C, OpenFault)>
        ensures opened { Opens C.device owner cell (book_of result) }
        ensures stands { IfOk result (λ s. Represents s new_volatile) }
    {
        let book = Book::open(alloc, cell, owner)?;
        match Tables::of(alloc, &owner, book.records()) {
            Ok(tables) => Ok(Site {
                alloc,
                book,
                tables,
            }),
            Err(_) => Err((book.close(), OpenFault::Memory)),
        }
    }

    /// Hands the cell back as it is, with no call on it.
    pub fn close(self) -> C
        ensures cell { result ≡ self.book.cell }
        ensures text { self.book.needs_opening ≡ false →
            HoldsText self.book.owner self.book.records (C.device result).image }
        ensures recovers { self.book.needs_opening ≡ false →
            RecoversTo self.book.owner self.book.records (C.device result).image }
    {
        let Site { book, .. } = self;
        book.close()
    }

    /// The site's number.
    pub fn number(&self) -> SiteNo
        ensures { result ≡ self.now.book.owner.site }
    {
        self.book.site()
    }

    /// The members of its federation.
    pub fn members(&self) -> Members
        ensures { result ≡ self.now.book.owner.members }
    {
        self.book.members()
    }

    /// The records, in order. If the site needs opening, the cell may hold one more.
    pub fn records(&self) -> &[Record]
        ensures { result.now ≡ self.now.book.records }
    {
        self.book.records()
    }

    /// Whether the device has failed since the site was opened.
    pub fn needs_opening(&self) -> bool
        ensures { result ≡ self.now.book.needs_opening }
    {
        self.book.needs_opening()
    }

    /// The slot at this place, counted from 0, among those that have a deposit on record, in the
    /// order of these records.
    pub fn deposited(&self, place: usize) -> Option<&Slot>
        ensures { option_copied result ≡ slot_at (deposits_of self.now.book.records) place }
    {
        self.tables.deposited(place)
    }

    /// What the site knows of the slot. It takes no memory.
    #[tactic(auto, unfolding(crate::specs::Calls::reply_of))]
    pub fn query(&self, slot: &Slot) -> Result<Reply, SiteFault>
        ensures reply { self.now.book.needs_opening ≡ false
            → result ≡ Ok (reply_of slot.now self.now.book.records) }
        ensures needs_open { self.now.book.needs_opening ≡ true
            → result ≡ Err SiteFault.NeedsOpen }
    {
        if self.book.needs_opening() {
            return Err(SiteFault::NeedsOpen);
        }
        Ok(match self.tables.known(slot) {
            Some(known) => Reply::Known(known),
            None => match self.tables.deposit(slot) {
                Some(own) => Reply::Pending(own),
                None => Reply::Nothing,
            },
        })
    }

    /// Asks a member for the bag that it knows. The caller ensures that it is a member.
    pub fn ask(&self, slot: &Slot, to: SiteNo) -> Result<Answer, SiteFault>
        ensures answer { self.now.book.needs_opening ≡ false → (volatile : VolatileState)
            → Represents self.now volatile
            → IsAnswered C.device self.now self.now volatile
            (effect self.now volatile (Asks slot.now to)) result }
        ensures needs_open { IsErrOf result SiteFault.NeedsOpen
            ↔ (self.now.book.needs_opening ≡ true) }
    {
        if self.book.needs_opening() {
            return Err(SiteFault::NeedsOpen);
        }
        let body = Body::Ask {
            from: self.number(),
        };
        let slot = slot.copy(self.alloc)?;
        let sends = self.send(&Message { slot, body }, to)?;
        Ok(Answer { line: None, sends })
    }

    /// Takes a tree as the slot's deposit, if it is a valid bag, and neither another deposit nor
    /// another known bag is in the way.
    pub fn deposit(&mut self, slot: &Slot, facts: &Facts) -> Result<Answer, SiteFault>
        ensures answer { self.old.book.needs_opening ≡ false → (volatile : VolatileState)
            → Represents self.old volatile
            → IsAnswered C.device self.old self.new volatile
            (effect self.old volatile (Deposits slot.now (check_of facts.now))) result }
        ensures needs_open { IsErrOf result SiteFault.NeedsOpen
            ↔ (self.old.book.needs_opening ≡ true) }
        ensures untouched { self.old.book.needs_opening ≡ true → self.new ≡ self.old }
    {
        if self.book.needs_opening() {
            return Err(SiteFault::NeedsOpen);
        }
        let bag = check(self.alloc, facts)?;
        self.register(slot, bag)
    }

    /// Proposes the slot's deposit: begins the next ballot, and asks all members to promise it. If
    /// that is refused, it takes no memory.
    pub fn propose(&mut self, slot: &Slot) -> Result<Answer, SiteFault>
        ensures answer { self.old.book.needs_opening ≡ false → (volatile : VolatileState)
            → Represents self.old volatile
            → IsAnswered C.device self.old self.new volatile
            (effect self.old volatile (Proposes slot.now)) result }
        ensures refused { self.old.book.needs_opening ≡ false → (volatile : VolatileState)
            → Represents self.old volatile
            → IsRefused (effect self.old volatile (Proposes slot.now)) result }
        ensures needs_open { IsErrOf result SiteFault.NeedsOpen
            ↔ (self.old.book.needs_opening ≡ true) }
        ensures untouched { self.old.book.needs_opening ≡ true → self.new ≡ self.old }
    {
        if self.book.needs_opening() {
            return Err(SiteFault::NeedsOpen);
        }
        if self.tables.known(slot).is_some() {
            return Err(SiteFault::AlreadyKnown);
        }
        match self.tables.deposit(slot) {
            Some(_) => self.start_ballot(slot),
            None => Err(SiteFault::NoDeposit),
        }
    }

    /// Recovers what may be chosen for the slot: if the site has a vote or a deposit, begins the
    /// next ballot, and asks all members to promise it. The rest is as after `propose`; without a
    /// deposit it proposes only a bag that promises name. A refusal takes no memory.
    pub fn recover(&mut self, slot: &Slot) -> Result<Answer, SiteFault>
        ensures answer { self.old.book.needs_opening ≡ false → (volatile : VolatileState)
            → Represents self.old volatile
            → IsAnswered C.device self.old self.new volatile
            (effect self.old volatile (Recovers slot.now)) result }
        ensures refused { self.old.book.needs_opening ≡ false → (volatile : VolatileState)
            → Represents self.old volatile
            → IsRefused (effect self.old volatile (Recovers slot.now)) result }
        ensures needs_open { IsErrOf result SiteFault.NeedsOpen
            ↔ (self.old.book.needs_opening ≡ true) }
        ensures untouched { self.old.book.needs_opening ≡ true → self.new ≡ self.old }
    {
        if self.book.needs_opening() {
            return Err(SiteFault::NeedsOpen);
        }
        if self.tables.known(slot).is_some() {
            Err(SiteFault::AlreadyKnown)
        } else if self.has_vote_or_deposit(slot) {
            self.start_ballot(slot)
        } else {
            Err(SiteFault::NothingToRecover)
        }
    }

    // Whether the site has a vote or a deposit for the slot on record.
    fn has_vote_or_deposit(&self, slot: &Slot) -> bool
        ensures { result ≡ (is_some (vote_of slot.now self.now.book.records)
            || is_some (deposit_of slot.now self.now.book.records)) }
    {
        self.tables.vote(slot).is_some() || self.tables.deposit(slot).is_some()
    }

    // Takes a valid bag as the slot's deposit.
    fn register(&mut self, slot: &Slot, bag: BagId) -> Result<Answer, SiteFault>
        requires { self.old.book.needs_opening ≡ false }
        ensures { (volatile : VolatileState) → Represents self.old volatile
            → IsAnswered C.device self.old self.new volatile
            (effect self.old volatile (Deposits slot.now (Ok bag))) result }
    {
        let own = self.tables.deposit(slot);
        if let Some(fault) = deposit_fault(bag, own, self.tables.known(slot)) {
            return Err(fault);
        }
        let line = Some(Line::Registered(bag));
        let sends = Vec::new(self.alloc);
        if own.is_some() {
            return Ok(Answer { line, sends });
        }
        let new = Record {
            slot: slot.copy(self.alloc)?,
            body: Entry::Deposit(bag),
        };
        self.commit_and_answer(new, Answer { line, sends })
    }

    // Begins the slot's next ballot, unless none is left.
    fn start_ballot(&mut self, slot: &Slot) -> Result<Answer, SiteFault>
        requires { self.old.book.needs_opening ≡ false }
        ensures answer { (volatile : VolatileState) → Represents self.old volatile
            → IsAnswered C.device self.old self.new volatile
            (next_effect self.old volatile slot.now) result }
        ensures refused { (volatile : VolatileState) → Represents self.old volatile
            → IsRefused (next_effect self.old volatile slot.now) result }
    {
        let owner = self.book.owner();
        let (new, answer) = begin_ballot(self.alloc, &owner, &mut self.tables, slot)?;
        self.commit_and_answer(new, answer)
    }

    /// Commits a record and takes note of it; then the answer is handed out.
    pub(crate) fn commit_and_answer(
        &mut self,
        new: Record,
        answer: Answer,
    ) -> Result<Answer, SiteFault>
        requires { self.old.book.needs_opening ≡ false }
        ensures { Concludes C.device self.old self.new (Some new) answer.line
            (map handed_out answer.sends.items) result }
    {
        commit_and_note(self.alloc, &mut self.book, &mut self.tables, new)?;
        Ok(answer)
    }

    /// The message as a datagram for one site.
    pub(crate) fn send(&self, message: &Message, to: SiteNo) -> Result<Vec<Outgoing>, AllocError>
        ensures { IfOk result (λ sends. map handed_out sends.items
            ≡ one_datagram self.now message.now.slot message.now.body to) }
    {
        to_one(self.alloc, self.members().federation(), message, to)
    }

    /// The message as a datagram for each member, in ascending order.
    pub(crate) fn send_to_all(&self, message: &Message) -> Result<Vec<Outgoing>, AllocError>
        ensures { IfOk result (λ sends. map handed_out sends.items
            ≡ all_datagrams self.now message.now.slot message.now.body) }
    {
        to_all(self.alloc, self.members(), message)
    }
}

impl Site<MemoryCell> {
    /// Sets the cell's fuse, or takes it away. It changes nothing else.
    pub fn set_fuse(&mut self, fuse: Option<Fuse>)
        ensures fuse { fuse_of self.new.book.cell
            ≡ fuse_after_set fuse (fuse_of self.old.book.cell) }
        ensures medium { IsSameMedium self.old.book.cell self.new.book.cell }
        ensures failures { failures_of self.new.book.cell ≡ failures_of self.old.book.cell }
        ensures records { (self.new.book.records ≡ self.old.book.records)
            × (self.new.book.needs_opening ≡ self.old.book.needs_opening)
            × (self.new.book.owner ≡ self.old.book.owner) }
        ensures tables { self.new.tables ≡ self.old.tables }
    {
        self.book.set_fuse(fuse);
    }
}

/// Nothing is said or sent.
pub(crate) fn quiet(alloc: Global) -> Answer
    ensures { (result.line ≡ None) × (result.sends.items ≡ []) }
{
    Answer {
        line: None,
        sends: Vec::new(alloc),
    }
}

/// What arrived is dropped.
pub(crate) fn dropped(alloc: Global) -> Answer
    ensures { (result.line ≡ Some site_lines.Dropped) × (result.sends.items ≡ []) }
{
    Answer {
        line: Some(Line::Dropped),
        sends: Vec::new(alloc),
    }
}

// Why a valid bag is refused, by the slot's deposit and its known bag.
fn deposit_fault(bag: BagId, own: Option<BagId>, known: Option<BagId>) -> Option<SiteFault>
    ensures { result ≡ deposit_fault (other_than bag own) (other_than bag known) }
{
    match other_than(bag, own) {
        Some(own) => Some(SiteFault::OtherDeposit(own)),
        None => Some(SiteFault::OtherKnown(other_than(bag, known)?)),
    }
}

// The bag, if there is one and it is another than this.
fn other_than(bag: BagId, other: Option<BagId>) -> Option<BagId>
    ensures { result ≡ other_than bag other }
{
    match other {
        Some(other) if other != bag => Some(other),
        _ => None,
    }
}
