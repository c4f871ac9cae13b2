//! Many records, and one sync.

ghost use Rattle.std.specs.Prelude.{◌≡◌, ◌↔◌, ◌∷◌, [], ◌++◌, ◌≤◌, true, false};
ghost use Rattle.std.specs.Prelude.{length, take, drop};
ghost use Rattle.std.specs.Prelude.{OnOk, OnErr, IfOk, IsErrOf};
ghost use Rattle.book.specs.Batches.{HoldsFirst, Syncs, all_bytes, synced_book, waiting};
ghost use Rattle.book.specs.OpenBooks.{HoldsText};
ghost use Rattle.book.specs.inner.Appended.{book_of, has_failed};
ghost use Rattle.book.specs.inner.Synced.{records_after};
ghost use Rattle.records.specs.Records.{AreRecords};

use crate::append::append_synced;
use crate::book::Book;
use crate::fault::CommitFault;
use crate::waiting::Waiting;
use cell_device::Cell;
use records::{Owner, Record};
use std::alloc::{AllocError, Global};
use std::marker::Model;

/// The cell of a batch, with how many of the book's records are synced in it. A clause sees a
/// `BatchCell` of specs/.
#[derive(Drop)]
pub struct SyncedCell<C: Cell> {
    cell: C,
    synced: usize,
    needs_opening: bool,
}

impl<C: Cell> Model for SyncedCell<C> {
    ghost use Rattle.book.specs.Batches.{BatchCell};

    ghost Value = { BatchCell C };

    ghost view = { λ s. record {
      cell = s.cell;
      synced = s.synced;
      needs_opening = s.needs_opening;
    } };
}

impl<C: Cell> Book<C> {
    /// Begins a batch: the book's records from now on wait until `SyncedCell::sync` writes them.
    /// There is no call on the cell.
    pub fn begin_batch(self) -> (Book<Waiting>, SyncedCell<C>)
        ensures records { result.0.records ≡ self.records }
        ensures owner { result.0.owner ≡ self.owner }
        ensures waits { result.0.needs_opening ≡ false }
        ensures cell { result.1.cell ≡ self.cell }
        ensures synced { result.1.synced ≡ length self.records }
        ensures needs_opening { result.1.needs_opening ≡ self.needs_opening }
        ensures held { HoldsFirst C.device result.1 result.0 }
    {
        let Book {
            cell,
            records,
            owner,
            needs_opening,
        } = self;
        let synced = records.len();
        let book = Book {
            cell: Waiting::new(),
            records,
            owner,
            needs_opening: false,
        };
        (
            book,
            SyncedCell {
                cell,
                synced,
                needs_opening,
            },
        )
    }
}

impl Book<Waiting> {
    /// Appends a record, without a sync. It makes no call on the batch's cell; only memory refuses
    /// it, and then all is as it was.
    pub fn append(&mut self, new: Record) -> Result<(), AllocError>
        requires { self.old.needs_opening ≡ false }
        ensures appended { OnOk result (self.new.records ≡ self.old.records ++ new ∷ []) }
        ensures refused { OnErr result (self.new.records ≡ self.old.records) }
        ensures waits { self.new.needs_opening ≡ false }
        ensures whose { self.new.owner ≡ self.old.owner }
    {
        match self.commit(new) {
            Ok(()) => Ok(()),
            Err(_) => Err(AllocError),
        }
    }
}

impl<C: Cell> SyncedCell<C> {
    /// How many of the book's records are synced, counted from the first.
    pub fn synced(&self) -> usize
        ensures { result ≡ self.now.synced }
    {
        self.synced
    }

    /// Whether the device has failed since the book was opened. If so, no record that waits is
    /// written any more.
    pub fn needs_opening(&self) -> bool
        ensures { result ≡ self.now.needs_opening }
    {
        self.needs_opening
    }

    /// Syncs the records of the batch's book that wait: appends their bytes together, and syncs
    /// once. After Ok every crash leaves the cell with all of them. After `Device` a crash leaves
    /// it with a prefix of them, and it needs opening; after `Memory` and `NeedsOpen` all is as it
    /// was. If no record waits, it makes no call.
    pub fn sync(&mut self, alloc: Global, book: &Book<Waiting>) -> Result<(), CommitFault>
        requires { HoldsFirst C.device self.old book.now }
        ensures syncs { self.old.needs_opening ≡ false
            → Syncs C.device (synced_book self.old book.now) (waiting self.old book.now) result
            (synced_book self.new book.now) }
        ensures needs_open { IsErrOf result CommitFault.NeedsOpen
            ↔ (self.old.needs_opening ≡ true) }
        ensures untouched { IsErrOf result CommitFault.NeedsOpen → self.new ≡ self.old }
        ensures held { HoldsFirst C.device self.new book.now }
        ensures all { OnOk result (self.new.synced ≡ length book.now.records) }
    {
        if self.needs_opening {
            return Err(CommitFault::NeedsOpen);
        }
        let records = book.records();
        let owner = book.owner();
        let done = sync_after(alloc, &mut self.cell, &owner, records, self.synced);
        match done {
            Ok(()) => self.synced = records.len(),
            Err(CommitFault::Device) => self.needs_opening = true,
            Err(CommitFault::Memory | CommitFault::NeedsOpen) => {}
        }
        done
    }

    /// Hands the cell back as it is, with no call on it.
    pub fn close(self) -> C
        ensures { result ≡ self.cell }
    {
        let SyncedCell { cell, .. } = self;
        cell
    }
}

// Appends the records after the first so many to their text in the cell, and syncs.
fn sync_after<C: Cell>(
    alloc: Global,
    cell: &mut C,
    owner: &Owner,
    records: &[Record],
    synced: usize,
) -> Result<(), CommitFault>
    requires within { synced ≤ length records.now }
    requires held { HoldsText owner.now (take synced records.now) (C.device cell.old).image }
    ensures syncs { Syncs C.device
        (book_of cell.old (take synced records.now) owner.now false) (drop synced records.now)
        result (book_of cell.new (records_after result synced records.now) owner.now
        (has_failed result)) }
    ensures held { OnOk result (HoldsText owner.now records.now (C.device cell.new).image) }
    ensures kept { IsErrOf result CommitFault.Memory
        → (C.device cell.new).image ≡ (C.device cell.old).image }
    ensures faults { ¬ IsErrOf result CommitFault.NeedsOpen }
{
    let new = &records[synced..];
    if new.is_empty() {
        return Ok(());
    }
    let bytes = bytes_of(alloc, new)?;
    append_synced(cell, &bytes)?;
    Ok(())
}

// The bytes of records, one after another.
fn bytes_of(alloc: Global, records: &[Record]) -> Result<Vec<u8>, AllocError>
    ensures bytes { IfOk result (λ bytes. bytes.items ≡ all_bytes records.now) }
    ensures sound { IfOk result (λ bytes. AreRecords records.now) }
{
    let mut bytes = Vec::new(alloc);
    for new in records {
        bytes.extend_from_slice(&new.to_bytes(alloc)?)?;
    }
    Ok(bytes)
}
