//! A site whose records wait, apart from its cell.

ghost use Rattle.std.specs.Prelude.{◌≡◌, ◌↔◌, false, true, length, IsErrOf};
ghost use Rattle.book.specs.Batches.{HoldsFirst, Syncs, synced_book, waiting};
ghost use Rattle.proposer.specs.VolatileStates.{VolatileState};
ghost use Rattle.site.specs.Batches.{done_of};
ghost use Rattle.site.specs.Sites.{Represents};

use crate::member_site::Site;
use book::{CommitFault, SyncedCell, Waiting};
use cell_device::Cell;

/// That all records of a site were synced. Only `Site::sync` makes one, so code that asks for one
/// hands out nothing that isn't synced.
#[derive(Drop)]
pub struct Synced {
    made: (),
}

impl<C: Cell> Site<C> {
    /// Parts the site from its cell: from now on its records wait until `Site::sync` writes them.
    /// There is no call on the cell. What its calls answer isn't sealed: the caller hands out
    /// nothing of it before the sync.
    pub fn part(self) -> (Site<Waiting>, SyncedCell<C>)
        ensures records { result.0.book.records ≡ self.book.records }
        ensures owner { result.0.book.owner ≡ self.book.owner }
        ensures waits { result.0.book.needs_opening ≡ false }
        ensures represents { (volatile : VolatileState) → Represents self volatile
            → Represents result.0 volatile }
        ensures cell { result.1.cell ≡ self.book.cell }
        ensures synced { result.1.synced ≡ length self.book.records }
        ensures needs_opening { result.1.needs_opening ≡ self.book.needs_opening }
        ensures held { HoldsFirst C.device result.1 result.0.book }
    {
        let Site {
            alloc,
            book,
            tables,
        } = self;
        let (book, held) = book.begin_batch();
        (
            Site {
                alloc,
                book,
                tables,
            },
            held,
        )
    }
}

impl<C: Cell> Site<C> {
    /// That it represents some volatile state, as every site does. It does nothing.
    pub fn represents_some(&self)
        ensures { (volatile : VolatileState) × Represents self.now volatile }
    {
        let _tables = &self.tables;
    }
}

impl Site<Waiting> {
    /// Syncs the site's records that wait, in the cell from which it was parted: with one append
    /// and one sync, as `SyncedCell::sync`. If none waits it makes no call.
    pub fn sync<C: Cell>(&self, held: &mut SyncedCell<C>) -> Result<Synced, CommitFault>
        requires { HoldsFirst C.device held.old self.now.book }
        ensures syncs { held.old.needs_opening ≡ false
            → Syncs C.device (synced_book held.old self.now.book) (waiting held.old self.now.book)
            (done_of result) (synced_book held.new self.now.book) }
        ensures needs_open { IsErrOf result CommitFault.NeedsOpen
            ↔ (held.old.needs_opening ≡ true) }
        ensures untouched { IsErrOf result CommitFault.NeedsOpen → held.new ≡ held.old }
        ensures held { HoldsFirst C.device held.new self.now.book }
    {
        match held.sync(self.alloc, &self.book) {
            Ok(()) => Ok(Synced { made: () }),
            Err(fault) => Err(fault),
        }
    }
}
