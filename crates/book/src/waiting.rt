//! The cell of a book whose records wait for a sync.

use cell_device::{Cell, CellFault};
use std::alloc::Global;

/// A cell that keeps nothing. A book over it has its records in its list alone, until `SyncedCell`
/// writes and syncs them. None of its calls fails.
#[derive(Drop)]
pub struct Waiting {
    /// Only `Book::begin_batch` makes one. A book that is closed hands its own back.
    nothing: (),
}

impl Waiting {
    pub(crate) fn new() -> Waiting {
        Waiting { nothing: () }
    }
}

impl Cell for Waiting {
    ghost use Rattle.book.specs.Batches.{keeps_nothing};
    ghost use Rattle.book.specs.inner.Waits.{seen_now_of};

    ghost device = { λ cell. keeps_nothing };

    ghost seen_now = { λ cell. seen_now_of };

    ghost counts_now = { λ cell t c le now. tt };

    ghost only_now = { λ cell c left. tt };

    fn load(&mut self, alloc: Global) -> Result<Vec<u8>, CellFault> {
        Ok(Vec::new(alloc))
    }

    fn append(&mut self, _bytes: &[u8]) -> Result<(), CellFault> {
        Ok(())
    }

    fn cut(&mut self, _len: usize) -> Result<(), CellFault> {
        Ok(())
    }

    fn sync(&mut self) -> Result<(), CellFault> {
        Ok(())
    }
}
