//! A book that is stopped and started.

ghost use Rattle.std.specs.Prelude.{◌≡◌, [], ◌∷◌, ◌++◌, IfSome};

use book::{Book, Record};
use cell_device::MemoryCell;
use std::alloc::Global;

/// A commit, a stop and a start: the records are those from before, and the new one.
pub fn committed_and_restarted(
    alloc: Global,
    book: Book<MemoryCell>,
    new: Record,
) -> Option<Book<MemoryCell>>
    ensures { IfSome result (λ after. after.records ≡ book.records ++ new ∷ []) }
{
    let mut book = book;
    if book.commit(new).is_err() {
        return None;
    }
    match book.restart(alloc) {
        Ok(after) => Some(after),
        Err(_) => None,
    }
}
