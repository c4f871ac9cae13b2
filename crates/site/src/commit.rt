ghost use Rattle.std.specs.Prelude.{◌≡◌, false};
ghost use Rattle.site.specs.inner.Concluded.{IsCommitted};

use crate::fault::SiteFault;
use crate::tables::Tables;
use book::Book;
use cell_device::Cell;
use records::Record;
use std::alloc::Global;

/// Makes room for a record, commits it, and takes note of it, which takes no memory.
pub(crate) fn commit_and_note<C: Cell>(
    alloc: Global,
    book: &mut Book<C>,
    tables: &mut Tables,
    new: Record,
) -> Result<(), SiteFault>
    requires { book.old.needs_opening ≡ false }
    ensures { IsCommitted C.device (record { book = book.old; tables = tables.old })
        (record { book = book.new; tables = tables.new }) new result }
{
    tables.reserve(&new.slot)?;
    let noted = new.copy(alloc)?;
    book.commit(new)?;
    tables.note(noted);
    Ok(())
}
