//! What the records of a cell say of each version.

ghost use Rattle.std.specs.Prelude.{◌≡◌, ◌++◌, List, OnOk};
ghost use Rattle.std.specs.Option.{option_copied};
ghost use Rattle.records.specs.declared.record.Record.{Record};
ghost use Rattle.slot_table.specs.Listings.{listed};
ghost use Rattle.slot_table.specs.Rows.{row_of, IsWith};
ghost use Rattle.ledger.specs.inner.Rows.{empty_row, row_after, slot_at, standing_in, Represents};

use crate::row::Row;
use crate::standing::Standing;
use fed_types::{Slot, Vote};
use records::Record;
use slot_table::ListedRows;
use std::alloc::AllocError;

/// The versions in the order of their first records, and what is said of each.
pub(crate) type Versions = ListedRows<Row>;

// What is said of a version.
fn row_of(versions: &Versions, slot: &Slot) -> Row
    ensures { result ≡ row_of empty_row versions.now.rows slot.now }
{
    match versions.get(slot) {
        Some(row) => *row,
        None => Row::EMPTY,
    }
}

// Takes note of one more record.
fn note(versions: &mut Versions, kept: &Record) -> Result<(), AllocError>
    ensures slots { OnOk result (versions.new.slots ≡ listed versions.old.slots kept.now.slot) }
    ensures rows { OnOk result (IsWith versions.old.rows versions.new.rows kept.now.slot
        (row_after versions.old.rows kept.now)) }
{
    // The checker of borrows has to know each type that a row holds.
    let _vote: Option<Vote> = None;
    let row = row_of(versions, &kept.slot).noted(&kept.body);
    versions.put(&kept.slot, row)
}

/// Takes note of what more records say of each version.
pub(crate) fn note_all(versions: &mut Versions, records: &[Record]) -> Result<(), AllocError>
    ensures { OnOk result ((before : List Record) → Represents versions.old before
        → Represents versions.new (before ++ records.now)) }
{
    for kept in records {
        note(versions, kept)?;
    }
    Ok(())
}

/// The version at this place, counted from 0.
pub(crate) fn slot_at(versions: &Versions, place: usize) -> Option<&Slot>
    ensures { option_copied result ≡ slot_at versions.now place }
{
    versions.slots().get(place)
}

/// What is said of a version.
pub(crate) fn standing_in(versions: &Versions, slot: &Slot) -> Standing
    ensures { result ≡ standing_in versions.now.rows slot.now }
{
    row_of(versions, slot).standing()
}
