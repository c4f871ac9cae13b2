ghost use Rattle.batch_law.specs.Laws.{TurnsAreTurns, BatchesAreTurns};
ghost use Rattle.batch_law.specs.Laws.{UnsyncedBatchesAreTurns, CrashesLeaveFirstRecords};
ghost use Rattle.batch_law.specs.Laws.{SyncedAreRecords};

use cell_device::Cell;

// A function here does nothing: its contract is the law.

/// A turn within a batch is a turn of a site that commits its record at once.
pub fn turns_of_batches_are_turns()
    ensures { TurnsAreTurns }
{}

/// The turns of a batch may happen one after another.
pub fn batches_are_turns()
    ensures { BatchesAreTurns }
{}

/// A batch that isn't synced is as its first turns, of which nothing was told.
pub fn unsynced_batches_are_turns()
    ensures { UnsyncedBatchesAreTurns }
{}

/// A batch that isn't synced leaves a prefix of its records.
pub fn crashes_leave_first_records<C: Cell>()
    ensures { CrashesLeaveFirstRecords C.device }
{}

/// The records of a synced batch are records, as the laws of its turns ask.
pub fn synced_are_records<C: Cell>()
    ensures { SyncedAreRecords C.device }
{}
