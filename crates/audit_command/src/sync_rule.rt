//! Which records of a cell are sure to be synced.

ghost use Rattle.std.specs.Prelude.{◌≡◌};
ghost use Rattle.audit_command.specs.CellReadings.{rule_for};

/// A site that serves appends at most this many records before it syncs: a batch has this many
/// turns, and each has a record at most.
const MOST_UNSYNCED: usize = 64;

/// Which records of a cell are sure to be synced.
#[derive(Clone, Copy, Debug)]
pub struct SyncRule {
    /// All but this many of the last.
    pub most_unsynced: usize,
    /// Those that end within this many bytes, if this is said.
    pub synced: Option<u64>,
}

/// The rule for a cell that is in use, or isn't, and whose site says this.
pub(crate) fn rule_for(in_use: bool, synced: Option<u64>) -> SyncRule
    ensures { result ≡ rule_for in_use synced }
{
    if in_use {
        SyncRule {
            most_unsynced: MOST_UNSYNCED,
            synced,
        }
    } else {
        SyncRule {
            most_unsynced: 0,
            synced: None,
        }
    }
}
