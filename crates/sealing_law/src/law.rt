ghost use Rattle.sealing_law.specs.Laws.{HandedOnMayCome, WithKeysAreHistories};
ghost use Rattle.sealing_law.specs.Laws.{HistoriesMayHaveKeys, ReportsAgreeWithKeys};
ghost use Rattle.sealing_law.specs.Laws.{TurnsWithKeysMayHappen};

use cell_device::Cell;

// A function here does nothing: its contract is the law, of every membership and all keys.

/// What a port with keys hands on may come, as the laws of sites that serve need it: a message
/// between sites in the name of a member was handed out by one.
pub fn handed_on_may_come()
    ensures { HandedOnMayCome }
{}

/// What happens to sites with keys is a history; and each history may happen to sites with keys.
pub fn histories_with_keys<C: Cell>()
    ensures are { WithKeysAreHistories C.device }
    ensures all { HistoriesMayHaveKeys C.device }
{}

/// No two reports of sites that serve with keys name different bags for one slot.
pub fn reports_agree_with_keys<C: Cell>()
    ensures { ReportsAgreeWithKeys C.device }
{}

/// Each turn that `udp_site::serve` tells of may happen in such a history, of what a port with keys
/// handed on.
pub fn turns_with_keys_may_happen<C: Cell>()
    ensures { TurnsWithKeysMayHappen C.device }
{}
