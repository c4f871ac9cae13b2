ghost use Rattle.fed_types.specs.Sites.{Membership};
ghost use Rattle.serving_law.specs.Laws.{TurnsMayHappen, ReportsAgree, ReportsWereDeposited};
ghost use Rattle.serving_law.specs.Laws.{RegisteredStays, KnownStays};

use cell_device::Cell;

// A function here does nothing: its contract is the law, of every membership, and of every history
// of sites that serve over cells that tell their bytes.

/// Each turn that `udp_site::serve` tells of is one that may happen in such a history.
pub fn turns_may_happen<C: Cell>()
    ensures { (members : Membership) → TurnsMayHappen C.device members }
{}

/// No two reports of sites that serve name different bags for one slot.
pub fn reports_agree<C: Cell>()
    ensures { (members : Membership) → ReportsAgree C.device members }
{}

/// What a site that serves reports was deposited for the slot before, from a folder that was a
/// valid bag of this identity as it was read.
pub fn reports_were_deposited<C: Cell>()
    ensures { (members : Membership) → ReportsWereDeposited C.device members }
{}

/// What a site that serves says it has registered stays on its record.
pub fn registered_stays<C: Cell>()
    ensures { (members : Membership) → RegisteredStays C.device members }
{}

/// What a site that serves says is known stays on its record as known.
pub fn known_stays<C: Cell>()
    ensures { (members : Membership) → KnownStays C.device members }
{}
