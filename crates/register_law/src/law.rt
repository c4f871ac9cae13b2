ghost use Rattle.fed_types.specs.Sites.{Membership};
ghost use Rattle.register_law.specs.Carried.{NewCellsAreLeftByNone};
ghost use Rattle.register_law.specs.Laws.{CarriedReportsAgree, CarriedAgreeWithTheRun};
ghost use Rattle.register_law.specs.Laws.{CarriedReportsWereDeposited, CellsHaveNoConflict};
ghost use Rattle.register_law.specs.Laws.{CarriedRegisteredStays, CarriedKnownStays};
ghost use Rattle.register_law.specs.Laws.{ChosenIsAllThatIsReported, ChosenRemains, RecordsStay};
ghost use Rattle.register_law.specs.Overlaps.{OverlapsAreHistories};
ghost use Rattle.register_law.specs.Refinement.{HistoriesRefine, StepsReportWhatWasDecided};

use cell_device::Cell;

// A function here does nothing: its contract is the law, of every membership, and of every history
// of sites that serve over cells that tell their bytes.

/// Each slot is a register: open, or decided for a bag that was deposited for it, and then it stays
/// so. It is decided exactly where a quorum's votes are on record, and what is reported is the bag
/// for which it was decided.
pub fn histories_refine<C: Cell>()
    ensures { (members : Membership) → HistoriesRefine C.device members }
{}

/// What is reported in such a step was decided before it, and not only by the step itself.
pub fn steps_report_what_was_decided<C: Cell>()
    ensures { (members : Membership) → StepsReportWhatWasDecided C.device members }
{}

/// A history of new cells goes on from a run without events: so what is said of those that go on is
/// said of it too.
pub fn new_cells_are_left_by_none<C: Cell>()
    ensures { (members : Membership) → NewCellsAreLeftByNone C.device members }
{}

/// Turns of processes overlap: members' own accounts make a history, in the order in which what
/// happens begins.
pub fn overlaps_are_histories<C: Cell>()
    ensures { (members : Membership) → OverlapsAreHistories C.device members }
{}

/// No two reports of sites that go on from the cells of a run name different bags for one slot.
pub fn carried_reports_agree<C: Cell>()
    ensures { (members : Membership) → CarriedReportsAgree C.device members }
{}

/// And none names another bag than the run has reported.
pub fn carried_agree_with_the_run<C: Cell>()
    ensures { (members : Membership) → CarriedAgreeWithTheRun C.device members }
{}

/// What such a site reports was deposited for the slot before, in the run or since.
pub fn carried_reports_were_deposited<C: Cell>()
    ensures { (members : Membership) → CarriedReportsWereDeposited C.device members }
{}

/// What a site has on record stays there.
pub fn records_stay<C: Cell>()
    ensures { (members : Membership) → RecordsStay C.device members }
{}

/// What such a site says it has registered is on its record from then on, whatever befalls it.
pub fn carried_registered_stays<C: Cell>()
    ensures { (members : Membership) → CarriedRegisteredStays C.device members }
{}

/// And what it says is known is on its record as known.
pub fn carried_known_stays<C: Cell>()
    ensures { (members : Membership) → CarriedKnownStays C.device members }
{}

/// The cells of sites that serve name at most one bag for a slot: as chosen, or as known.
pub fn cells_have_no_conflict<C: Cell>()
    ensures { (members : Membership) → CellsHaveNoConflict C.device members }
{}

/// A bag that they show as chosen is the only one that is reported, before and after.
pub fn chosen_is_all_that_is_reported<C: Cell>()
    ensures { (members : Membership) → ChosenIsAllThatIsReported C.device members }
{}

/// What is chosen stays chosen, whatever events are later.
pub fn chosen_remains()
    ensures { ChosenRemains }
{}
