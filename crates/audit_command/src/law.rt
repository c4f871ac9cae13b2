ghost use Rattle.std.specs.Prelude.{◌≡◌, ◌≢◌, ◌≤◌, ℕ, List, ◌++◌, length, take, Ok};
ghost use Rattle.book.specs.Batches.{IsInUseBy, all_but};
ghost use Rattle.cell_device.specs.Images.{Image, Leaves};
ghost use Rattle.fed_types.specs.declared.bag_id.BagId.{BagId};
ghost use Rattle.fed_types.specs.Lists.{Has};
ghost use Rattle.fed_types.specs.Quorums.{quorums_of};
ghost use Rattle.fed_types.specs.Sites.{Membership};
ghost use Rattle.outcomes.specs.Outcomes.{Outcome};
ghost use Rattle.records.specs.declared.owner.Owner.{Owner};
ghost use Rattle.records.specs.declared.record.Record.{Record};
ghost use Rattle.records.specs.Journals.{DecodesTo};
ghost use Rattle.udp_site.specs.BatchTurns.{MOST_TURNS};
ghost use Rattle.audit.specs.Evidence.{SiteRecord};
ghost use Rattle.audit.specs.Laws.{IsNamed};
ghost use Rattle.audit_command.specs.Audits.{IsAudit};
ghost use Rattle.audit_command.specs.CellReadings.{all_given};
ghost use Rattle.audit_command.specs.Conflicts.{SaysConflict};
ghost use Rattle.audit_command.specs.Files.{Files};

// A function here does nothing: its contract is the law.

/// If two bags are named for the version of a record that is counted, as known or as chosen, the
/// answer has a line `conflict` for it with two bags that are named, and the status is 1.
pub fn conflicts_are_said()
    ensures { (members : Membership) (files : Files) (paths : List (List ℕ)) (outcome : Outcome)
        (audit : IsAudit members files paths outcome) (s : SiteRecord) (u v : BagId)
        → Has s (all_given audit.readings)
        → IsNamed (quorums_of members) (all_given audit.readings) s.kept.slot u
        → IsNamed (quorums_of members) (all_given audit.readings) s.kept.slot v
        → u ≢ v
        → SaysConflict (quorums_of members) (all_given audit.readings) s.kept.slot outcome }
{}

/// What is counted in a cell in use outlives every crash. Its site appends at most n records before
/// it syncs, and no call of its has failed. Then whatever a reader sees, and whatever a crash
/// leaves at that moment: the records that are found in the first k bytes come first in what is
/// left, if at least k bytes are synced; and so do all but the last n that are found in all bytes.
pub fn counted_records_outlive_a_crash()
    ensures synced { (n k : ℕ) (owner : Owner) (i : Image) (seen left : List ℕ)
        (found kept : List Record)
        → IsInUseBy n owner i → k ≤ length i.synced → Leaves i seen → Leaves i left
        → DecodesTo owner (take k seen) (Ok found) → DecodesTo owner left (Ok kept)
        → (others : List Record) × (kept ≡ found ++ others) }
    ensures batch { (owner : Owner) (i : Image) (seen left : List ℕ) (found kept : List Record)
        → IsInUseBy MOST_TURNS owner i → Leaves i seen → Leaves i left
        → DecodesTo owner seen (Ok found) → DecodesTo owner left (Ok kept)
        → (others : List Record) × (kept ≡ all_but MOST_TURNS found ++ others) }
{}
