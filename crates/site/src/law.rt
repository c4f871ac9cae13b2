ghost use Rattle.std.specs.Prelude.{◌≡◌, ℕ, List, ◌++◌, Some};
ghost use Rattle.fed_types.specs.Quorums.{QuorumSystem};
ghost use Rattle.records.specs.declared.record.Record.{Record};
ghost use Rattle.records.specs.SlotStates.{known_of};
ghost use Rattle.site.specs.Reported.{Act, Report, Agree, records_after, report_of, reports_of};

/// A site never reports two bags for one slot, whatever arrives, and however often it is opened:
/// its records are only added to, and a report names the bag of the slot's first Known record,
/// which the site then has. It does nothing: its contract is the law.
pub fn a_site_reports_one_bag()
    ensures agree { (q : QuorumSystem) (site : ℕ) (records : List Record) (acts : List Act)
        → Agree (reports_of q site records acts) }
    ensures known { (q : QuorumSystem) (site : ℕ) (records : List Record) (act : Act)
        (report : Report) → report_of q site records act ≡ Some report
        → known_of report.slot (records_after q site records act) ≡ Some report.bag }
    ensures grow { (q : QuorumSystem) (site : ℕ) (records : List Record) (act : Act)
        → (more : List Record) × (records_after q site records act ≡ records ++ more) }
{}
