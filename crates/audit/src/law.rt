ghost use Rattle.std.specs.Prelude.{◌≡◌, ◌≢◌, ◌++◌, ◌↔◌, ℕ, List};
ghost use Rattle.fed_types.specs.declared.bag_id.BagId.{BagId};
ghost use Rattle.fed_types.specs.declared.vote.Vote.{Vote};
ghost use Rattle.fed_types.specs.Quorums.{QuorumSystem, AreQuorums, IsQuorum};
ghost use Rattle.fed_types.specs.Slots.{SlotName};
ghost use Rattle.world_law.specs.Laws.{IsChosen, IsChosenBy, notices_of};
ghost use Rattle.world_law.specs.Networks.{Network, Event, new_network, run};
ghost use Rattle.audit.specs.declared.finding.Finding.{Finding};
ghost use Rattle.audit.specs.declared.finding.Finding.TheVariants as findings;
ghost use Rattle.audit.specs.Evidence.{SiteRecord, network_of, AreOf, cell_of, IsPartOf};
ghost use Rattle.audit.specs.Findings.{IsFinding, members_with};
ghost use Rattle.audit.specs.Laws.{ReportNoOther};
ghost use Rattle.audit.specs.Laws.{ShowChosen, IsNamed, NameTwo, HaveNoConflict};

// A function here does nothing: its contract is the law. The cells are any of a federation's, of
// as few sites as one likes, each as it is or as it once was.

/// A site's cell may be given as it is; it may be given in part, and together with others.
pub fn cells_may_be_given_in_part()
    ensures whole { (w : Network) (n : ℕ) → AreOf w (cell_of n (w.sites n).records) }
    ensures part { (w : Network) (given part : List SiteRecord) → AreOf w given
        → IsPartOf part given → AreOf w part }
    ensures together { (w : Network) (some more : List SiteRecord) → AreOf w some → AreOf w more
        → AreOf w (some ++ more) }
{}

/// And it may be given as it once was, in an older copy.
pub fn older_copies_may_be_given()
    ensures { (q : QuorumSystem) (events later : List Event) (given : List SiteRecord)
        → AreQuorums q → AreOf (run q new_network events) given
        → AreOf (run q new_network (events ++ later)) given }
{}

/// What they show as chosen is chosen.
pub fn what_cells_show_is_chosen()
    ensures { (q : QuorumSystem) (w : Network) (given : List SiteRecord) (slot : SlotName)
        (bag : BagId) → AreOf w given → ShowChosen q given slot bag → IsChosen q w slot bag }
{}

/// They name at most one bag for a version: as chosen, or as known.
pub fn cells_have_no_conflict()
    ensures { (q : QuorumSystem) (events : List Event) (given : List SiteRecord) → AreQuorums q
        → AreOf (run q new_network events) given → HaveNoConflict q given }
{}

/// A bag that they show as chosen is the only one that any site reports, before and after.
pub fn chosen_is_all_that_is_reported()
    ensures { (q : QuorumSystem) (events later : List Event) (given : List SiteRecord)
        (slot : SlotName) (bag : BagId) → AreQuorums q
        → AreOf (run q new_network events) given → ShowChosen q given slot bag
        → ReportNoOther (notices_of q new_network (events ++ later)) slot bag }
{}

/// A vote is chosen by them exactly where the members that have it on record are a quorum.
pub fn members_are_counted()
    ensures { (q : QuorumSystem) (given : List SiteRecord) (slot : SlotName) (vote : Vote)
        → AreQuorums q → IsQuorum q (members_with q given slot vote)
        ↔ IsChosenBy q (network_of given) slot vote }
{}

/// What is found of a version of a run is no conflict, and it is a chosen bag exactly when the
/// cells show one. Whatever the cells are: if two bags are named for a version, a conflict of two
/// such bags is found; and if a bag is named, something is found.
pub fn findings_are_true()
    ensures no_conflict { (q : QuorumSystem) (events : List Event) (given : List SiteRecord)
        (slot : SlotName) (u v : BagId) → AreQuorums q
        → AreOf (run q new_network events) given
        → ¬ IsFinding q given slot (findings.Conflict u v) }
    ensures chosen { (q : QuorumSystem) (given : List SiteRecord) (slot : SlotName)
        (vote : Vote) → IsFinding q given slot (findings.Chosen vote)
        → ShowChosen q given slot vote.bag }
    ensures shown { (q : QuorumSystem) (events : List Event) (given : List SiteRecord)
        (slot : SlotName) (bag : BagId) (finding : Finding) → AreQuorums q
        → AreOf (run q new_network events) given → ShowChosen q given slot bag
        → IsFinding q given slot finding
        → (vote : Vote) × (finding ≡ findings.Chosen vote) × (vote.bag ≡ bag) }
    ensures split { (q : QuorumSystem) (given : List SiteRecord) (slot : SlotName)
        (u v : BagId) (finding : Finding) → IsNamed q given slot u → IsNamed q given slot v
        → u ≢ v → IsFinding q given slot finding → (a b : BagId)
        × (finding ≡ findings.Conflict a b) × NameTwo q given slot a b }
    ensures named { (q : QuorumSystem) (given : List SiteRecord) (slot : SlotName)
        (bag : BagId) → IsNamed q given slot bag → ¬ IsFinding q given slot findings.Open }
{}
