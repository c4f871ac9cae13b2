ghost use Rattle.std.specs.Prelude.{◌≡◌, ◌≢◌, ℕ, List, take, Ok, Err};
ghost use Rattle.records.specs.Journals.{DecodesTo};
ghost use Rattle.records.specs.declared.fault.JournalFault.TheVariants as faults;
ghost use Rattle.ledger.specs.declared.contents.Contents.{Contents};
ghost use Rattle.ledger.specs.declared.ending.Ending.TheVariants as endings;
ghost use Rattle.ledger.specs.Cells.{IsCell};

/// The contents of a cell are what opening it gives, under the weights that it names: its records,
/// or that it is damaged at this place, before which these are its records. It does nothing: its
/// contract is the law.
pub fn contents_are_what_opening_gives()
    ensures records { (bytes : List ℕ) (contents : Contents) → IsCell bytes contents
        → ((place : ℕ) → contents.ending ≢ endings.Damaged place)
        → DecodesTo contents.owner bytes (Ok contents.records.items) }
    ensures damage { (bytes : List ℕ) (contents : Contents) (place : ℕ) → IsCell bytes contents
        → contents.ending ≡ endings.Damaged place
        → DecodesTo contents.owner bytes (Err (faults.Damaged place))
        × DecodesTo contents.owner (take place bytes) (Ok contents.records.items) }
{}
