//! Whose a cell is, and what is wrong with it.

ghost use Rattle.std.specs.Prelude.{◌≡◌, ◌↔◌, IsTrue, option_map};
ghost use Rattle.std.specs.List.{All};
ghost use Rattle.audit_command.specs.CellReadings.{HasWeights, IsMembers, damage_of};
ghost use Rattle.audit_command.specs.inner.Standings.{IsStanding, IsStandingAfter, fault_of};

use crate::cell_defect::CellDefect;
use fed_types::{Members, SiteNo};
use ledger::{Ending, Head};
use records::Record;

/// Whose a cell is, by what was read of it.
#[derive(Clone, Copy, Debug)]
pub(crate) enum Standing {
    /// No header was read.
    Unknown,
    /// It is this member's.
    Member(SiteNo),
    /// It is of another federation, of no member, or of other weights.
    Foreign,
}

// Whether all weights are 1.
fn are_ones(weights: &[u8]) -> bool
    ensures { IsTrue result ↔ All (λ w. w ≡ 1) weights.now }
{
    weights.iter().all(|weight| *weight == 1)
}

// Whether the weights of a cell of this head and these records are the members'.
fn has_weights(members: &Members, head: &Head, records: &[Record]) -> bool
    ensures { IsTrue result ↔ HasWeights members.now head.now.names_weights
        head.now.owner.members.weights records.now }
{
    if head.names_weights {
        return head.owner.members.weights() == members.weights();
    }
    records.is_empty() || are_ones(members.weights())
}

// Whether a cell of this head and these records is one of the federation's.
fn is_members(members: &Members, head: &Head, records: &[Record]) -> bool
    ensures { IsTrue result ↔ IsMembers members.now head.now records.now }
{
    let owner = &head.owner;
    owner.members.federation() == members.federation()
        && members.has(owner.site)
        && has_weights(members, head, records)
}

// Whose a cell of this head and these records is.
fn standing_of(members: &Members, head: &Head, records: &[Record]) -> Standing
    ensures { IsStanding members.now head.now records.now result }
{
    if is_members(members, head, records) {
        Standing::Member(head.owner.site)
    } else {
        Standing::Foreign
    }
}

/// Whose a cell is after a part that has this head and these records.
pub(crate) fn standing_after(
    members: &Members,
    before: Standing,
    head: &Option<Head>,
    records: &[Record],
) -> Standing
    ensures { IsStandingAfter members.now before head.now records.now result }
{
    match head {
        Some(head) => standing_of(members, head, records),
        None => before,
    }
}

// Where a cell that ends so is damaged, if it is.
fn damage_of(ending: Ending) -> Option<CellDefect>
    ensures { result ≡ damage_of ending }
{
    match ending {
        Ending::Damaged(place) => Some(CellDefect::Damaged(place)),
        Ending::Whole | Ending::Torn(_) => None,
    }
}

/// What is wrong with a cell that ends so.
pub(crate) fn fault_of(standing: &Standing, ending: Ending) -> Option<CellDefect>
    ensures { result ≡ fault_of standing.now ending }
{
    match standing {
        Standing::Unknown => Some(CellDefect::Unread),
        Standing::Member(_) => damage_of(ending),
        Standing::Foreign => Some(CellDefect::Foreign),
    }
}
