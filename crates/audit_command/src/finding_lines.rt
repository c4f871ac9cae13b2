//! The line of a version, and that of a cell that can't be used as it is.

ghost use Rattle.std.specs.Prelude.{◌≡◌};
ghost use Rattle.std.specs.List.{flat_map};
ghost use Rattle.tokens.specs.Pushes.{Pushes};
ghost use Rattle.audit_command.specs.Lines.{fault_word, place_text, fault_line, finding_word};
ghost use Rattle.audit_command.specs.Lines.{finding_text, version_line};

use crate::cell_defect::CellDefect;
use crate::version::Version;
use audit::Finding;
use fed_types::{BagId, Ballot, Slot, Vote};
use std::alloc::{AllocError, Global};
use tokens::{push_bag, push_ballot, push_escaped, push_slot};

fn fault_word(fault: CellDefect) -> &'static str
    ensures { result.now ≡ fault_word fault }
{
    match fault {
        CellDefect::Unread => "unread ",
        CellDefect::Foreign => "foreign ",
        CellDefect::Damaged(_) => "damaged ",
    }
}

// Where the damage begins.
fn push_place(text: &mut String, fault: CellDefect) -> Result<(), AllocError>
    ensures { Pushes result text.old text.new (place_text fault) }
{
    match fault {
        CellDefect::Unread | CellDefect::Foreign => Ok(()),
        CellDefect::Damaged(place) => write!(text, " {place}"),
    }
}

/// Appends the line for what is wrong with the cell of this path.
#[tactic(auto, unfolding(crate::specs::Lines::fault_line), using(std::proofs::Common::append_assoc))]
pub(crate) fn push_fault(text: &mut String, path: &str, fault: CellDefect) -> Result<(), AllocError>
    ensures { Pushes result text.old text.new (fault_line path.now fault) }
{
    text.push_str(fault_word(fault))?;
    push_escaped(text, path)?;
    push_place(text, fault)?;
    text.push('\n')
}

fn finding_word(finding: &Finding) -> &'static str
    ensures { result.now ≡ finding_word finding.now }
{
    match finding {
        Finding::Chosen(_) => "chosen ",
        Finding::Known(_) => "known ",
        Finding::Open => "open ",
        Finding::Conflict(..) => "conflict ",
    }
}

// The chosen bag, and its ballot.
#[tactic(auto, using(std::proofs::Common::append_assoc))]
fn push_vote(alloc: Global, text: &mut String, vote: Vote) -> Result<(), AllocError>
    ensures { Pushes result text.old text.new (finding_text (Finding.Chosen vote)) }
{
    push_bag(alloc, text, vote.bag)?;
    push_ballot(text, vote.ballot)
}

// The two bags of a conflict.
#[tactic(auto, using(std::proofs::Common::append_assoc))]
fn push_both(alloc: Global, text: &mut String, one: BagId, other: BagId) -> Result<(), AllocError>
    ensures { Pushes result text.old text.new (finding_text (Finding.Conflict one other)) }
{
    push_bag(alloc, text, one)?;
    push_bag(alloc, text, other)
}

// The bags of what was found, and the ballot.
fn push_finding(alloc: Global, text: &mut String, finding: &Finding) -> Result<(), AllocError>
    ensures { Pushes result text.old text.new (finding_text finding.now) }
{
    match finding {
        Finding::Chosen(vote) => push_vote(alloc, text, *vote),
        Finding::Known(bag) => push_bag(alloc, text, *bag),
        Finding::Open => Ok(()),
        Finding::Conflict(one, other) => push_both(alloc, text, *one, *other),
    }
}

// Appends the line of what the cells say of a version.
#[tactic(auto, unfolding(crate::specs::Lines::version_line), using(std::proofs::Common::append_assoc))]
fn push_version(alloc: Global, text: &mut String, version: &Version) -> Result<(), AllocError>
    ensures { Pushes result text.old text.new (version_line version.now) }
{
    text.push_str(finding_word(&version.finding))?;
    push_slot(text, &version.slot)?;
    push_finding(alloc, text, &version.finding)?;
    text.push('\n')
}

/// Appends the lines of what the cells say of these versions.
pub(crate) fn push_versions(
    alloc: Global,
    text: &mut String,
    versions: &[Version],
) -> Result<(), AllocError>
    ensures { Pushes result text.old text.new (flat_map version_line versions.now) }
{
    for version in versions {
        push_version(alloc, text, version)?;
    }
    Ok(())
}
