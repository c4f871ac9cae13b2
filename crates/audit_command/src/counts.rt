//! How many versions there are of each kind.

ghost use Rattle.std.specs.Prelude.{◌≡◌};
ghost use Rattle.tokens.specs.Pushes.{Pushes};
ghost use Rattle.audit_command.specs.Lines.{counts_line};
ghost use Rattle.audit_command.specs.Versions.{is_chosen, is_known, is_open, is_conflict, count_of};

use crate::version::Version;
use audit::Finding;
use std::alloc::AllocError;

fn is_chosen(finding: &Finding) -> bool
    ensures { result ≡ is_chosen finding.now }
{
    matches!(finding, Finding::Chosen(_))
}

fn is_known(finding: &Finding) -> bool
    ensures { result ≡ is_known finding.now }
{
    matches!(finding, Finding::Known(_))
}

fn is_open(finding: &Finding) -> bool
    ensures { result ≡ is_open finding.now }
{
    matches!(finding, Finding::Open)
}

fn is_conflict(finding: &Finding) -> bool
    ensures { result ≡ is_conflict finding.now }
{
    matches!(finding, Finding::Conflict(..))
}

fn count_chosen(versions: &[Version]) -> usize
    ensures { result ≡ count_of is_chosen versions.now }
{
    versions
        .iter()
        .filter(|version| is_chosen(&version.finding))
        .count()
}

fn count_known(versions: &[Version]) -> usize
    ensures { result ≡ count_of is_known versions.now }
{
    versions
        .iter()
        .filter(|version| is_known(&version.finding))
        .count()
}

fn count_open(versions: &[Version]) -> usize
    ensures { result ≡ count_of is_open versions.now }
{
    versions
        .iter()
        .filter(|version| is_open(&version.finding))
        .count()
}

/// How many conflicts there are.
pub(crate) fn count_conflicts(versions: &[Version]) -> usize
    ensures { result ≡ count_of is_conflict versions.now }
{
    versions
        .iter()
        .filter(|version| is_conflict(&version.finding))
        .count()
}

/// Appends how many there are of each kind.
#[tactic(auto, unfolding(crate::specs::Lines::counts_line), using(std::proofs::Common::append_assoc))]
pub(crate) fn push_counts(text: &mut String, versions: &[Version]) -> Result<(), AllocError>
    ensures { Pushes result text.old text.new (counts_line versions.now) }
{
    let chosen = count_chosen(versions);
    let known = count_known(versions);
    let open = count_open(versions);
    let conflicts = count_conflicts(versions);
    write!(
        text,
        "{chosen} chosen, {known} known, {open} open, {conflicts} conflicts\n"
    )
}
