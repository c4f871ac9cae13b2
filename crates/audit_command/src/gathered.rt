//! The cells are read, one after another.

ghost use Rattle.std.specs.Prelude.{◌≡◌, ◌&&◌, ◌++◌, ◌∷◌, [], List, map, IfOk, OnOk, is_none};
ghost use Rattle.std.specs.Prelude.{IfSome, Some, false, ◌||◌};
ghost use Rattle.audit_command.specs.declared.cell_defect.CellDefect.TheVariants as CellDefect;
ghost use Rattle.audit.specs.Evidence.{SiteRecord};
ghost use Rattle.tokens.specs.Pushes.{Pushes};
ghost use Rattle.audit_command.specs.Audits.{AreReadings, IsRead};
ghost use Rattle.audit_command.specs.Lines.{in_use_line_if, line_if};
ghost use Rattle.audit_command.specs.CellReadings.{Reading, IsReadingOfFile};
ghost use Rattle.audit_command.specs.inner.Gathered.{IsEvidence, IsGathered};

use crate::cell_defect::CellDefect;
use crate::cell_files::CellFiles;
use crate::cell_reading::read_cell;
use crate::cell_state::CellState;
use crate::evidence::{Evidence, no_evidence};
use crate::finding_lines::push_fault;
use crate::in_use_line::push_in_use;
use crate::sync_rule::rule_for;
use fed_types::Members;
use std::alloc::{AllocError, Global};
use std::hash::RandomState;

/// What was gathered of the cells.
#[derive(Drop)]
pub(crate) struct Gathered {
    pub(crate) evidence: Evidence,
    /// The lines of the cells that are in use.
    pub(crate) in_use: String,
    /// The lines of the cells that can't be used as they are.
    pub(crate) text: String,
    /// Whether there is no such line.
    pub(crate) all_used: bool,
}

// No cell was read.
fn nothing_gathered(alloc: Global, members: Members, hashing: RandomState) -> Gathered
    ensures { IsGathered members result [] }
{
    Gathered {
        evidence: no_evidence(alloc, members, hashing),
        in_use: String::new(alloc),
        text: String::new(alloc),
        all_used: true,
    }
}

// Reads a cell that was opened, counts what it says, and gives what else is known of it.
fn add_records_in<F: CellFiles>(
    alloc: Global,
    members: &Members,
    files: &F,
    evidence: &mut Evidence,
    cell: &mut F::Cell,
    path: &str,
) -> Result<CellState, AllocError>
    ensures { IfOk result (λ state. (given : List SiteRecord)
        → IsEvidence members.now evidence.old given → (counted : List SiteRecord)
        × IfSome (F.left cell.old)
        (λ file. IsReadingOfFile members.now (Some file) state.in_use state.fault counted)
        × IsEvidence members.now evidence.new (given ++ counted)) }
{
    let in_use = files.is_in_use(cell);
    if !is_sure(files, cell, path, in_use) {
        return Ok(unread());
    }
    let rule = rule_for(in_use, files.synced(cell));
    let fault = read_cell(alloc, members, files, cell, rule, evidence)?;
    Ok(CellState { in_use, fault })
}

// Whether the counted records of a cell are sure to outlive a crash: one that isn't in use is
// synced.
fn is_sure<F: CellFiles>(files: &F, cell: &F::Cell, path: &str, in_use: bool) -> bool
    ensures { IfSome (F.left cell.now) (λ file. result ≡ (in_use || file.can_sync)) }
{
    in_use || files.sync(cell, path)
}

// The state of a cell of which nothing is counted.
fn unread() -> CellState
    ensures in_use { result.in_use ≡ false }
    ensures fault { result.fault ≡ Some CellDefect.Unread }
{
    CellState {
        in_use: false,
        fault: Some(CellDefect::Unread),
    }
}

// The same of the cell of a path.
fn add_records_of<F: CellFiles>(
    alloc: Global,
    members: &Members,
    files: &F,
    evidence: &mut Evidence,
    path: &str,
) -> Result<CellState, AllocError>
    ensures { IfOk result (λ state. (given : List SiteRecord)
        → IsEvidence members.now evidence.old given → (counted : List SiteRecord)
        × IfSome (F.bytes_at files.now path.now)
        (λ file. IsReadingOfFile members.now file state.in_use state.fault counted)
        × IsEvidence members.now evidence.new (given ++ counted)) }
{
    match files.open(path)? {
        Some(mut cell) => add_records_in(alloc, members, files, evidence, &mut cell, path),
        None => Ok(unread()),
    }
}

// Adds that a cell is in use, if it is.
fn add_use(text: &mut String, path: &str, in_use: bool) -> Result<(), AllocError>
    ensures { Pushes result text.old text.new (in_use_line_if path.now in_use) }
{
    if in_use {
        push_in_use(text, path)
    } else {
        Ok(())
    }
}

// Adds what is wrong with a cell, if anything is.
fn add_fault(text: &mut String, path: &str, fault: Option<CellDefect>) -> Result<(), AllocError>
    ensures { Pushes result text.old text.new (line_if path.now fault) }
{
    match fault {
        Some(fault) => push_fault(text, path, fault),
        None => Ok(()),
    }
}

// Whether nothing was wrong before, and nothing is now.
fn still_used(all_used: bool, fault: Option<CellDefect>) -> bool
    ensures { result ≡ (all_used && is_none fault) }
{
    all_used && fault.is_none()
}

// One more cell is read.
fn add_cell<F: CellFiles>(
    alloc: Global,
    members: &Members,
    files: &F,
    gathered: &mut Gathered,
    path: &str,
) -> Result<(), AllocError>
    ensures { OnOk result ((readings : List Reading)
        → IsGathered members.now gathered.old readings
        → (r : Reading) × (r.path ≡ path.now)
        × IsRead members.now (F.bytes_at files.now) r
        × IsGathered members.now gathered.new (readings ++ r ∷ [])) }
{
    let state = add_records_of(alloc, members, files, &mut gathered.evidence, path)?;
    add_use(&mut gathered.in_use, path, state.in_use)?;
    add_fault(&mut gathered.text, path, state.fault)?;
    gathered.all_used = still_used(gathered.all_used, state.fault);
    Ok(())
}

/// Reads the cells of these paths.
pub(crate) fn gather<F: CellFiles>(
    alloc: Global,
    members: &Members,
    files: &F,
    paths: &[&str],
) -> Result<Gathered, AllocError>
    ensures { IfOk result (λ gathered. (readings : List Reading)
        × AreReadings members.now (F.bytes_at files.now) (map (λ path. path.now) paths.now) readings
        × IsGathered members.now gathered readings) }
{
    let mut gathered = nothing_gathered(alloc, *members, files.hashing());
    for path in paths {
        add_cell(alloc, members, files, &mut gathered, path)?;
    }
    Ok(gathered)
}
