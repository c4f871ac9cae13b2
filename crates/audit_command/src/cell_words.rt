//! How a cell was opened and synced, in words.

ghost use Rattle.std.specs.Prelude.{◌++◌};
ghost use Rattle.code_words.specs.Names.{shown_name};
ghost use Rattle.tokens.specs.Pushes.{Pushes};
ghost use Rattle.audit_command.specs.Words.{Explains};

use crate::disk_cells::AuditedCell;
use code_words::{path_fault, push_name};
use std::alloc::AllocError;
use std::fmt::Display;
use std::io::{self, ErrorKind};

const IN_USE: &str =
    " is in use: of its last 64 records only those are counted that its site says are synced";

const PIPED: &str =
    " comes through a pipe and can't be synced, so its last 64 records aren't counted";

const FREE: &str = " isn't in use, and was synced before it was read";

/// Says on standard error that the cell of this path is in use, or why it can't be opened. If
/// standard error can't be written, or memory runs out, it says nothing.
pub(crate) fn say_opened(rt: &HostRuntime, path: &str, opened: &io::Result<AuditedCell>) {
    match opened {
        Ok(cell) if cell.is_pipe() => say_state(rt, path, PIPED),
        Ok(cell) if !cell.in_use => {}
        Ok(_) => say_state(rt, path, IN_USE),
        Err(error) => say_unopened(rt, path, error),
    }
}

/// Says in the same way that it was synced, or why it can't be.
pub(crate) fn say_synced(rt: &HostRuntime, path: &str, synced: &io::Result<()>) {
    match synced {
        Ok(()) => say_state(rt, path, FREE),
        Err(error) => say_unopened(rt, path, error),
    }
}

fn say_state(rt: &HostRuntime, path: &str, state: &str) {
    let mut text = String::new(rt.alloc());
    if push_state(&mut text, path, state).is_ok() {
        let _ = rt.eprintln(text.as_str());
    }
}

fn say_unopened(rt: &HostRuntime, path: &str, error: &io::Error) {
    if let Some(fault) = path_fault(rt, path, error.kind()) {
        return say_state(rt, path, fault);
    }
    let mut text = String::new(rt.alloc());
    if push_unopened(&mut text, path, error.kind(), error).is_ok() {
        let _ = rt.eprintln(text.as_str());
    }
}

// Appends the cell's path, and its state.
#[tactic(auto, using(std::proofs::Common::append_assoc))]
fn push_state(text: &mut String, path: &str, state: &str) -> Result<(), AllocError>
    ensures { Pushes result text.old text.new (shown_name path.now ++ state.now) }
{
    push_name(text, path)?;
    text.push_str(state)
}

// Appends the cell's path, and why it isn't read: an error of this kind, which says this.
#[tactic(auto, using(std::proofs::Common::append_assoc))]
fn push_unopened<E: Display>(
    text: &mut String,
    path: &str,
    kind: ErrorKind,
    error: &E,
) -> Result<(), AllocError>
    ensures { Explains kind (E.output error.now)
        (λ why. Pushes result text.old text.new (shown_name path.now ++ why)) }
{
    push_name(text, path)?;
    push_error(text, kind, error)
}

// Appends why a cell isn't read.
fn push_error<E: Display>(text: &mut String, kind: ErrorKind, error: &E) -> Result<(), AllocError>
    ensures { Explains kind (E.output error.now) (λ why. Pushes result text.old text.new why) }
{
    match kind {
        ErrorKind::NotFound => text.push_str(" isn't there"),
        ErrorKind::PermissionDenied => text.push_str(" may not be opened by this user"),
        ErrorKind::InvalidInput => text.push_str(" isn't a file, as a cell is"),
        _ => write!(
            text,
            " can't be opened or synced, and isn't counted: {error}"
        ),
    }
}
