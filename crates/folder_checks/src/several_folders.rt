//! Checks of several folders.

ghost use Rattle.std.specs.Prelude.{◌≡◌, ℕ, take, map, IfErr, IfOk, IfSome, IsErrOf};
ghost use Rattle.outcomes.specs.Outcomes.{Outcome, Writes, WritesPrefix};
ghost use Rattle.cell_device.specs.Calls.{HasCause};
ghost use Rattle.folder_checks.specs.Reports.{IsReport, ReportsAll};

use crate::named::named;
use crate::report::{Report, answer_for};
use bag_folders::Folders;
use counted_writes::{CountedWrite, write_bytes};
use outcomes::ProgramFault;
use std::alloc::{AllocError, Global};

/// Checks the folders of these paths one by one. For each it writes what a check of it alone
/// writes, with its path, escaped as in a schedule, and a space before each line. The status is 0
/// if each folder is a valid bag, and else 1. If there was no room for the lines of a folder, they
/// are `memory` alone, and the other folders have theirs.
pub fn check_each_on<F: Folders, W: CountedWrite>(
    alloc: Global,
    folders: &mut F,
    paths: &[&str],
    report: Report,
    output: &mut W,
) -> Result<u8, ProgramFault>
    ensures ok { IfOk result (λ status. IfSome (F.gives folders.old) (λ gives.
        ReportsAll report gives (F.fails_at folders.old) (map (λ path. path.now) paths.now)
        (Writes (W.contents output.old) (W.contents output.new) status))) }
    ensures output { IsErrOf result ProgramFault.Output → IfSome (F.gives folders.old) (λ gives.
        (count : ℕ) × ReportsAll report gives (F.fails_at folders.old)
        (take count (map (λ path. path.now) paths.now))
        (WritesPrefix (W.contents output.old) (W.contents output.new))) }
    ensures kept { F.gives folders.new ≡ F.gives folders.old }
    ensures fault { IfErr result (λ fault. fault ≡ ProgramFault.Output) }
    ensures cause { HasCause ProgramFault.Output (W.failures output.old) (W.failures output.new)
        result }
{
    let mut all_valid = true;
    for path in paths {
        let status = check_named_on(alloc, folders, path, report, output)?;
        all_valid = all_valid && status == 0;
    }
    Ok(if all_valid { 0 } else { 1 })
}

// Checks one of several folders, and writes its lines.
fn check_named_on<F: Folders, W: CountedWrite>(
    alloc: Global,
    folders: &mut F,
    path: &str,
    report: Report,
    output: &mut W,
) -> Result<u8, ProgramFault>
    ensures ok { IfOk result (λ status. IfSome (F.gives folders.old) (λ gives.
        (outcome : Outcome)
        × IsReport report (gives path.now) (F.fails_at folders.old) path.now outcome
        × Writes (W.contents output.old) (W.contents output.new) status outcome)) }
    ensures output { IsErrOf result ProgramFault.Output → IfSome (F.gives folders.old) (λ gives.
        (outcome : Outcome)
        × IsReport report (gives path.now) (F.fails_at folders.old) path.now outcome
        × WritesPrefix (W.contents output.old) (W.contents output.new) outcome) }
    ensures kept { F.gives folders.new ≡ F.gives folders.old }
    ensures place { F.fails_at folders.new ≡ F.fails_at folders.old }
    ensures fault { IfErr result (λ fault. fault ≡ ProgramFault.Output) }
    ensures cause { HasCause ProgramFault.Output (W.failures output.old) (W.failures output.new)
        result }
{
    match named_answer(alloc, folders, path, report) {
        Ok(answer) => write_bytes(output, answer.status, answer.text.as_slice()),
        Err(AllocError) => write_bytes(output, 1, b"memory\n"),
    }
}

/// An exit status, and the bytes to write.
#[derive(Drop)]
pub(crate) struct NamedAnswer {
    pub status: u8,
    pub text: Vec<u8>,
}

// The answer for one of several folders.
fn named_answer<F: Folders>(
    alloc: Global,
    folders: &mut F,
    path: &str,
    report: Report,
) -> Result<NamedAnswer, AllocError>
    ensures ok { IfOk result (λ answer. IfSome (F.gives folders.old) (λ gives.
        IsReport report (gives path.now) (F.fails_at folders.old) path.now
        (record { status = answer.status; text = answer.text.items }))) }
    ensures kept { F.gives folders.new ≡ F.gives folders.old }
    ensures place { F.fails_at folders.new ≡ F.fails_at folders.old }
{
    let answer = answer_for(alloc, folders, path, report)?;
    Ok(NamedAnswer {
        status: answer.status,
        text: named(alloc, path, answer.text.as_str())?,
    })
}
