//! Checks of folders against bags that are known.

ghost use Rattle.std.specs.Prelude.{◌≡◌, ℕ, take, map, IfOk, IfErr, IfSome, OnErr, IsErrOf, IsTrue};
ghost use Rattle.std.specs.Prelude.{string_bytes};
ghost use Rattle.std.specs.Option.{ForSome};
ghost use Rattle.std.specs.Io.KnownBytes.{Appends};
ghost use Rattle.cell_device.specs.Calls.{HasCause};
ghost use Rattle.outcomes.specs.Outcomes.{WritesPrefix, no_memory};
ghost use Rattle.registered_checks.specs.Held.{held_of};
ghost use Rattle.registered_checks.specs.Checks.{status_of, ComparesOn, ComparesFirst, Ends};
ghost use Rattle.registered_checks.specs.Checks.{agree};
ghost use Rattle.registered_checks.specs.inner.Answers.{IsComparison, IsOrMemory};

use crate::comparison_lines::comparison_text;
use crate::equality::are_equal;
use crate::held_bag::HeldBag;
use crate::noted_folders::NotedFolders;
use bag_folders::Folders;
use counted_writes::{CountedWrite, write_output};
use folder_checks::{Detail, Question, Report, check_all_on};
use known_bags::KnownBag;
use outcomes::{ProgramFault, ProgramOutput};
use std::alloc::{AllocError, Global};

/// How a check of folders against known bags ended.
#[derive(Drop)]
pub struct Checked<F> {
    pub folders: F,
    /// The exit status, and what is to be said of the bags on standard error.
    pub answer: ProgramOutput,
}

/// Checks the folders of these paths, writes what the check alone writes, and compares the bags
/// that they hold with those that are known. The answer has the text of the comparison, and the
/// status of the check, but 1 if a bag isn't known or a known one isn't held. If memory runs out
/// before it is made, `memory` is written too, there is nothing to say, and the status is 1.
pub fn check_known_on<F: Folders + Drop, W: CountedWrite>(
    alloc: Global,
    folders: F,
    paths: &[&str],
    detail: Detail,
    known: &[KnownBag],
    output: &mut W,
) -> Result<Checked<F>, ProgramFault>
    ensures ok { IfOk result (λ checked. IfSome (F.gives folders) (λ gives.
        ComparesOn detail gives (F.fails_at folders) (map (λ path. path.now) paths.now) known.now
        (Ends (W.contents output.old) (W.contents output.new) checked.answer.status
        (string_bytes checked.answer.text)))) }
    // The status 0 means that each folder is a valid bag, and that these are the known bags.
    ensures zero { IfOk result (λ checked. checked.answer.status ≡ 0
        → IfSome (F.gives folders) (λ gives.
        IsTrue (agree gives (map (λ path. path.now) paths.now) known.now))) }
    ensures output { IsErrOf result ProgramFault.Output → IfSome (F.gives folders) (λ gives.
        ComparesFirst detail gives (F.fails_at folders) (map (λ path. path.now) paths.now)
        (WritesPrefix (W.contents output.old) (W.contents output.new))) }
    ensures kept { IfOk result (λ checked. F.gives checked.folders ≡ F.gives folders) }
    ensures fault { IfErr result (λ fault. fault ≡ ProgramFault.Output) }
    ensures cause { HasCause ProgramFault.Output (W.failures output.old) (W.failures output.new)
        result }
{
    let report = Report {
        question: Question::Validity,
        detail,
    };
    let mut folders = NotedFolders::new(alloc, folders);
    let status = check_all_on(alloc, &mut folders, paths, report, output)?;
    let comparison = comparison_of(alloc, &folders, paths, known, status);
    let answer = answer_or_memory(alloc, comparison, output)?;
    Ok(Checked {
        folders: folders.into_folders(),
        answer,
    })
}

// The comparison of the bags of these folders with those that are known, after a check of this
// status; none if memory ran out.
fn comparison_of<F: Folders>(
    alloc: Global,
    folders: &NotedFolders<F>,
    paths: &[&str],
    known: &[KnownBag],
    status: u8,
) -> Option<ProgramOutput>
    ensures { IfSome result (λ answer. ForSome (F.gives folders.now.folders) (λ gives.
        IsComparison (held_of gives (map (λ path. path.now) paths.now)) known.now status answer)) }
{
    match folders.held(paths) {
        Some(held) => answer_of(alloc, held, known, status),
        None => None,
    }
}

// The comparison of these bags with those that are known.
fn answer_of(
    alloc: Global,
    held: &[HeldBag],
    known: &[KnownBag],
    status: u8,
) -> Option<ProgramOutput>
    ensures { IfSome result (IsComparison held.now known.now status) }
{
    match comparison_text(alloc, held, known) {
        Ok(text) => Some(ProgramOutput {
            status: status_of(held, known, status),
            text,
        }),
        Err(AllocError) => None,
    }
}

// The status after a check of this one.
fn status_of(held: &[HeldBag], known: &[KnownBag], status: u8) -> u8
    ensures { result ≡ status_of held.now known.now status }
{
    if are_equal(held, known) { status } else { 1 }
}

// Writes the comparison; if there is none, that memory ran out.
fn answer_or_memory<W: CountedWrite>(
    alloc: Global,
    comparison: Option<ProgramOutput>,
    output: &mut W,
) -> Result<ProgramOutput, ProgramFault>
    ensures ok { IfOk result
        (IsOrMemory comparison (W.contents output.old) (W.contents output.new)) }
    ensures err { OnErr result ((n : ℕ)
        × Appends (W.contents output.old) (W.contents output.new) (take n no_memory.text)) }
    ensures fault { IfErr result (λ fault. fault ≡ ProgramFault.Output) }
    ensures cause { HasCause ProgramFault.Output (W.failures output.old) (W.failures output.new)
        result }
{
    match comparison {
        Some(answer) => Ok(answer),
        None => Ok(ProgramOutput {
            status: write_output(output, 1, "memory\n")?,
            text: String::new(alloc),
        }),
    }
}
