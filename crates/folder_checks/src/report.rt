//! What is said of a checked folder.

ghost use Rattle.std.specs.Prelude.{◌≡◌, IfOk, IfSome, string_bytes};
ghost use Rattle.folder_checks.specs.Reports.{TellsFor};

use crate::explanation::answer_on;
use crate::verdict::{line_of, verdict_on};
use bag_folders::Folders;
use outcomes::ProgramOutput;
use std::alloc::{AllocError, Global};

/// What is asked of a folder.
#[derive(Clone, Copy, Debug, PartialEq, Eq)]
pub enum Question {
    /// Whether it is a valid bag.
    Validity,
    /// Whether it is a complete one, whatever its digests are (RFC 8493, 3).
    Completeness,
}

/// How much a report says about a folder.
#[derive(Clone, Copy, Debug, PartialEq, Eq)]
pub enum Detail {
    /// The line of its verdict.
    Brief,
    /// Also all that is wrong, or where it can't be read.
    Explained,
}

/// What a report says about a folder.
#[derive(Clone, Copy, Debug, PartialEq, Eq)]
pub struct Report {
    pub question: Question,
    pub detail: Detail,
}

/// The answer for the folder of this path.
pub(crate) fn answer_for<F: Folders>(
    alloc: Global,
    folders: &mut F,
    path: &str,
    report: Report,
) -> Result<ProgramOutput, AllocError>
    ensures ok { IfOk result (λ answer. IfSome (F.gives folders.old) (λ gives.
        TellsFor report (gives path.now) (F.fails_at folders.old) (λ outcome.
        (answer.status ≡ outcome.status) × (string_bytes answer.text ≡ outcome.text)))) }
    ensures kept { F.gives folders.new ≡ F.gives folders.old }
    ensures place { F.fails_at folders.new ≡ F.fails_at folders.old }
{
    match report.detail {
        Detail::Brief => {
            let verdict = verdict_on(alloc, folders, path, report.question);
            line_of(alloc, verdict)
        }
        Detail::Explained => answer_on(alloc, folders, path, report.question),
    }
}
