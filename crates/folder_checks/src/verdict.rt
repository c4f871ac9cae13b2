//! One check of a folder.

ghost use Rattle.std.specs.Prelude.{◌≡◌, ◌++◌, ◌∷◌, [], ℕ, List, Option, Some, Ok, length, IfErr};
ghost use Rattle.std.specs.Prelude.{IfOk, IfSome, IsErrOf, string_bytes};
ghost use Rattle.hex.specs.Hex.{encode_lower};
ghost use Rattle.outcomes.specs.Outcomes.{Writes, WritesPrefix};
ghost use Rattle.cell_device.specs.Calls.{HasCause};
ghost use Rattle.folder_checks.specs.Verdicts.{verdict_by, IsOrMemory, AnswersFor};
ghost use Rattle.folder_checks.specs.Verdicts.{outcome_of_verdict};
ghost use Rattle.folder_checks.specs.Explanations.{lines_by, lines_after};
ghost use Rattle.folder_checks.specs.Json.{files_in};

use crate::report::Question;
use bag_check::{BagFault, check, check_complete};
use bag_folders::Folders;
use bag_tree::{Facts, TreeFault};
use counted_writes::{CountedWrite, write_output};
use fed_types::BagId;
use outcomes::{ProgramFault, ProgramOutput};
use std::alloc::{AllocError, Global};

/// What a check of a folder comes to.
#[derive(Clone, Copy, Debug, PartialEq, Eq)]
pub enum Verdict {
    /// It is a valid bag of this identity.
    Valid(BagId),
    /// It is a complete bag of this identity. Its digests weren't asked for.
    Complete(BagId),
    /// It is no valid bag, or no complete one, for the first fault that holds; or memory ran out.
    Invalid(BagFault),
    /// It can't be read; or memory ran out.
    Unread(TreeFault),
}

/// Checks the folder of this path, and writes its verdict as one line: `valid HEX`, or
/// `complete HEX` if that is asked, with status 0, the identity in 128 hex digits; `invalid N` or
/// `unread N` with status 1, the number of the fault. If there was no room for the line, it is
/// `memory` with status 1.
pub fn check_on<F: Folders, W: CountedWrite>(
    alloc: Global,
    folders: &mut F,
    path: &str,
    question: Question,
    output: &mut W,
) -> Result<u8, ProgramFault>
    ensures ok { IfOk result (λ status. IfSome (F.gives folders.old) (λ gives.
        AnswersFor (verdict_by question (gives path.now))
        (Writes (W.contents output.old) (W.contents output.new) status))) }
    ensures output { IsErrOf result ProgramFault.Output → IfSome (F.gives folders.old) (λ gives.
        AnswersFor (verdict_by question (gives path.now))
        (WritesPrefix (W.contents output.old) (W.contents output.new))) }
    ensures kept { F.gives folders.new ≡ F.gives folders.old }
    ensures fault { IfErr result (λ fault. fault ≡ ProgramFault.Output) }
    ensures cause { HasCause ProgramFault.Output (W.failures output.old) (W.failures output.new)
        result }
{
    let verdict = verdict_on(alloc, folders, path, question);
    match line_of(alloc, verdict) {
        Ok(answer) => write_output(output, answer.status, answer.text.as_str()),
        Err(AllocError) => write_output(output, 1, "memory\n"),
    }
}

/// The verdict on the folder of this path.
pub(crate) fn verdict_on<F: Folders>(
    alloc: Global,
    folders: &mut F,
    path: &str,
    question: Question,
) -> Verdict
    ensures verdict { IfSome (F.gives folders.old)
        (λ gives. IsOrMemory result (verdict_by question (gives path.now))) }
    ensures kept { F.gives folders.new ≡ F.gives folders.old }
    ensures place { F.fails_at folders.new ≡ F.fails_at folders.old }
{
    match folders.read(path) {
        Ok(facts) => verdict_of(alloc, &facts, question),
        Err(fault) => Verdict::Unread(fault),
    }
}

/// The verdict on a tree of these facts, which were read.
pub(crate) fn verdict_of(alloc: Global, facts: &Facts, question: Question) -> Verdict
    ensures verdict { IsOrMemory result (verdict_by question (Ok facts.now)) }
    ensures lines { (place : Option (List ℕ))
        → lines_after question result (Ok facts.now) place ≡ lines_by question facts.now }
    ensures files { files_in result (Ok facts.now) ≡ Some (length facts.now.files) }
{
    match question {
        Question::Validity => match check(alloc, facts) {
            Ok(bag) => Verdict::Valid(bag),
            Err(fault) => Verdict::Invalid(fault),
        },
        Question::Completeness => match check_complete(alloc, facts) {
            Ok(bag) => Verdict::Complete(bag),
            Err(gap) => Verdict::Invalid(gap),
        },
    }
}

/// A verdict's status and its line.
pub(crate) fn line_of(alloc: Global, verdict: Verdict) -> Result<ProgramOutput, AllocError>
    ensures status { IfOk result (λ a. a.status ≡ (outcome_of_verdict verdict).status) }
    ensures text { IfOk result (λ a. string_bytes a.text ≡ (outcome_of_verdict verdict).text) }
{
    match verdict {
        Verdict::Valid(bag) => identity_line(alloc, "valid", bag),
        Verdict::Complete(bag) => identity_line(alloc, "complete", bag),
        Verdict::Invalid(fault) => {
            let number = fault.number();
            Ok(ProgramOutput {
                status: 1,
                text: format!(in alloc; "invalid {number}\n")?,
            })
        }
        Verdict::Unread(fault) => {
            let number = fault.number();
            Ok(ProgramOutput {
                status: 1,
                text: format!(in alloc; "unread {number}\n")?,
            })
        }
    }
}

// The line of this word and an identity.
fn identity_line(alloc: Global, word: &str, bag: BagId) -> Result<ProgramOutput, AllocError>
    ensures status { IfOk result (λ a. a.status ≡ 0) }
    ensures text { IfOk result
        (λ a. string_bytes a.text ≡ word.now ++ 32 ∷ (encode_lower bag.0 ++ 10 ∷ [])) }
{
    let digits = hex::encode(alloc, bag.0)?;
    Ok(ProgramOutput {
        status: 0,
        text: format!(in alloc; "{word} {digits}\n")?,
    })
}
