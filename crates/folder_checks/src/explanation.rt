//! One check of a folder, with all that is wrong.

ghost use Rattle.std.specs.Prelude.{◌≡◌, ℕ, List, Option, Ok, option_copied, string_bytes};
ghost use Rattle.std.specs.Prelude.{IfErr, IfOk, IfSome, IsErrOf};
ghost use Rattle.outcomes.specs.Outcomes.{Writes, WritesPrefix};
ghost use Rattle.cell_device.specs.Calls.{HasCause};
ghost use Rattle.folder_checks.specs.Explanations.{ExplainsFor, IsAnswer, outcome_with};
ghost use Rattle.folder_checks.specs.Explanations.{lines_by};
ghost use Rattle.folder_checks.specs.Explanations.{unread_line};

use crate::report::Question;
use crate::verdict::{Verdict, line_of, verdict_of};
use bag_explain::{explain, explain_gaps};
use bag_folders::Folders;
use bag_tree::{Algorithms, Facts, TreeFault};
use counted_writes::{CountedWrite, write_output};
use outcomes::{ProgramFault, ProgramOutput};
use std::alloc::{AllocError, Global};
use tokens::push_escaped;

/// Checks the folder of this path, and writes its verdict as `check_on` does, with the same status.
/// Then it writes a line for each fault at each place where it holds, or for the place where the
/// folder can't be read, if that is known. If there was no room for that, it writes `memory`, with
/// status 1.
pub fn explain_on<F: Folders, W: CountedWrite>(
    alloc: Global,
    folders: &mut F,
    path: &str,
    question: Question,
    output: &mut W,
) -> Result<u8, ProgramFault>
    ensures ok { IfOk result (λ status. IfSome (F.gives folders.old) (λ gives.
        ExplainsFor question (gives path.now) (F.fails_at folders.old)
        (Writes (W.contents output.old) (W.contents output.new) status))) }
    ensures output { IsErrOf result ProgramFault.Output → IfSome (F.gives folders.old) (λ gives.
        ExplainsFor question (gives path.now) (F.fails_at folders.old)
        (WritesPrefix (W.contents output.old) (W.contents output.new))) }
    ensures kept { F.gives folders.new ≡ F.gives folders.old }
    ensures fault { IfErr result (λ fault. fault ≡ ProgramFault.Output) }
    ensures cause { HasCause ProgramFault.Output (W.failures output.old) (W.failures output.new)
        result }
{
    match answer_on(alloc, folders, path, question) {
        Ok(answer) => write_output(output, answer.status, answer.text.as_str()),
        Err(AllocError) => write_output(output, 1, "memory\n"),
    }
}

/// The answer for the folder of this path.
pub(crate) fn answer_on<F: Folders>(
    alloc: Global,
    folders: &mut F,
    path: &str,
    question: Question,
) -> Result<ProgramOutput, AllocError>
    ensures ok { IfOk result (λ answer. IfSome (F.gives folders.old) (λ gives.
        IsAnswer question (gives path.now) (F.fails_at folders.old) answer.status
        (string_bytes answer.text))) }
    ensures kept { F.gives folders.new ≡ F.gives folders.old }
    ensures place { F.fails_at folders.new ≡ F.fails_at folders.old }
{
    match folders.read(path) {
        Ok(mut facts) => {
            // A text may be listed astray as often as an adversary likes.
            facts.compute_digests(Algorithms::all());
            answer_of(alloc, &facts, question)
        }
        Err(fault) => {
            let line = place_line(alloc, fault, folders.failed_at())?;
            with_lines(alloc, Verdict::Unread(fault), line.as_str())
        }
    }
}

/// The line of the place where a folder can't be read, if there is one.
pub(crate) fn place_line(
    alloc: Global,
    fault: TreeFault,
    place: Option<&str>,
) -> Result<String, AllocError>
    ensures { IfOk result
        (λ line. string_bytes line ≡ unread_line fault (option_copied place.entry)) }
{
    let mut line = String::new(alloc);
    if let Some(place) = place {
        let number = fault.number();
        write!(line, "{number} ")?;
        push_escaped(&mut line, place)?;
        line.push('\n')?;
    }
    Ok(line)
}

// The answer for a tree of these facts.
fn answer_of(alloc: Global, facts: &Facts, question: Question) -> Result<ProgramOutput, AllocError>
    ensures { IfOk result (λ answer. (known : Option (List ℕ))
        → IsAnswer question (Ok facts.now) known answer.status (string_bytes answer.text)) }
{
    let lines = explain_by(alloc, facts, question)?;
    let verdict = verdict_of(alloc, facts, question);
    with_lines(alloc, verdict, lines.as_str())
}

/// The lines of all that is wrong with a tree of these facts.
pub(crate) fn explain_by(
    alloc: Global,
    facts: &Facts,
    question: Question,
) -> Result<String, AllocError>
    ensures { IfOk result (λ lines. string_bytes lines ≡ lines_by question facts.now) }
{
    match question {
        Question::Validity => explain(alloc, facts),
        Question::Completeness => explain_gaps(alloc, facts),
    }
}

/// A verdict's status, and its line with these after it.
pub(crate) fn with_lines(
    alloc: Global,
    verdict: Verdict,
    lines: &str,
) -> Result<ProgramOutput, AllocError>
    ensures status { IfOk result
        (λ answer. answer.status ≡ (outcome_with verdict lines.now).status) }
    ensures text { IfOk result
        (λ answer. string_bytes answer.text ≡ (outcome_with verdict lines.now).text) }
{
    let answer = line_of(alloc, verdict)?;
    let mut text = answer.text;
    text.push_str(lines)?;
    Ok(ProgramOutput {
        status: answer.status,
        text,
    })
}
