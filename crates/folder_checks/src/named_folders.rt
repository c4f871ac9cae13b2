//! Checks of folders, each line with the folder before it, however many there are.

ghost use Rattle.std.specs.Prelude.{◌≡◌, ℕ, take, map, Some, Err, IfErr, IfOk, IfSome, IsErrOf};
ghost use Rattle.std.specs.Prelude.{codes, string_bytes};
ghost use Rattle.outcomes.specs.Outcomes.{Outcome, Writes, WritesPrefix};
ghost use Rattle.cell_device.specs.Calls.{HasCause};
ghost use Rattle.bag_tree.specs.declared.fault.TreeFault.TheVariants.{Listing};
ghost use Rattle.folder_checks.specs.Reports.{TellsFor};
ghost use Rattle.folder_checks.specs.Forms.{IsForm, without_memory};
ghost use Rattle.folder_checks.specs.Names.{IsNamed, EndsAll, read_of, place_of};

use crate::explanation::{place_line, with_lines};
use crate::form::Form;
use crate::json_line::json_answer;
use crate::measure::Measured;
use crate::named::named_bytes;
use crate::report::{Detail, Report, answer_for};
use crate::several_folders::NamedAnswer;
use crate::verdict::{Verdict, line_of};
use bag_folders::Folders;
use bag_tree::TreeFault;
use counted_writes::{CountedWrite, write_bytes};
use outcomes::{ProgramFault, ProgramOutput};
use std::alloc::{AllocError, Global};
use std::str;

/// Checks the folders of these names one by one, and writes for each what a check of it alone
/// writes, with its name, escaped, and a space before each line; or its line of JSON. Names may be
/// any bytes: one that isn't UTF-8 is a folder that can't be listed. The status is 0 if each folder
/// is a valid bag, and else 1. If there was no room for the lines of a folder, they are `memory`
/// alone, or an object that says so, and the other folders have theirs.
pub fn check_names_on<F: Folders + Measured, W: CountedWrite>(
    alloc: Global,
    folders: &mut F,
    names: &[&[u8]],
    form: Form,
    output: &mut W,
) -> Result<u8, ProgramFault>
    ensures ok { IfOk result (λ status. IfSome (F.gives folders.old) (λ gives.
        EndsAll (IsForm form (F.fails_at folders.old) gives) (map (λ name. name.now) names.now)
        (Writes (W.contents output.old) (W.contents output.new) status))) }
    ensures output { IsErrOf result ProgramFault.Output → IfSome (F.gives folders.old) (λ gives.
        (count : ℕ) × EndsAll (IsForm form (F.fails_at folders.old) gives)
        (take count (map (λ name. name.now) names.now))
        (WritesPrefix (W.contents output.old) (W.contents output.new))) }
    ensures kept { F.gives folders.new ≡ F.gives folders.old }
    ensures fault { IfErr result (λ fault. fault ≡ ProgramFault.Output) }
    ensures cause { HasCause ProgramFault.Output (W.failures output.old) (W.failures output.new)
        result }
{
    let mut all_valid = true;
    for name in names {
        let status = check_name_on(alloc, folders, name, form, output)?;
        all_valid = all_valid && status == 0;
    }
    Ok(if all_valid { 0 } else { 1 })
}

// Checks the folder of this name, and writes what is asked for.
fn check_name_on<F: Folders + Measured, W: CountedWrite>(
    alloc: Global,
    folders: &mut F,
    name: &[u8],
    form: Form,
    output: &mut W,
) -> Result<u8, ProgramFault>
    ensures ok { IfOk result (λ status. IfSome (F.gives folders.old) (λ gives.
        (outcome : Outcome) × IsForm form (F.fails_at folders.old) gives name.now outcome
        × Writes (W.contents output.old) (W.contents output.new) status outcome)) }
    ensures output { IsErrOf result ProgramFault.Output → IfSome (F.gives folders.old) (λ gives.
        (outcome : Outcome) × IsForm form (F.fails_at folders.old) gives name.now outcome
        × WritesPrefix (W.contents output.old) (W.contents output.new) outcome) }
    ensures kept { F.gives folders.new ≡ F.gives folders.old }
    ensures place { F.fails_at folders.new ≡ F.fails_at folders.old }
    ensures fault { IfErr result (λ fault. fault ≡ ProgramFault.Output) }
    ensures cause { HasCause ProgramFault.Output (W.failures output.old) (W.failures output.new)
        result }
{
    match answer_in(alloc, folders, name, form) {
        Ok(answer) => write_bytes(output, answer.status, answer.text.as_slice()),
        Err(AllocError) => write_bytes(output, 1, memory_line(form)),
    }
}

// What is written where memory ran out.
fn memory_line(form: Form) -> &'static [u8]
    ensures { result.now ≡ (without_memory form).text }
{
    match form {
        Form::Lines(_) => b"memory\n",
        Form::Json(_) => b"{\"verdict\":\"memory\"}\n",
    }
}

// The answer for the folder of this name, in this form.
fn answer_in<F: Folders + Measured>(
    alloc: Global,
    folders: &mut F,
    name: &[u8],
    form: Form,
) -> Result<NamedAnswer, AllocError>
    ensures ok { IfOk result (λ answer. IfSome (F.gives folders.old) (λ gives.
        IsForm form (F.fails_at folders.old) gives name.now
        (record { status = answer.status; text = answer.text.items }))) }
    ensures kept { F.gives folders.new ≡ F.gives folders.old }
    ensures place { F.fails_at folders.new ≡ F.fails_at folders.old }
{
    match form {
        Form::Lines(report) => name_answer(alloc, folders, name, report),
        Form::Json(report) => json_answer(alloc, folders, name, report),
    }
}

// The answer for the folder of this name, with the name before each line.
fn name_answer<F: Folders>(
    alloc: Global,
    folders: &mut F,
    name: &[u8],
    report: Report,
) -> Result<NamedAnswer, AllocError>
    ensures ok { IfOk result (λ answer. IfSome (F.gives folders.old) (λ gives.
        IsNamed report (F.fails_at folders.old) gives name.now
        (record { status = answer.status; text = answer.text.items }))) }
    ensures kept { F.gives folders.new ≡ F.gives folders.old }
    ensures place { F.fails_at folders.new ≡ F.fails_at folders.old }
{
    let answer = plain_answer(alloc, folders, name, report)?;
    Ok(NamedAnswer {
        status: answer.status,
        text: named_bytes(alloc, name, answer.text.as_str())?,
    })
}

// The answer for the folder of this name, without the name.
fn plain_answer<F: Folders>(
    alloc: Global,
    folders: &mut F,
    name: &[u8],
    report: Report,
) -> Result<ProgramOutput, AllocError>
    ensures ok { IfOk result (λ answer. IfSome (F.gives folders.old) (λ gives.
        TellsFor report (read_of gives name.now) (place_of (F.fails_at folders.old) name.now)
        (λ outcome.
        (answer.status ≡ outcome.status) × (string_bytes answer.text ≡ outcome.text)))) }
    ensures kept { F.gives folders.new ≡ F.gives folders.old }
    ensures place { F.fails_at folders.new ≡ F.fails_at folders.old }
{
    match str::from_utf8(name) {
        Ok(path) => answer_for(alloc, folders, path, report),
        Err(_) => unlisted(alloc, report),
    }
}

// The answer for a folder that can't be listed.
fn unlisted(alloc: Global, report: Report) -> Result<ProgramOutput, AllocError>
    ensures { IfOk result (λ answer. TellsFor report (Err Listing) (Some (codes ".")) (λ outcome.
        (answer.status ≡ outcome.status) × (string_bytes answer.text ≡ outcome.text))) }
{
    let verdict = Verdict::Unread(TreeFault::Listing);
    match report.detail {
        Detail::Brief => line_of(alloc, verdict),
        Detail::Explained => {
            let line = place_line(alloc, TreeFault::Listing, Some("."))?;
            with_lines(alloc, verdict, line.as_str())
        }
    }
}
