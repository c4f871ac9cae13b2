//! One run of the program on the bytes of a schedule.

ghost use Rattle.std.specs.Prelude.{◌≡◌, IfOk, IfSome, IsErrOf, string_bytes};
ghost use Rattle.std.specs.Io.KnownBytes.{Keeps};
ghost use Rattle.outcomes.specs.Outcomes.{Writes, WritesPrefix};
ghost use Rattle.bagpaxos.specs.Runs.{outcome_of, AnswersTo};

use lines::Options;
use outcomes::{ProgramFault, ProgramOutput, ReadFault, read_all, write_output};
use schedule::{ParseFault, parse};
use simulator::{RunFault, run, text};
use std::alloc::{AllocError, Global};
use std::io::{Read, Write};

/// Reads a schedule, runs it, and writes what the run says. The exit status is 0, or 1 if the text
/// is no schedule: then its line `schedule line N` is written alone. If memory runs out, the line
/// `memory` is written alone, and the status is 1.
pub fn run_on<R: Read, W: Write>(
    alloc: Global,
    input: &mut R,
    output: &mut W,
    options: Options,
) -> Result<u8, ProgramFault>
    ensures ok { IfOk result (λ status. IfSome (R.remaining input.old) (λ bytes.
        AnswersTo options bytes
        (Writes (W.contents output.old) (W.contents output.new) status))) }
    ensures input { IsErrOf result ProgramFault.Input
        → Keeps (W.contents output.old) (W.contents output.new) }
    ensures output { IsErrOf result ProgramFault.Output
        → IfSome (R.remaining input.old) (λ bytes. AnswersTo options bytes
        (WritesPrefix (W.contents output.old) (W.contents output.new))) }
{
    let bytes = match read_all(alloc, input) {
        Ok(bytes) => bytes,
        Err(ReadFault::Input) => return Err(ProgramFault::Input),
        Err(ReadFault::Memory) => return write_output(output, 1, "memory\n"),
    };
    match answer_to(alloc, bytes.as_slice(), options) {
        Ok(answer) => write_output(output, answer.status, answer.text.as_str()),
        Err(AllocError) => write_output(output, 1, "memory\n"),
    }
}

/// The status and the text for the bytes of a schedule.
#[tactic(auto, unfolding(crate::specs::Runs::outcome_of))]
fn answer_to(alloc: Global, bytes: &[u8], options: Options) -> Result<ProgramOutput, AllocError>
    ensures status { IfOk result
        (λ a. a.status ≡ (outcome_of options bytes.now).status) }
    ensures text { IfOk result
        (λ a. string_bytes a.text ≡ (outcome_of options bytes.now).text) }
{
    match parse(alloc, bytes) {
        Ok(schedule) => {
            let trace = match run(alloc, &schedule) {
                Ok(trace) => trace,
                Err(RunFault::Memory) => return Err(AllocError),
            };
            Ok(ProgramOutput {
                status: 0,
                text: text(alloc, &trace, options)?,
            })
        }
        Err(ParseFault::Line(line)) => Ok(ProgramOutput {
            status: 1,
            text: format!(in alloc; "schedule line {line}\n")?,
        }),
        Err(ParseFault::Memory) => Err(AllocError),
    }
}
