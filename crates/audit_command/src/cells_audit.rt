//! What the cells of several sites show together.

ghost use Rattle.std.specs.Prelude.{◌≡◌, ◌==◌, ◌&&◌, if◌then◌else◌, map, IfErr, IfOk, IsErrOf};
ghost use Rattle.std.specs.Prelude.{string_bytes};
ghost use Rattle.cell_device.specs.Calls.{HasCause};
ghost use Rattle.outcomes.specs.Outcomes.{Writes, WritesPrefix};
ghost use Rattle.audit_command.specs.Audits.{IsAudit, Answers};

use crate::cell_files::CellFiles;
use crate::counts::{count_conflicts, push_counts};
use crate::evidence::versions_of;
use crate::finding_lines::push_versions;
use crate::gathered::gather;
use counted_writes::{CountedWrite, write_output};
use fed_types::Members;
use outcomes::{ProgramFault, ProgramOutput};
use std::alloc::{AllocError, Global};

/// Reads the cells of these paths, and writes which are in use, what is wrong with each, what they
/// show together of each version, and how many versions there are of each kind. The exit status is
/// 0 if nothing is wrong and there is no conflict, and else 1. If memory runs out, the line
/// `memory` is written alone, and the status is 1.
pub fn audit_on<F: CellFiles, W: CountedWrite>(
    alloc: Global,
    members: &Members,
    files: &F,
    paths: &[&str],
    output: &mut W,
) -> Result<u8, ProgramFault>
    ensures ok { IfOk result (λ status. Answers members.now (F.bytes_at files.now)
        (map (λ path. path.now) paths.now)
        (Writes (W.contents output.old) (W.contents output.new) status)) }
    ensures output { IsErrOf result ProgramFault.Output
        → Answers members.now (F.bytes_at files.now) (map (λ path. path.now) paths.now)
        (WritesPrefix (W.contents output.old) (W.contents output.new)) }
    ensures fault { IfErr result (λ fault. fault ≡ ProgramFault.Output) }
    ensures cause { HasCause ProgramFault.Output (W.failures output.old) (W.failures output.new)
        result }
{
    match answer_to(alloc, members, files, paths) {
        Ok(answer) => write_output(output, answer.status, answer.text.as_str()),
        Err(AllocError) => write_output(output, 1, "memory\n"),
    }
}

// The status and the text for the cells of these paths.
fn answer_to<F: CellFiles>(
    alloc: Global,
    members: &Members,
    files: &F,
    paths: &[&str],
) -> Result<ProgramOutput, AllocError>
    ensures { IfOk result (λ a. IsAudit members.now (F.bytes_at files.now)
        (map (λ path. path.now) paths.now)
        (record { status = a.status; text = string_bytes a.text })) }
{
    let gathered = gather(alloc, members, files, paths)?;
    let versions = versions_of(alloc, &gathered.evidence)?;
    let mut text = gathered.in_use;
    text.push_str(gathered.text.as_str())?;
    push_versions(alloc, &mut text, &versions)?;
    push_counts(&mut text, &versions)?;
    let status = status_of(gathered.all_used, count_conflicts(&versions));
    Ok(ProgramOutput { status, text })
}

// The status if this many conflicts were found.
fn status_of(all_used: bool, conflicts: usize) -> u8
    ensures { result ≡ (if all_used && conflicts == 0 then 0 else 1) }
{
    if all_used && conflicts == 0 { 0 } else { 1 }
}
