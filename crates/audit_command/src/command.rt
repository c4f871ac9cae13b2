//! The command `audit`: over the files of cells.

ghost use Rattle.std.specs.Prelude.{◌≡◌, map, IfErr, IfOk, IsErrOf};
ghost use Rattle.cell_device.specs.Calls.{HasCause};
ghost use Rattle.members_file.specs.Files.{members_named};
ghost use Rattle.outcomes.specs.Outcomes.{Writes, WritesPrefix};
ghost use Rattle.audit_command.specs.Audits.{Answers};

use crate::arguments::AuditTask;
use crate::audit_speaker::AuditSpeaker;
use crate::cell_files::CellFiles;
use crate::cells_audit::audit_on;
use crate::disk_cells::DiskCells;
use code_words::{Asked, AskedSpeaker, SpokenLines};
use counted_writes::{CountedWrite, CountedWriter};
use json_lines::JsonLines;
use members_file::MemberSites;
use outcomes::ProgramFault;
use site_client::{Stop, members_at, write_stop};
use std::alloc::Global;
use std::hash::RandomState;
use std::io;

/// Prints what the cells show together, to standard output, and on standard error in words how each
/// was opened, what is amiss with it, and which name the bags of a conflict, where that is asked
/// for.
pub fn print_audit(rt: &HostRuntime, task: &AuditTask<'_>) -> Result<u8, ProgramFault> {
    let Ok(hashing) = RandomState::new(rt) else {
        let _ = rt.eprintln("error: the system gives no random numbers");
        return Ok(1);
    };
    match members_at(rt, task.members) {
        Ok(file) => {
            let files = DiskCells {
                rt,
                words: task.words,
                hashing,
            };
            let speaker = AuditSpeaker::if_asked(rt, task);
            let output = JsonLines::new(rt.alloc(), task.json, io::writer(rt));
            let output = SpokenLines::new(rt.alloc(), speaker, output);
            let mut output = CountedWriter::new(output);
            audit_task_on(rt.alloc(), &file, task, &files, &mut output)
        }
        Err(stop) => refuse(rt, task, stop),
    }
}

/// Reads the cells of this task, and writes what they show together by the members in the file that
/// it names. `audit_on` says what.
pub fn audit_task_on<F: CellFiles, W: CountedWrite>(
    alloc: Global,
    file: &MemberSites,
    task: &AuditTask<'_>,
    files: &F,
    output: &mut W,
) -> Result<u8, ProgramFault>
    ensures ok { IfOk result (λ status. Answers (members_named file.now) (F.bytes_at files.now)
        (map (λ path. path.now) task.now.cells.items)
        (Writes (W.contents output.old) (W.contents output.new) status)) }
    ensures output { IsErrOf result ProgramFault.Output
        → Answers (members_named file.now) (F.bytes_at files.now)
        (map (λ path. path.now) task.now.cells.items)
        (WritesPrefix (W.contents output.old) (W.contents output.new)) }
    ensures fault { IfErr result (λ fault. fault ≡ ProgramFault.Output) }
    ensures cause { HasCause ProgramFault.Output (W.failures output.old) (W.failures output.new)
        result }
{
    let members = file.members();
    audit_on(alloc, &members, files, &task.cells, output)
}

// Writes why no cell is read, and says it in words if they are asked for.
fn refuse(rt: &HostRuntime, task: &AuditTask<'_>, stop: Stop) -> Result<u8, ProgramFault> {
    let speaker = AskedSpeaker::if_asked(rt, task.words, Asked::of_members(task.members));
    let output = JsonLines::new(rt.alloc(), task.json, io::writer(rt));
    write_stop(
        rt.alloc(),
        &mut SpokenLines::new(rt.alloc(), speaker, output),
        stop,
    )
}
