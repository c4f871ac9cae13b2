//! The command `check --registered`.

ghost use Rattle.std.specs.Prelude.{◌≡◌, IfErr};

use crate::deposit_lines::DepositLines;
use crate::file_checks::check_registered_on;
use crate::list_speaker::ListSpeaker;
use crate::said_checks::Says;
use bag_folders::Folders;
use code_words::{SpokenLines, say_text};
use counted_writes::CountedWriter;
use file_words::push_empty;
use folder_checks::{CheckTask, spoken_folders, watched_folders};
use known_bags::DiskSources;
use outcomes::ProgramFault;
use std::alloc::AllocError;
use std::io::{self, Write};

/// Checks the folders as without the list, and then says on standard error, or prints if that is
/// asked for, which of them are bags that the list or cell of this path knows. The status is 0 if
/// all folders are valid bags, each of them is known, and each known one is among them. If deposits
/// are asked for, only a list of these bags is printed, and all else is said on standard error.
///
/// No clause can say what the disk, standard output and standard error hold, so none says that it
/// is these, and the folders of this task, that `check_registered_on` is given here.
pub fn check_registered(
    rt: &HostRuntime,
    task: &CheckTask<'_>,
    list: &str,
) -> Result<u8, ProgramFault>
    ensures { IfErr result (λ fault. fault ≡ ProgramFault.Output) }
{
    let folders = match watched_folders(rt, task) {
        Ok(folders) => Ok(spoken_folders(rt, task, folders)),
        Err(AllocError) => Err(AllocError),
    };
    let speaker = ListSpeaker::if_asked(rt, task.words, list);
    if task.deposits {
        let lines = DepositLines::new(rt.alloc(), io::writer(rt), rt.stderr());
        return check_to(
            rt,
            task,
            list,
            folders,
            SpokenLines::new(rt.alloc(), speaker, lines),
        );
    }
    let output = SpokenLines::new(rt.alloc(), speaker, io::writer(rt));
    check_to(rt, task, list, folders, output)
}

// The same, with this output.
fn check_to<F: Folders + Says + Drop, W: Write + Drop>(
    rt: &HostRuntime,
    task: &CheckTask<'_>,
    list: &str,
    folders: Result<F, AllocError>,
    output: W,
) -> Result<u8, ProgramFault>
    ensures { IfErr result (λ fault. fault ≡ ProgramFault.Output) }
{
    let output = &mut CountedWriter::new(output);
    let errors = &mut CountedWriter::new(rt.stderr());
    let status = check_registered_on(
        rt.alloc(),
        task,
        &DiskSources { rt },
        list,
        folders,
        output,
        errors,
    )?;
    if task.words {
        say_text(rt, empty_words(rt, list));
    }
    Ok(status)
}

// What is said of the list where it is empty, so that no bag is registered.
fn empty_words(rt: &HostRuntime, list: &str) -> Result<String, AllocError> {
    let mut text = String::new(rt.alloc());
    push_empty(rt, &mut text, &[list])?;
    Ok(text)
}
