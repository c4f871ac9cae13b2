//! The command `status`.

use crate::arguments::StatusTask;
use crate::files::known_by;
use crate::sites::{Federation, federation_at};
use crate::standing_speaker::StandingSpeaker;
use code_words::{Asked, AskedSpeaker, SpokenLines};
use counted_writes::{CountedWriter, write_output};
use file_words::first_piped;
use json_lines::JsonLines;
use known_bags::write_fault;
use outcomes::ProgramFault;
use site_client::{Stop, write_stop};
use standings::report_standings;
use std::io::{self, Write};
use std::thread;
use std::time::Duration;

/// The line where a cell is of another federation.
const FOREIGN: &str = "open 1\n";

/// The line where a file can't be read, or not as often as it has to be.
const UNREAD: &str = "open 4\n";

/// How a report ended.
#[derive(Clone, Copy, Debug)]
enum Ended {
    /// The sites were asked, and all are well or one isn't, by this status.
    Asked(u8),
    /// Nobody was asked; a line has said why.
    Refused(u8),
}

/// Asks as the arguments say, once, or again and again. The lines are written to standard output,
/// and said in words on standard error, if that is asked for.
pub fn show_status(rt: &HostRuntime, task: &StatusTask<'_>) -> Result<u8, ProgramFault> {
    let Some(seconds) = task.watch else {
        return Ok(status_of(show_once(rt, task)?));
    };
    for _ in 0..u64::MAX {
        if let Ended::Refused(status) = show_once(rt, task)? {
            return Ok(status);
        }
        thread::sleep(rt, Duration::from_secs(u64::from(seconds)));
    }
    Ok(1)
}

fn status_of(ended: Ended) -> u8 {
    match ended {
        Ended::Asked(status) | Ended::Refused(status) => status,
    }
}

// One report.
fn show_once(rt: &HostRuntime, task: &StatusTask<'_>) -> Result<Ended, ProgramFault> {
    let speaker = StandingSpeaker::if_asked(rt, task);
    let output = JsonLines::new(rt.alloc(), task.json, io::writer(rt));
    let output = &mut CountedWriter::new(SpokenLines::new(rt.alloc(), speaker, output));
    // A pipe is empty in the second round, and all sites would be well.
    if task.watch.is_some() && first_piped(rt, &task.files).is_some() {
        return Ok(Ended::Refused(write_output(output, 1, UNREAD)?));
    }
    let known = match known_by(rt, &task.files) {
        Ok(known) => known,
        Err(fault) => return Ok(Ended::Refused(write_fault(rt.alloc(), output, fault)?)),
    };
    match federation_at(rt, task.members, task.key, task.wait) {
        Ok(mut federation) => {
            let Federation {
                number,
                sites,
                port,
            } = &mut federation;
            if known.federations.iter().any(|it| it != number) {
                return Ok(Ended::Refused(write_output(output, 1, FOREIGN)?));
            }
            let status = report_standings(
                rt.alloc(),
                rt,
                port,
                *number,
                known.versions,
                sites.as_mut_slice(),
                output,
            )?;
            Ok(Ended::Asked(status))
        }
        Err(stop) => Ok(Ended::Refused(refuse(rt, task, stop)?)),
    }
}

// Writes why nobody can be asked, and says it in words if they are asked for.
fn refuse(rt: &HostRuntime, task: &StatusTask<'_>, stop: Stop) -> Result<u8, ProgramFault> {
    let asked = Asked {
        key: task.key,
        ..Asked::of_members(task.members)
    };
    let speaker = AskedSpeaker::if_asked(rt, task.words, asked);
    let output = JsonLines::new(rt.alloc(), task.json, io::writer(rt));
    write_stop(
        rt.alloc(),
        &mut SpokenLines::new(rt.alloc(), speaker, output),
        stop,
    )
}
