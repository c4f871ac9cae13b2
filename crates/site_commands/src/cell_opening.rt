//! The cell that a start's arguments name.

use crate::first_start::{Unprepared, prepare_cell};
use crate::site_arguments::SiteTask;
use cell_file::{Creation, DiskCell, Unopened, open_cell};
use records::Owner;
use site_client::Stop;
use std::io::ErrorKind;
use std::time::{Clock, Duration, Instant};
use std::{fs, thread};

/// How many seconds a start tries for the lock of a cell that another process holds: a reader that
/// audits it holds it for as long as it reads.
const LONGEST_WAIT: u64 = 5;

/// How many milliseconds it pauses after a try.
const PAUSE: u64 = 100;

/// How often it tries: once more than there are pauses in that time.
const TRIES: u32 = 51;

/// The cell that the arguments name, for this owner. With `--existing` it holds a header; otherwise
/// an empty one gets the owner's. Where that fails, the file is removed again, if it was made here.
pub(crate) fn cell_of(
    rt: &HostRuntime,
    task: &SiteTask<'_>,
    owner: &Owner,
) -> Result<DiskCell, Stop> {
    let was_missing = is_missing(rt, task.cell);
    let mut cell = match open_in_time(rt, task.cell, creation_of(task)) {
        Ok(cell) => cell,
        Err(Unopened::InUse | Unopened::Device) => return Err(Stop::CellUnopened),
        Err(Unopened::Memory) => return Err(Stop::Memory),
    };
    // Asked while its lock is held: what is empty then, no other start has begun with meanwhile.
    let is_new = was_missing && is_empty(rt, task.cell);
    match prepare_cell(rt.alloc(), &mut cell, owner, task.existing) {
        Ok(()) => Ok(cell),
        Err(fault) => {
            if is_new {
                let _ = fs::remove_file(rt, task.cell);
            }
            Err(stop_of(fault))
        }
    }
}

fn creation_of(task: &SiteTask<'_>) -> Creation {
    if task.existing {
        Creation::Never
    } else {
        Creation::IfMissing
    }
}

// Whether nothing is at this path.
fn is_missing(rt: &HostRuntime, path: &str) -> bool {
    match fs::symlink_metadata(rt, path) {
        Ok(_) => false,
        Err(error) => error.kind() == ErrorKind::NotFound,
    }
}

// Whether the file at this path has no bytes.
fn is_empty(rt: &HostRuntime, path: &str) -> bool {
    match fs::symlink_metadata(rt, path) {
        Ok(found) => found.len() == 0,
        Err(_) => false,
    }
}

fn stop_of(fault: Unprepared) -> Stop {
    match fault {
        Unprepared::NoHeader | Unprepared::Device => Stop::CellUnopened,
        Unprepared::Memory => Stop::Memory,
    }
}

// Opens the cell, and tries again for five seconds while another process holds its lock.
fn open_in_time(rt: &HostRuntime, path: &str, creation: Creation) -> Result<DiskCell, Unopened> {
    let start = Instant::now(rt);
    for _ in 1..TRIES {
        match open_cell(rt, path, creation) {
            Err(Unopened::InUse) if has_time(rt, &start) => {
                thread::sleep(rt, Duration::from_millis(PAUSE));
            }
            answer => return answer,
        }
    }
    open_cell(rt, path, creation)
}

// Whether the time to try isn't over; where the clock can't be read, the tries are counted alone.
fn has_time<C: Clock>(clock: &C, start: &std::io::Result<Instant>) -> bool {
    match start {
        Ok(start) => match start.elapsed(clock) {
            Ok(elapsed) => elapsed < Duration::from_secs(LONGEST_WAIT),
            Err(_) => true,
        },
        Err(_) => true,
    }
}
