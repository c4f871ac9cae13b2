//! The command `run`: a schedule from standard input or from a file.

use crate::picture_file::{PictureFault, write_picture};
use crate::run_arguments::RunTask;
use crate::run_on::run_on;
use crate::schedule_fault::say_schedule_fault;
use code_words::{path_fault, push_name, push_path};
use outcomes::{ProgramFault, ReadFault, read_all, write_all, write_output};
use run_page::page_of;
use run_picture::picture_of;
use run_story::{Story, tell, words_of};
use schedule::{ParseFault, parse};
use std::alloc::AllocError;
use std::fs::{self, File};
use std::io;
use std::io::{ErrorKind, IsTerminal, Read};
use std::os::unix::fs::FileTypeExt;

/// Where standard input is.
const INPUT: &str = "/proc/self/fd/0";

/// How many bytes of a picture tell it from what other programs draw.
const FRONT: usize = 39;

/// How each picture begins.
const PICTURE: &[u8; FRONT] = b"<svg xmlns='http://www.w3.org/2000/svg'";

/// How each page begins.
const PAGE: &[u8; FRONT] = b"<!doctype html>\n<html lang='en'>\n<head>";

/// Runs the schedule that the task names. What it prints doesn't depend on whether it is also put
/// into words or drawn.
pub(crate) fn run_schedule(rt: &HostRuntime, task: &RunTask<'_>) -> Result<u8, ProgramFault> {
    let mut output = io::writer(rt);
    match run_source(rt, task) {
        Err(ProgramFault::Input) => {
            let _ = write_all(&mut output, b"input unread\n");
            Ok(1)
        }
        answer => answer,
    }
}

fn run_source(rt: &HostRuntime, task: &RunTask<'_>) -> Result<u8, ProgramFault> {
    match task.file {
        None => {
            say_what_is_read(rt);
            match run_input(rt, task, &mut rt.reader()) {
                Err(ProgramFault::Input) => {
                    if task.words {
                        say_unread_input(rt);
                    }
                    Err(ProgramFault::Input)
                }
                answer => answer,
            }
        }
        Some(path) => match File::open(rt, path) {
            Ok(mut file) => match run_input(rt, task, &mut file) {
                Err(ProgramFault::Input) => {
                    if task.words {
                        let _ = say_broken_off(rt, path);
                    }
                    Err(ProgramFault::Input)
                }
                answer => answer,
            },
            Err(error) if error.kind() == ErrorKind::OutOfMemory => write_memory(rt, task),
            Err(error) => {
                if task.words {
                    let _ = say_unread(rt, path, &error);
                }
                Err(ProgramFault::Input)
            }
        },
    }
}

// Says on a terminal, where nothing would happen else, that the schedule is typed there.
fn say_what_is_read(rt: &HostRuntime) {
    if rt.stdin().is_terminal() {
        let _ = rt.eprintln("the schedule is read from standard input; Ctrl-D ends it");
    }
}

// Says why standard input can't be read.
fn say_unread_input(rt: &HostRuntime) {
    let _ = match fs::metadata(rt, INPUT) {
        Ok(found) if found.is_dir() => {
            rt.eprintln("standard input is a folder, and a schedule is a file")
        }
        Ok(_) => rt.eprintln("standard input can't be read to its end"),
        Err(_) => rt.eprintln("standard input is closed: give a file, or `bagpaxos run < FILE`"),
    };
}

// Says why the schedule can't be read.
fn say_unread(rt: &HostRuntime, path: &str, error: &io::Error) -> Result<(), AllocError> {
    let mut name = String::new(rt.alloc());
    push_path(&mut name, path)?;
    if path != "-" {
        if let Some(fault) = path_fault(rt, path, error.kind()) {
            let _ = eprintln!(rt; "{name}{fault}");
            return Ok(());
        }
    }
    let _ = match error.kind() {
        ErrorKind::NotFound if path == "-" => eprintln!(rt;
            "- isn't there: it is the name of a file here; without one standard input is read"
        ),
        ErrorKind::NotFound => eprintln!(rt; "{name} isn't there"),
        ErrorKind::PermissionDenied => eprintln!(rt; "{name} may not be opened by this user"),
        _ => eprintln!(rt; "{name} can't be opened: {error}"),
    };
    Ok(())
}

// Says why what was opened can't be read to its end.
fn say_broken_off(rt: &HostRuntime, path: &str) -> Result<(), AllocError> {
    let mut name = String::new(rt.alloc());
    push_name(&mut name, path)?;
    let _ = match fs::metadata(rt, path) {
        Ok(found) if found.is_dir() => {
            eprintln!(rt; "{name} is a folder, and a schedule is a file")
        }
        _ => eprintln!(rt; "{name} can't be read to its end"),
    };
    Ok(())
}

fn run_input<R: Read>(
    rt: &HostRuntime,
    task: &RunTask<'_>,
    input: &mut R,
) -> Result<u8, ProgramFault> {
    let mut output = io::writer(rt);
    if !task.words && task.drawing.is_none() {
        return run_on(rt.alloc(), input, &mut output, task.options);
    }
    match read_all(rt.alloc(), input) {
        Ok(bytes) => run_bytes(rt, task, bytes.as_slice()),
        Err(ReadFault::Input) => Err(ProgramFault::Input),
        Err(ReadFault::Memory) => write_memory(rt, task),
    }
}

// There is no memory for the schedule.
fn write_memory(rt: &HostRuntime, task: &RunTask<'_>) -> Result<u8, ProgramFault> {
    if task.words {
        let _ = rt.eprintln("memory ran out; try again with more memory");
    }
    write_output(&mut io::writer(rt), 1, "memory\n")
}

// The lines come first, as they would without words and picture.
fn run_bytes(rt: &HostRuntime, task: &RunTask<'_>, bytes: &[u8]) -> Result<u8, ProgramFault> {
    let mut rest = bytes;
    let status = run_on(rt.alloc(), &mut rest, &mut io::writer(rt), task.options)?;
    if status != 0 {
        if task.words {
            say_schedule_fault(rt, task.file, bytes);
        }
        return Ok(status);
    }
    match story_of(rt, bytes) {
        Ok(story) => match show(rt, task, &story) {
            Ok(status) => Ok(status),
            Err(AllocError) => Ok(no_memory(rt)),
        },
        Err(AllocError) => Ok(no_memory(rt)),
    }
}

// A schedule that was run has no line at fault.
fn story_of(rt: &HostRuntime, bytes: &[u8]) -> Result<Story, AllocError> {
    match parse(rt.alloc(), bytes) {
        Ok(schedule) => tell(rt.alloc(), &schedule),
        Err(ParseFault::Memory | ParseFault::Line(_)) => Err(AllocError),
    }
}

fn no_memory(rt: &HostRuntime) -> u8 {
    let _ = rt.eprint("error: no memory for words or picture\n");
    1
}

// Words and picture, and the exit status.
fn show(rt: &HostRuntime, task: &RunTask<'_>, story: &Story) -> Result<u8, AllocError> {
    if task.words {
        let words = words_of(rt.alloc(), story, task.options)?;
        let _ = rt.eprint(words.as_str());
    }
    match task.drawing {
        Some(path) => draw(rt, task, story, path),
        None => Ok(0),
    }
}

fn draw(rt: &HostRuntime, task: &RunTask<'_>, story: &Story, path: &str) -> Result<u8, AllocError> {
    let picture = drawing_of(rt, task, story, path)?;
    if is_no_file(rt, path) {
        let mut name = String::new(rt.alloc());
        push_name(&mut name, path)?;
        let _ = eprintln!(rt; "error: {name} is no file; give another path");
        return Ok(1);
    }
    if is_of_another_kind(rt, path) {
        let mut name = String::new(rt.alloc());
        push_name(&mut name, path)?;
        let _ = eprintln!(rt; "error: {name} is there and is no picture; give another path");
        return Ok(1);
    }
    match write_picture(rt, path, picture.as_str())? {
        Ok(()) => {
            note_ending(rt, path)?;
            Ok(0)
        }
        Err(PictureFault { error, is_old_kept }) => {
            let mut name = String::new(rt.alloc());
            push_name(&mut name, path)?;
            let _ = if is_old_kept {
                eprintln!(rt;
                    "error: the picture can't be written to {name}: {error}; the old one stays"
                )
            } else {
                eprintln!(rt; "error: the picture can't be written to {name}: {error}")
            };
            Ok(1)
        }
    }
}

// Says that it is a picture, where a file's name says something else, or nothing.
fn note_ending(rt: &HostRuntime, path: &str) -> Result<(), AllocError> {
    if !has_other_ending(path) || !is_file(rt, path) {
        return Ok(());
    }
    let mut name = String::new(rt.alloc());
    push_name(&mut name, path)?;
    let _ = eprintln!(rt;
        "note: {name} has a picture in SVG; end the name in .svg, or in .html for a page"
    );
    Ok(())
}

// Whether something is there that a picture can't replace, as a pipe, whose open would wait for its
// reader. A device of characters, as /dev/null, takes all, or says why not; so does a folder.
fn is_no_file(rt: &HostRuntime, path: &str) -> bool {
    match fs::metadata(rt, path) {
        Ok(found) => {
            let is_device = found.file_type().is_char_device();
            !found.is_file() && !found.is_dir() && !is_device
        }
        Err(_) => false,
    }
}

// Whether the name of a picture ends in neither `.svg` nor `.html`.
fn has_other_ending(path: &str) -> bool {
    !path.ends_with(".svg") && !path.ends_with(".html")
}

fn is_file(rt: &HostRuntime, path: &str) -> bool {
    match fs::metadata(rt, path) {
        Ok(found) => found.is_file(),
        Err(_) => false,
    }
}

// Whether a file is there that isn't empty and doesn't begin as a picture or a page of this program
// does: it may be the schedule, or anything else that a slip of the hand named.
fn is_of_another_kind(rt: &HostRuntime, path: &str) -> bool {
    if !is_file(rt, path) {
        return false;
    }
    let mut front = [0u8; FRONT];
    let Ok(mut file) = File::open(rt, path) else {
        return false;
    };
    match file.read(&mut front) {
        Ok(0) | Err(_) => false,
        Ok(_) => front != *PICTURE && front != *PAGE,
    }
}

// A page of steps, if the file's name says that it is HTML.
fn drawing_of(
    rt: &HostRuntime,
    task: &RunTask<'_>,
    story: &Story,
    path: &str,
) -> Result<String, AllocError> {
    if path.ends_with(".html") {
        return page_of(rt.alloc(), story, task.options);
    }
    picture_of(rt.alloc(), story)
}
