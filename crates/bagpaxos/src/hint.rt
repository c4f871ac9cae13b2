//! What a person is told who sees a bare code, or nothing.

use outcomes::ProgramFault;
use std::fs;
use std::io::IsTerminal;
use std::os::unix::fs::FileTypeExt;

/// Where standard output is.
const OUTPUT: &str = "/proc/self/fd/1";

/// The answer of a command. Where it isn't 0, wasn't said in words, and standard error is a
/// terminal, that says how to have it in words. A script sees no more than before. Where a file
/// can't take what is printed, standard error says that.
pub(crate) fn hinted(
    rt: &HostRuntime,
    words: bool,
    answer: Result<u8, ProgramFault>,
) -> Result<u8, ProgramFault> {
    match &answer {
        Ok(status) if *status != 0 && !words && rt.stderr().is_terminal() => {
            let _ = rt.eprintln("--words says why");
        }
        Ok(_) => {}
        Err(_) => say_unwritten(rt, words || rt.stderr().is_terminal()),
    }
    answer
}

// Says that a file couldn't be written to; and, where a person may read it, that standard output is
// closed, or a device that takes nothing. Who reads a pipe may close it at will, so of that nothing
// is said.
fn say_unwritten(rt: &HostRuntime, is_told: bool) {
    match fs::metadata(rt, OUTPUT) {
        Ok(found) if found.is_file() => {
            let _ = rt.eprintln("standard output can't be written; is the disk full?");
        }
        Ok(found) if is_told && found.file_type().is_char_device() => {
            let _ = rt.eprintln("standard output can't be written: its device takes nothing");
        }
        Err(_) if is_told => {
            let _ = rt.eprintln("standard output is closed, so nothing can be written there");
        }
        _ => {}
    }
}
