//! The places of standard input, standard output and standard error.

use std::fs::{self, File};

/// What holds the places that were closed when the process began: the system gives the next file
/// that is opened the first free one. So a cell would be opened as standard output, and each line
/// would be written into it.
#[derive(Drop)]
pub(crate) struct HeldStreams {
    _input: Option<File>,
    _output: Option<File>,
    _errors: Option<File>,
}

impl HeldStreams {
    /// Holds the places that are closed, in order; nothing can be written there.
    pub(crate) fn places(rt: &HostRuntime) -> HeldStreams {
        let input = holder_of(rt, "/proc/self/fd/0");
        let output = holder_of(rt, "/proc/self/fd/1");
        let errors = holder_of(rt, "/proc/self/fd/2");
        HeldStreams {
            _input: input,
            _output: output,
            _errors: errors,
        }
    }
}

// What is opened in place of this one, if it is closed.
fn holder_of(rt: &HostRuntime, place: &str) -> Option<File> {
    match fs::metadata(rt, place) {
        Ok(_) => None,
        Err(_) => File::open(rt, "/dev/null").ok(),
    }
}
