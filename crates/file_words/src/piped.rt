//! What came through a pipe, and can't be read a second time.

use code_words::push_name;
use std::alloc::AllocError;
use std::fs;
use std::os::unix::fs::FileTypeExt;

/// The path by which a source is read: `-` is standard input.
pub(crate) fn path_to_read(path: &str) -> &str {
    match path {
        "-" | "/dev/stdin" => "/proc/self/fd/0",
        _ => path,
    }
}

/// Whether what is at this path is read but once: it is there, and neither a file nor a folder.
pub fn is_piped(rt: &HostRuntime, path: &str) -> bool {
    match fs::metadata(rt, path_to_read(path)) {
        Ok(found) => !found.is_file() && !found.is_dir(),
        Err(_) => false,
    }
}

/// The first of these paths whose bytes come through a pipe that the process was given open.
pub fn first_piped<'a>(rt: &HostRuntime, paths: &[&'a str]) -> Option<&'a str> {
    for path in paths {
        if is_given(path) && is_pipe(rt, path) {
            return Some(*path);
        }
    }
    None
}

fn is_pipe(rt: &HostRuntime, path: &str) -> bool {
    match fs::metadata(rt, path_to_read(path)) {
        Ok(found) => found.file_type().is_fifo(),
        Err(_) => false,
    }
}

// Whether a path is one of what a process was given open. A pipe with a name isn't opened at all.
fn is_given(path: &str) -> bool {
    let path = path_to_read(path);
    path.starts_with("/dev/fd/") || path.starts_with("/proc/self/fd/")
}

/// Appends the name of what is read at this path.
pub fn push_source_name(text: &mut String, path: &str) -> Result<(), AllocError> {
    if path == "-" {
        text.push_str("standard input")
    } else {
        push_name(text, path)
    }
}

/// Appends that what came through the pipe of this path is gone.
pub fn push_gone(text: &mut String, path: &str) -> Result<(), AllocError> {
    push_source_name(text, path)?;
    text.push_str(": it came through a pipe, and is gone: give a file to see the line")
}
