//! Pipes that a process was given open, as a shell gives them.

use std::fs;

/// The path by which a file is opened: `-` is standard input.
pub(crate) fn path_to_open(path: &str) -> &str {
    match path {
        "-" | "/dev/stdin" => "/proc/self/fd/0",
        _ => path,
    }
}

/// Whether this is the path of a pipe that the process has open, as that of `<(..)` in a shell.
/// Opening such a pipe doesn't wait. A pipe with a name of its own is none of these: if nobody
/// writes to it, opening it waits.
/// An open file, whose name may be any bytes, isn't one either.
pub(crate) fn is_open_pipe(rt: &HostRuntime, path: &str) -> bool {
    if !path.starts_with("/dev/fd/") && !path.starts_with("/proc/self/fd/") {
        return false;
    }
    match fs::read_link(rt, path) {
        Ok(link) => link.as_str().starts_with("pipe:["),
        Err(_) => false,
    }
}
