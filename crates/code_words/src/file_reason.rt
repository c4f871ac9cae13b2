//! Why a file can't be used.

use crate::file_start::first_bytes;
use crate::name::push_path;
use crate::path_reason::path_fault;
use std::alloc::AllocError;
use std::fs::{self, File};
use std::io::{self, ErrorKind};
use std::os::unix::fs::FileTypeExt;

/// Appends a path and why the file there can't be read. A pipe isn't opened, since that may wait.
pub(crate) fn push_file_reason(
    rt: &HostRuntime,
    text: &mut String,
    path: &str,
) -> Result<(), AllocError> {
    push_path(text, path)?;
    match fs::metadata(rt, path) {
        Ok(found) if found.is_dir() => text.push_str(" is a folder"),
        Ok(found) if !found.is_file() => text.push_str(" isn't a file"),
        Ok(_) => match File::open(rt, path) {
            Ok(_) => text.push_str(" can't be read to its end"),
            Err(error) => push_error(rt, text, path, &error),
        },
        Err(error) => push_path_error(rt, text, path, &error),
    }
}

// Appends what an error says of the file of this path, which isn't standard input.
fn push_path_error(
    rt: &HostRuntime,
    text: &mut String,
    path: &str,
    error: &io::Error,
) -> Result<(), AllocError> {
    push_error(rt, text, path, error)?;
    if path == "-" {
        return text.push_str(": it is the name of a file here, and not standard input");
    }
    Ok(())
}

/// Appends what an error of the system says of the file of this path.
pub fn push_error(
    rt: &HostRuntime,
    text: &mut String,
    path: &str,
    error: &io::Error,
) -> Result<(), AllocError> {
    if let Some(fault) = path_fault(rt, path, error.kind()) {
        return text.push_str(fault);
    }
    match error.kind() {
        ErrorKind::NotFound => text.push_str(" isn't there"),
        ErrorKind::PermissionDenied => text.push_str(" may not be opened by this user"),
        _ => write!(text, " can't be opened: {error}"),
    }
}

/// Whether something is at this path that is neither a file nor a folder, as a pipe.
pub(crate) fn is_piped(rt: &HostRuntime, path: &str) -> bool {
    match fs::metadata(rt, path) {
        Ok(found) => !found.is_file() && !found.is_dir(),
        Err(_) => false,
    }
}

/// Whether the file of this path is there, and empty.
pub(crate) fn is_empty(rt: &HostRuntime, path: &str) -> bool {
    match fs::metadata(rt, path) {
        Ok(found) => found.is_file() && found.len() == 0,
        Err(_) => false,
    }
}

/// Whether a device is at this path, as `/dev/null`.
pub(crate) fn is_device(rt: &HostRuntime, path: &str) -> bool {
    match fs::metadata(rt, path) {
        Ok(found) => {
            let kind = found.file_type();
            kind.is_char_device() || kind.is_block_device()
        }
        Err(_) => false,
    }
}

/// The first bytes of the file of this path; none where it can't be read, or is no file.
pub(crate) fn bytes_at(rt: &HostRuntime, path: &str) -> Vec<u8> {
    if is_piped(rt, path) {
        Vec::new(rt.alloc())
    } else {
        first_bytes(rt, path)
    }
}
