//! Files that are empty, among those that a command reads.

use code_words::push_name;
use std::alloc::AllocError;
use std::fs;

/// Appends which of the files of these paths are empty, after a semicolon where something is said
/// before. Standard input isn't looked at.
pub fn push_empty(rt: &HostRuntime, text: &mut String, paths: &[&str]) -> Result<(), AllocError> {
    for path in paths {
        if is_empty(rt, path) {
            if !text.is_empty() {
                text.push_str("; ")?;
            }
            push_name(text, path)?;
            text.push_str(" is empty")?;
        }
    }
    Ok(())
}

/// Whether the file of this path is empty; `-` isn't the file of that name.
pub(crate) fn is_empty(rt: &HostRuntime, path: &str) -> bool {
    if path == "-" {
        return false;
    }
    match fs::metadata(rt, path) {
        Ok(found) => found.is_file() && found.len() == 0,
        Err(_) => false,
    }
}
