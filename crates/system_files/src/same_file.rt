//! Whether two paths lead to one file.

use crate::file_id::FileId;
use std::alloc::AllocError;
use std::fs;
use std::io::ErrorKind;
use std::path::Path;

/// This many links are followed if they lead to nothing: as many as the system follows.
const MOST_LINKS: u32 = 40;

/// What a path leads to, over links.
#[derive(Drop)]
enum Target {
    File(FileId),
    /// Nothing yet: the folder in which it would be made, and its name.
    Missing(FileId, String),
    /// What can't be looked up, or made.
    Nowhere,
}

/// Where a look at a path leads.
#[derive(Drop)]
enum Step {
    End(Target),
    /// To this path: the path in a link that leads to nothing.
    Link(String),
}

/// Whether two paths lead to one file, through links of either kind, or would, once it is made.
pub fn is_same_file(rt: &HostRuntime, one: &str, other: &str) -> Result<bool, AllocError> {
    let one = target_of(rt, one)?;
    let other = target_of(rt, other)?;
    Ok(match (&one, &other) {
        (Target::File(one), Target::File(other)) => one == other,
        (Target::Missing(folder, name), Target::Missing(other_folder, other_name)) => {
            folder == other_folder && name.as_str() == other_name.as_str()
        }
        _ => false,
    })
}

fn target_of(rt: &HostRuntime, path: &str) -> Result<Target, AllocError> {
    let mut path = String::from_str(rt.alloc(), path)?;
    // What the last of these links leads to is looked at too.
    for _ in 0..MOST_LINKS + 1 {
        match look_at(rt, path.as_str())? {
            Step::End(target) => return Ok(target),
            Step::Link(next) => path = next,
        }
    }
    Ok(Target::Nowhere)
}

fn look_at(rt: &HostRuntime, path: &str) -> Result<Step, AllocError> {
    match fs::metadata(rt, path) {
        Ok(about) => Ok(Step::End(Target::File(FileId::of(&about)))),
        Err(error) if error.kind() == ErrorKind::NotFound => look_at_missing(rt, path),
        Err(error) if error.kind() == ErrorKind::OutOfMemory => Err(AllocError),
        Err(_) => Ok(Step::End(Target::Nowhere)),
    }
}

// What a path leads to if no file is at its end: a link, or what isn't there yet.
fn look_at_missing(rt: &HostRuntime, path: &str) -> Result<Step, AllocError> {
    match fs::read_link(rt, path) {
        Ok(link) => Ok(Step::Link(beside(rt, path, link.as_str())?)),
        Err(error) if error.kind() == ErrorKind::OutOfMemory => Err(AllocError),
        Err(_) => Ok(Step::End(missing_at(rt, path)?)),
    }
}

// The path that a link of this path has as its text.
fn beside(rt: &HostRuntime, path: &str, link: &str) -> Result<String, AllocError> {
    let folder = folder_of(path);
    if link.starts_with('/') {
        String::from_str(rt.alloc(), link)
    } else {
        format!(in rt.alloc(); "{folder}/{link}")
    }
}

fn missing_at(rt: &HostRuntime, path: &str) -> Result<Target, AllocError> {
    let Some(name) = Path::new(path).file_name() else {
        return Ok(Target::Nowhere);
    };
    match fs::metadata(rt, folder_of(path)) {
        Ok(about) => {
            let name = String::from_str(rt.alloc(), name)?;
            Ok(Target::Missing(FileId::of(&about), name))
        }
        Err(error) if error.kind() == ErrorKind::OutOfMemory => Err(AllocError),
        Err(_) => Ok(Target::Nowhere),
    }
}

// The folder that holds what is at this path.
fn folder_of(path: &str) -> &str {
    match Path::new(path).parent() {
        Some(folder) => {
            let folder = folder.as_str();
            if folder.is_empty() { "." } else { folder }
        }
        None => ".",
    }
}
