//! Folders without a file, which no manifest can list.

use crate::bag::Bag;
use crate::counts::Counts;
use bag_tree::PAYLOAD_FOLDER;
use code_words::push_name;
use std::alloc::AllocError;
use std::collections::BTreeSet;
use std::fs;

/// Appends a warning for each folder that has no file, nor a folder with one.
pub(crate) fn push_empty_folders(
    text: &mut String,
    bag: &Bag<'_, '_>,
    counts: &mut Counts,
) -> Result<(), AllocError> {
    let folders = folders_of(bag)?;
    for folder in folders.iter() {
        push_empty_in(text, bag, counts, &folders, folder)?;
    }
    Ok(())
}

// The folders that have files, or folders with files; the bag's own is the empty path.
fn folders_of<'a>(bag: &Bag<'a, '_>) -> Result<BTreeSet<&'a str>, AllocError> {
    let mut folders = BTreeSet::new(bag.rt.alloc());
    folders.insert("")?;
    let mut last = "";
    for file in bag.facts.files() {
        let mut folder = folder_of(file.path());
        if folder == last {
            continue;
        }
        last = folder;
        for _ in 0..file.path().len() {
            if folder.is_empty() || !folders.insert(folder)? {
                break;
            }
            folder = folder_of(folder);
        }
    }
    Ok(folders)
}

// The path of the folder that has this file.
fn folder_of(path: &str) -> &str {
    match path.rsplit_once('/') {
        Some((folder, _)) => folder,
        None => "",
    }
}

// Appends a warning for each entry of a folder that is none of its files, nor one of these folders.
fn push_empty_in(
    text: &mut String,
    bag: &Bag<'_, '_>,
    counts: &mut Counts,
    folders: &BTreeSet<&str>,
    below: &str,
) -> Result<(), AllocError> {
    let place = joined(bag, bag.folder, below)?;
    let Ok(entries) = fs::read_dir(bag.rt, place.as_str()) else {
        return Ok(());
    };
    for entry in entries {
        let Ok(entry) = entry else {
            continue;
        };
        let path = joined(bag, below, entry.file_name())?;
        if is_known(bag, folders, path.as_str()) {
            continue;
        }
        if entry.metadata().is_ok_and(|found| found.is_dir()) {
            counts.warn(text)?;
            push_name(text, path.as_str())?;
            text.push_str(" is a folder without files, and no manifest can list it\n")?;
        }
    }
    Ok(())
}

// An empty payload is a payload.
fn is_known(bag: &Bag<'_, '_>, folders: &BTreeSet<&str>, path: &str) -> bool {
    path == PAYLOAD_FOLDER || folders.contains(path) || bag.files.has_file(path)
}

fn joined(bag: &Bag<'_, '_>, folder: &str, below: &str) -> Result<String, AllocError> {
    if folder.is_empty() || below.is_empty() {
        return format!(in bag.rt.alloc(); "{folder}{below}");
    }
    format!(in bag.rt.alloc(); "{folder}/{below}")
}
