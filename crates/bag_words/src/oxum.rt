//! How many bytes and files bag-info.txt says that the payload has.

use crate::bag::Bag;
use crate::counts::Counts;
use bag_text::lines;
use bag_tree::is_payload;
use code_words::push_name;
use std::alloc::AllocError;
use std::fs::{self, File};
use std::io::{ErrorKind, Read};

const LABEL: &str = "payload-oxum:";

/// At most this many pieces of bag-info.txt are read: a MiB.
const MOST_PIECES: u32 = 256;

const PIECE: usize = 4096;

/// Appends a warning if bag-info.txt says another Payload-Oxum than the files of the payload have.
pub(crate) fn push_oxum(
    text: &mut String,
    bag: &Bag<'_, '_>,
    counts: &mut Counts,
) -> Result<(), AllocError> {
    if !bag.files.has_file("bag-info.txt") {
        return Ok(());
    }
    let info = info_of(bag)?;
    let Some(said) = oxum_in(bag, info.as_slice())? else {
        return Ok(());
    };
    let Some((bytes, files)) = payload_of(bag)? else {
        return Ok(());
    };
    let is = format!(in bag.rt.alloc(); "{bytes}.{files}")?;
    if said.as_str() == is.as_str() {
        return Ok(());
    }
    counts.warn(text)?;
    text.push_str("bag-info.txt says Payload-Oxum ")?;
    push_name(text, said.as_str())?;
    writeln!(text, ", and data/ has {bytes} bytes in {files} files: {is}")
}

// The first bytes of bag-info.txt.
fn info_of(bag: &Bag<'_, '_>) -> Result<Vec<u8>, AllocError> {
    let folder = bag.folder;
    let path = format!(in bag.rt.alloc(); "{folder}/bag-info.txt")?;
    let mut bytes = Vec::new(bag.rt.alloc());
    let Ok(mut file) = File::open(bag.rt, path.as_str()) else {
        return Ok(bytes);
    };
    let mut piece = [0u8; PIECE];
    for _ in 0..MOST_PIECES {
        match file.read(&mut piece) {
            Ok(count) if count > 0 => bytes.extend_from_slice(&piece[..count])?,
            Err(error) if error.kind() == ErrorKind::Interrupted => {}
            _ => break,
        }
    }
    Ok(bytes)
}

// What the first line of this label says, if there is one.
fn oxum_in(bag: &Bag<'_, '_>, info: &[u8]) -> Result<Option<String>, AllocError> {
    let alloc = bag.rt.alloc();
    let Ok(found) = lines(alloc, info) else {
        return Err(AllocError);
    };
    for line in found {
        if let Ok(line) = str::from_utf8(line) {
            if let Some((label, value)) = line.split_at_checked(LABEL.len()) {
                if label.eq_ignore_ascii_case(LABEL) {
                    return Ok(Some(String::from_str(alloc, value.trim())?));
                }
            }
        }
    }
    Ok(None)
}

// How many bytes the payload's files have, and how many files there are; none if a file isn't
// there.
fn payload_of(bag: &Bag<'_, '_>) -> Result<Option<(u64, usize)>, AllocError> {
    let mut path = String::new(bag.rt.alloc());
    let mut bytes = 0u64;
    let mut files = 0usize;
    for file in bag.facts.files() {
        if !is_payload(file.path().as_bytes()) {
            continue;
        }
        path.clear();
        path.push_str(bag.folder)?;
        path.push('/')?;
        path.push_str(file.path())?;
        let Ok(found) = fs::symlink_metadata(bag.rt, path.as_str()) else {
            return Ok(None);
        };
        bytes = bytes.saturating_add(found.len());
        files = files.saturating_add(1);
    }
    Ok(Some((bytes, files)))
}
