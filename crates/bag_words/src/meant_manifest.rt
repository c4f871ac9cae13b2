//! Files whose names are nearly those that are read.

use crate::bag::{ALGORITHMS, Bag};
use bag_check::Kind;
use code_words::push_name;
use std::alloc::{AllocError, Global};

/// Appends which name a manifest of an unknown algorithm may be meant to have, where that name
/// differs by letter case, dashes and repeated endings alone. If a file has that name, nobody is
/// told to rename one over it.
pub(crate) fn push_meant(
    text: &mut String,
    bag: &Bag<'_, '_>,
    path: &str,
) -> Result<(), AllocError> {
    let alloc = bag.rt.alloc();
    let letters = letters_of(alloc, path)?;
    for kind in [Kind::Payload, Kind::Tag] {
        for algorithm in ALGORITHMS {
            let name = kind.manifest_name(algorithm);
            if letters_of(alloc, name)?.as_str() == letters.as_str() {
                return push_renaming(text, bag, name);
            }
        }
    }
    Ok(())
}

fn push_renaming(text: &mut String, bag: &Bag<'_, '_>, name: &str) -> Result<(), AllocError> {
    if bag.files.has_file(name) {
        text.push_str("; ")?;
        push_name(text, name)?;
        return text.push_str(" is there too: compare both, and keep this one elsewhere");
    }
    text.push_str("; rename it to ")?;
    push_name(text, name)?;
    text.push_str(", and in tag manifests")
}

/// Appends which file of the bag's own folder may be meant to have this name, which no file has.
pub(crate) fn push_near(
    text: &mut String,
    bag: &Bag<'_, '_>,
    name: &str,
) -> Result<(), AllocError> {
    let alloc = bag.rt.alloc();
    let letters = letters_of(alloc, name)?;
    for file in bag.facts.files() {
        let path = file.path();
        if !path.contains('/') && letters_of(alloc, path)?.as_str() == letters.as_str() {
            text.push_str("; if ")?;
            push_name(text, path)?;
            text.push_str(" is meant, rename it to ")?;
            return push_name(text, name);
        }
    }
    Ok(())
}

/// Appends which folder of the bag may be meant to have this name, which none has.
pub(crate) fn push_near_folder(
    text: &mut String,
    bag: &Bag<'_, '_>,
    name: &str,
) -> Result<(), AllocError> {
    let alloc = bag.rt.alloc();
    let letters = letters_of(alloc, name)?;
    for file in bag.facts.files() {
        if let Some((folder, _)) = file.path().split_once('/') {
            if folder != name && letters_of(alloc, folder)?.as_str() == letters.as_str() {
                text.push_str("; if the folder ")?;
                push_name(text, folder)?;
                text.push_str(" is meant, rename it to ")?;
                return push_name(text, name);
            }
        }
    }
    Ok(())
}

/// A name in small letters, without dashes, blanks, and endings `.txt`.
fn letters_of(alloc: Global, name: &str) -> Result<String, AllocError> {
    let mut letters = String::with_capacity(alloc, name.len())?;
    for character in name.chars() {
        if !is_dash(character) {
            letters.push(character)?;
        }
    }
    letters.make_ascii_lowercase();
    let mut front = letters.as_str();
    for _ in 0..letters.len() {
        match front.strip_suffix(".txt") {
            Some(shorter) => front = shorter,
            None => break,
        }
    }
    String::from_str(alloc, front)
}

// Whether a character is a dash, or may stand in its place: those of Unicode (U+2010 to U+2015, and
// the minus sign), an underscore, and a blank.
fn is_dash(character: char) -> bool {
    matches!(character, '-' | '_' | ' ') || matches!(u32::from(character), 0x2010..=0x2015 | 0x2212)
}
