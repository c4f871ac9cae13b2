//! Names that differ only as people and systems mistake them: by letter case, Unicode form, blanks,
//! slashes or escapes.

use crate::bag::Bag;
use crate::finding::Finding;
use bag_tree::is_payload;
use caseless::default_case_fold_str;
use code_words::push_name;
use std::alloc::{AllocError, Global};
use std::collections::BTreeMap;
use unicode_normalization::{is_nfc, is_nfd, to_nfc};

/// The number of the fault of a listed file that isn't there.
const MISSING: u8 = 12;

/// The number of the fault of a file that isn't listed.
const UNLISTED: u8 = 13;

/// Listed files that aren't there, and files that aren't listed, each by what is left of its name
/// without everything that may be mistaken.
#[derive(Drop)]
pub(crate) struct NearNames {
    missing: BTreeMap<String, String>,
    unlisted: BTreeMap<String, String>,
}

impl NearNames {
    /// The near names among these findings; none if there aren't files of both kinds.
    pub(crate) fn of(bag: &Bag<'_, '_>, findings: &[Finding<'_>]) -> Result<NearNames, AllocError> {
        let alloc = bag.rt.alloc();
        let mut near = NearNames {
            missing: BTreeMap::new(alloc),
            unlisted: BTreeMap::new(alloc),
        };
        if !findings.iter().any(|finding| finding.number == MISSING) {
            return Ok(near);
        }
        for finding in findings {
            near.take(alloc, finding)?;
        }
        near.take_tag_files(bag)?;
        Ok(near)
    }

    fn take(&mut self, alloc: Global, finding: &Finding<'_>) -> Result<(), AllocError> {
        let path = finding.path.as_str();
        if finding.number == MISSING {
            put(alloc, &mut self.missing, path)?;
        } else if finding.number == UNLISTED {
            put(alloc, &mut self.unlisted, path)?;
        }
        Ok(())
    }

    // Files beside the payload may be meant too.
    fn take_tag_files(&mut self, bag: &Bag<'_, '_>) -> Result<(), AllocError> {
        let alloc = bag.rt.alloc();
        for file in bag.facts.files() {
            if !is_payload(file.path().as_bytes()) {
                put(alloc, &mut self.unlisted, file.path())?;
            }
        }
        Ok(())
    }

    /// Appends which file is there in place of the listed one of this path, if one may be meant.
    pub(crate) fn push_unlisted(
        &self,
        alloc: Global,
        text: &mut String,
        path: &str,
    ) -> Result<(), AllocError> {
        let Some(other) = other_in(alloc, &self.unlisted, path)? else {
            return Ok(());
        };
        text.push_str("; ")?;
        push_name(text, other)?;
        text.push_str(" is, and differs only by ")?;
        push_difference(alloc, text, path, other)
    }

    /// Appends which file is listed in place of the one of this path, if one may be meant.
    pub(crate) fn push_missing(
        &self,
        alloc: Global,
        text: &mut String,
        path: &str,
    ) -> Result<(), AllocError> {
        let Some(other) = other_in(alloc, &self.missing, path)? else {
            return Ok(());
        };
        text.push_str("; it lists ")?;
        push_name(text, other)?;
        text.push_str(", which differs only by ")?;
        push_difference(alloc, text, other, path)
    }
}

// The name among these that this path may be mistaken for, if it is another.
fn other_in<'n>(
    alloc: Global,
    names: &'n BTreeMap<String, String>,
    path: &str,
) -> Result<Option<&'n str>, AllocError> {
    let key = key_of(alloc, path)?;
    let Some(other) = names.get(key.as_str()) else {
        return Ok(None);
    };
    Ok(if other.as_str() == path {
        None
    } else {
        Some(other.as_str())
    })
}

fn put(alloc: Global, names: &mut BTreeMap<String, String>, path: &str) -> Result<(), AllocError> {
    let key = key_of(alloc, path)?;
    names.insert(key, String::from_str(alloc, path)?)?;
    Ok(())
}

// Appends by what the names differ.
fn push_difference(
    alloc: Global,
    text: &mut String,
    listed: &str,
    present: &str,
) -> Result<(), AllocError> {
    if to_nfc(alloc, listed)?.as_str() == to_nfc(alloc, present)?.as_str() {
        text.push_str("Unicode form")?;
        return push_forms(alloc, text, listed, present);
    }
    if default_case_fold_str(alloc, listed)?.as_str()
        == default_case_fold_str(alloc, present)?.as_str()
    {
        return text.push_str("letter case");
    }
    if without_blanks(alloc, listed)?.as_str() == without_blanks(alloc, present)?.as_str() {
        return text.push_str("blanks");
    }
    if with_slashes(alloc, listed)?.as_str() == with_slashes(alloc, present)?.as_str() {
        return text.push_str("slashes");
    }
    if unescaped(alloc, listed)?.as_str() == unescaped(alloc, present)?.as_str() {
        return text.push_str(
            "an escape: in a manifest %0A, %0D and %25 stand for a line feed, a carriage return and %",
        );
    }
    text.push_str("more than one of letter case, Unicode form, blanks, slashes and escapes")
}

// Appends which form each has, where that says something.
fn push_forms(
    alloc: Global,
    text: &mut String,
    listed: &str,
    present: &str,
) -> Result<(), AllocError> {
    if is_nfc(alloc, listed)? && is_nfd(present) {
        return text.push_str(": listed in NFC, there in NFD");
    }
    if is_nfd(listed) && is_nfc(alloc, present)? {
        return text.push_str(": listed in NFD, there in NFC");
    }
    Ok(())
}

// What is left of a name once all that may be mistaken is alike.
fn key_of(alloc: Global, name: &str) -> Result<String, AllocError> {
    let plain = with_slashes(
        alloc,
        without_blanks(alloc, unescaped(alloc, name)?.as_str())?.as_str(),
    )?;
    if plain.as_str().is_ascii() {
        let mut key = plain;
        key.make_ascii_lowercase();
        return Ok(key);
    }
    let folded = default_case_fold_str(alloc, to_nfc(alloc, plain.as_str())?.as_str())?;
    to_nfc(alloc, folded.as_str())
}

fn without_blanks(alloc: Global, name: &str) -> Result<String, AllocError> {
    let mut rest = String::with_capacity(alloc, name.len())?;
    for character in name.chars() {
        if !is_blank(character) {
            rest.push(character)?;
        }
    }
    Ok(rest)
}

fn is_blank(character: char) -> bool {
    character.is_whitespace()
        || character.is_control()
        || matches!(
            u32::from(character),
            0xAD | 0x200B..=0x200F | 0x2060 | 0xFEFF
        )
}

// The name with each backslash as a slash, and no slash after another.
fn with_slashes(alloc: Global, name: &str) -> Result<String, AllocError> {
    let mut rest = String::with_capacity(alloc, name.len())?;
    let mut is_after = false;
    for character in name.chars() {
        let is_slash = character == '/' || character == '\\';
        if is_slash && !is_after {
            rest.push('/')?;
        } else if !is_slash {
            rest.push(character)?;
        }
        is_after = is_slash;
    }
    Ok(rest)
}

// The name with the escapes of manifests read once more.
fn unescaped(alloc: Global, name: &str) -> Result<String, AllocError> {
    let mut rest = String::with_capacity(alloc, name.len())?;
    let mut left = name;
    for _ in 0..name.len() {
        match left.split_once('%') {
            None => break,
            Some((front, after)) => {
                rest.push_str(front)?;
                let (character, behind) = escape_at(after);
                rest.push(character)?;
                left = behind;
            }
        }
    }
    rest.push_str(left)?;
    Ok(rest)
}

// What a percent sign before this text stands for, and the text after it.
fn escape_at(after: &str) -> (char, &str) {
    for (digits, character) in [
        ("0A", '\n'),
        ("0a", '\n'),
        ("0D", '\r'),
        ("0d", '\r'),
        ("25", '%'),
    ] {
        if let Some(behind) = after.strip_prefix(digits) {
            return (character, behind);
        }
    }
    ('%', after)
}
