//! One place where a fault holds, as a sentence.

use crate::bag::Bag;
use crate::declared::push_declared;
use crate::finding::Finding;
use crate::found_digest::push_digests;
use crate::listed::TextLines;
use crate::manifest_line::push_malformed;
use crate::meant_manifest::{push_meant, push_near, push_near_folder};
use crate::near_names::NearNames;
use bag_tree::{has_unsafe_part, is_payload};
use code_words::{push_name, push_quoted};
use std::alloc::AllocError;

/// What the names of payload manifests begin with.
const MANIFEST: &str = "manifest";

/// Appends the sentence of a place, ended by LF.
pub(crate) fn push_place<'a>(
    text: &mut String,
    bag: &Bag<'a, '_>,
    near: &NearNames,
    texts: &mut TextLines<'a>,
    finding: &Finding<'_>,
) -> Result<(), AllocError> {
    text.push_str("  ")?;
    match finding.number {
        1 => push_no_declaration(text, bag)?,
        2..=4 => push_declared(text, finding, texts.line_at(bag, finding)?)?,
        7 => push_no_manifest(text, bag)?,
        8 => push_unknown_manifest(text, bag, finding)?,
        9 => push_malformed(text, finding, texts.line_at(bag, finding)?)?,
        10 => push_astray(text, bag, finding)?,
        11 => push_entry(text, finding, " again")?,
        12 => push_missing(text, bag, near, finding)?,
        13 => push_unlisted(text, bag, near, finding)?,
        14 => push_digests(text, bag, finding, texts.line_at(bag, finding)?)?,
        6 => push_no_payload(text, bag)?,
        _ => push_presence(text, finding)?,
    }
    text.push('\n')
}

// There is no bagit.txt here, but maybe in a folder below.
fn push_no_declaration(text: &mut String, bag: &Bag<'_, '_>) -> Result<(), AllocError> {
    text.push_str("bagit.txt isn't there")?;
    for file in bag.facts.files() {
        if let Some(folder) = file.path().strip_suffix("/bagit.txt") {
            text.push_str("; there is one in ")?;
            push_name(text, folder)?;
            return text.push_str(": maybe that is the bag");
        }
    }
    push_near(text, bag, "bagit.txt")
}

// Which manifests there are in place of the one that is needed.
fn push_no_manifest(text: &mut String, bag: &Bag<'_, '_>) -> Result<(), AllocError> {
    text.push_str("manifest-sha512.txt isn't there")?;
    let mut separator = "; there is ";
    for file in bag.facts.files() {
        let path = file.path();
        if is_like_manifest(path) {
            text.push_str(separator)?;
            push_name(text, path)?;
            separator = ", ";
        }
    }
    push_near(text, bag, "manifest-sha512.txt")
}

// Whether a path is that of a payload manifest, or nearly.
fn is_like_manifest(path: &str) -> bool {
    match path.split_at_checked(MANIFEST.len()) {
        Some((front, _)) => front.eq_ignore_ascii_case(MANIFEST) && !path.contains('/'),
        None => false,
    }
}

fn push_unknown_manifest(
    text: &mut String,
    bag: &Bag<'_, '_>,
    finding: &Finding<'_>,
) -> Result<(), AllocError> {
    let path = finding.path.as_str();
    push_path(text, path)?;
    text.push_str(" is of an algorithm that isn't read here")?;
    push_meant(text, bag, path)
}

// `MANIFEST line N lists PATH`, and more.
fn push_entry(text: &mut String, finding: &Finding<'_>, more: &str) -> Result<(), AllocError> {
    let name = finding.name;
    let line = finding.line;
    write!(text, "{name} line {line} lists ")?;
    push_path(text, finding.path.as_str())?;
    text.push_str(more)
}

// A path; between quotes where its end couldn't be seen.
fn push_path(text: &mut String, path: &str) -> Result<(), AllocError> {
    if path.is_empty() || path.starts_with(' ') || path.ends_with(' ') {
        return push_quoted(text, path);
    }
    push_name(text, path)
}

fn push_astray(
    text: &mut String,
    bag: &Bag<'_, '_>,
    finding: &Finding<'_>,
) -> Result<(), AllocError> {
    let path = finding.path.as_str();
    if path.starts_with('/') {
        return push_entry(
            text,
            finding,
            ", which begins with a slash, and paths begin in the bag's own folder",
        );
    }
    if has_unsafe_part(path.as_bytes()) {
        return push_entry(
            text,
            finding,
            ", which has an empty part, one that is . or .., or a slash at an end",
        );
    }
    if is_payload(path.as_bytes()) {
        return push_entry(
            text,
            finding,
            ", which is below data/, and a tag manifest lists the others",
        );
    }
    push_entry(text, finding, ", which isn't below data/")?;
    push_payload_of(text, bag, path)
}

// Appends that there is such a file below data/, where that is so.
fn push_payload_of(text: &mut String, bag: &Bag<'_, '_>, path: &str) -> Result<(), AllocError> {
    let meant = format!(in bag.rt.alloc(); "data/{path}")?;
    if !bag.files.has_file(meant.as_str()) {
        return Ok(());
    }
    text.push_str("; ")?;
    push_path(text, meant.as_str())?;
    text.push_str(" is there: list paths from the bag's own folder on")
}

fn push_missing(
    text: &mut String,
    bag: &Bag<'_, '_>,
    near: &NearNames,
    finding: &Finding<'_>,
) -> Result<(), AllocError> {
    push_entry(text, finding, ", which isn't there")?;
    near.push_unlisted(bag.rt.alloc(), text, finding.path.as_str())
}

fn push_unlisted(
    text: &mut String,
    bag: &Bag<'_, '_>,
    near: &NearNames,
    finding: &Finding<'_>,
) -> Result<(), AllocError> {
    push_path(text, finding.path.as_str())?;
    let name = finding.name;
    write!(text, " is in the bag, but {name} doesn't list it")?;
    near.push_missing(bag.rt.alloc(), text, finding.path.as_str())
}

// What is there and mayn't be, or the other way round.
fn push_no_payload(text: &mut String, bag: &Bag<'_, '_>) -> Result<(), AllocError> {
    text.push_str("data isn't there, or is no folder")?;
    push_near_folder(text, bag, "data")
}

fn push_presence(text: &mut String, finding: &Finding<'_>) -> Result<(), AllocError> {
    push_path(text, finding.path.as_str())?;
    text.push_str(" is in the bag")
}
