//! What is wrong with a line of a members file.

use crate::federation_line::push_mark_words;
use crate::key_line::hidden_digits;
use crate::kind::Kind;
use crate::line_kind::push_list_kind;
use crate::place_pair::push_pair_words;
use crate::place_word::push_place_words;
use crate::schedule_command::{push_first_fault, push_missing, push_wrong};
use crate::schedule_line::push_tab_words;
use crate::text_lines::line_at;
use crate::word_text::{push_bytes, push_found};
use members_file::Place;
use std::alloc::{AllocError, Global};
use std::str;
use tokens::{parse_number, split_words};

/// Appends what is wrong with the line of this number, counted from 1, the first at fault in a text
/// that is no members file: `line 3: "b:5002" isn't a port, 1 to 65535 ..`.
pub(crate) fn push_members_words(
    alloc: Global,
    text: &mut String,
    file: &[u8],
    number: usize,
) -> Result<(), AllocError> {
    write!(text, "line {number}: ")?;
    let line = line_at(file, number);
    let words = split_words(alloc, line)?;
    if number <= 1 {
        push_federation_words(alloc, text, words.as_slice())?;
        push_list_kind(text, line)?;
    } else {
        push_site_words(alloc, text, file, number, words.as_slice())?;
    }
    push_tab_words(text, line)
}

fn push_federation_words(
    alloc: Global,
    text: &mut String,
    words: &[&[u8]],
) -> Result<(), AllocError> {
    text.push_str(
        "the first line has to be federation F, F being 0 to 18446744073709551615; found ",
    )?;
    match words {
        [name, arguments @ ..]
            if is_sites(name, arguments) && has_number_and_place(alloc, arguments)? => {
            return push_sites(text, name);
        }
        _ => push_found(text, words)?,
    }
    if let Some(first) = words.first() {
        push_mark_words(text, first)?;
    }
    push_comment(text, words)
}

fn push_site_words(
    alloc: Global,
    text: &mut String,
    file: &[u8],
    number: usize,
    words: &[&[u8]],
) -> Result<(), AllocError> {
    let site = number.saturating_sub(1);
    write!(
        text,
        "here comes site {site} PORT, or that and a weight; found "
    )?;
    match words {
        [name, arguments @ ..] if is_sites(name, arguments) => return push_sites(text, name),
        _ => push_found(text, words)?,
    }
    let [name, arguments @ ..] = words else {
        return text.push_str(": there is no site, or a blank line before the last");
    };
    if *name != b"site".as_slice() {
        return push_comment(text, words);
    }
    text.push_str(": ")?;
    push_argument_words(alloc, text, file, number, arguments)
}

// Whether a line has `sites` in place of `site`, and after it no digits that may be a key's.
fn is_sites(name: &[u8], arguments: &[&[u8]]) -> bool {
    name.eq_ignore_ascii_case(b"sites")
        && arguments.iter().all(|word| hidden_digits(word).is_none())
}

// Whether these words begin as those after `site` do.
fn has_number_and_place(alloc: Global, arguments: &[&[u8]]) -> Result<bool, AllocError> {
    match arguments {
        [site, place, ..] => {
            Ok(Kind::Number.takes(alloc, site)? && Place::parse(alloc, place)?.is_some())
        }
        _ => Ok(false),
    }
}

// Appends this name of a line, and what to write in its place. What stands after it isn't shown.
fn push_sites(text: &mut String, name: &[u8]) -> Result<(), AllocError> {
    text.push('"')?;
    push_bytes(text, name)?;
    text.push_str(" ..\": write `site`, not `sites`")
}

// Appends what is wrong with the words after `site`.
fn push_argument_words(
    alloc: Global,
    text: &mut String,
    file: &[u8],
    number: usize,
    arguments: &[&[u8]],
) -> Result<(), AllocError> {
    if push_first_fault(alloc, text, &[Kind::Number], arguments)? {
        return Ok(());
    }
    match arguments {
        [_] => push_missing(text, Kind::Port),
        [site, place] if is_with_weight(alloc, place)? => push_weight_words(text, site, place),
        [_, place, ..] if Place::parse(alloc, place)?.is_none() => push_place_words(text, place),
        [_, _, weight, ..] if !Kind::Weight.takes(alloc, weight)? => {
            push_wrong(text, Kind::Weight, weight)?;
            push_comment(text, &[*weight])
        }
        [_, _, _, left @ ..] if !left.is_empty() => {
            push_found(text, left)?;
            text.push_str(" is too much")?;
            push_comment(text, left)
        }
        [site, place, ..] => push_order_words(alloc, text, file, number, site, place),
        _ => Ok(()),
    }
}

// The parts of a word that is a place, a colon and a weight, as `members --new` takes it.
fn with_weight(word: &[u8]) -> Option<(&str, &str)> {
    str::from_utf8(word).ok()?.rsplit_once(':')
}

fn is_with_weight(alloc: Global, word: &[u8]) -> Result<bool, AllocError> {
    if Place::parse(alloc, word)?.is_some() {
        return Ok(false);
    }
    match with_weight(word) {
        Some((place, weight)) => Ok(
            Place::parse(alloc, place.as_bytes())?.is_some()
                && Kind::Weight.takes(alloc, weight.as_bytes())?,
        ),
        None => Ok(false),
    }
}

// Appends how a site's weight is written in a file.
fn push_weight_words(text: &mut String, site: &[u8], word: &[u8]) -> Result<(), AllocError> {
    match (str::from_utf8(site), with_weight(word)) {
        (Ok(site), Some((place, weight))) => write!(
            text,
            "write the weight after a blank: site {site} {place} {weight}"
        ),
        _ => Ok(()),
    }
}

// Appends that the site isn't the next, or that its place doesn't go with another's.
fn push_order_words(
    alloc: Global,
    text: &mut String,
    file: &[u8],
    number: usize,
    site: &[u8],
    place: &[u8],
) -> Result<(), AllocError> {
    let next = number.saturating_sub(1);
    if next > 63 {
        return text.push_str("there are 63 sites at most");
    }
    if parse_number(0, 4294967295, site) != Some(next as u64) {
        return write!(
            text,
            "the sites are numbered from 1 on, one after the other"
        );
    }
    let Some(place) = Place::parse(alloc, place)? else {
        return Ok(());
    };
    for earlier in 2..number {
        if let Some(other) = place_in(alloc, line_at(file, earlier))? {
            let site = earlier.saturating_sub(1);
            if push_pair_words(text, site, &other, &place)? {
                return Ok(());
            }
        }
    }
    Ok(())
}

// The place that the line of a site names.
fn place_in(alloc: Global, line: &[u8]) -> Result<Option<Place>, AllocError> {
    let words = split_words(alloc, line)?;
    match words.get(2) {
        Some(word) => Place::parse(alloc, word),
        None => Ok(None),
    }
}

// Appends that there are no comments, where these words begin one.
fn push_comment(text: &mut String, words: &[&[u8]]) -> Result<(), AllocError> {
    match words.first() {
        Some(word) if word.first() == Some(&b'#') => {
            text.push_str("; a members file has no comments")
        }
        _ => Ok(()),
    }
}
