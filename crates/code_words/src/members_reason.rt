//! What is wrong with a members file, and what it says of a site.

use crate::asked::Asked;
use crate::file_reason::{bytes_at, is_device, is_piped};
use crate::members_line::push_members_words;
use crate::name::push_name;
use members_file::{Place, read_members};
use std::alloc::AllocError;

/// Appends what is wrong with the line of this number of the members file.
pub(crate) fn push_line_reason(
    rt: &HostRuntime,
    text: &mut String,
    asked: &Asked<'_>,
    number: &str,
) -> Result<(), AllocError> {
    push_name(text, asked.members)?;
    if is_device(rt, asked.members) {
        return text.push_str(" is a device, and not a file");
    }
    if is_piped(rt, asked.members) {
        return write!(
            text,
            ", line {number}: it came through a pipe, and is gone: give a file to see the line"
        );
    }
    let bytes = bytes_at(rt, asked.members);
    if bytes.is_empty() {
        return text.push_str(" is empty, and a members file begins with federation F");
    }
    text.push_str(", ")?;
    let number = number.parse::<usize>().unwrap_or(1);
    push_members_words(rt.alloc(), text, bytes.as_slice(), number)
}

/// Appends that the site isn't in the members file.
pub(crate) fn push_stranger(text: &mut String, asked: &Asked<'_>) -> Result<(), AllocError> {
    push_name(text, asked.members)?;
    let site = asked.site;
    write!(
        text,
        " has no site {site}; give the number of one that it has"
    )
}

/// The place of the site by the members file, if that can be read.
pub(crate) fn place_of(rt: &HostRuntime, asked: &Asked<'_>) -> Option<Place> {
    let bytes = bytes_at(rt, asked.members);
    let Ok(members) = read_members(rt.alloc(), bytes.as_slice()) else {
        return None;
    };
    let place = usize::from(asked.site).checked_sub(1)?;
    match members.sites().get(place) {
        Some(site) => Some(site.place),
        None => None,
    }
}
