//! Which folder a list has for a version.

use std::alloc::{AllocError, Global};
use tokens::{first_line, parse_number, parse_text, split_words};

/// The path that a list of deposits has for this version, whose words are as they are printed; none
/// if it has no line of it.
pub(crate) fn path_in(
    alloc: Global,
    list: &[u8],
    object: &str,
    version: &str,
) -> Result<Option<String>, AllocError> {
    let mut rest = list;
    for _ in 0..list.len() {
        let Some((line, after)) = first_line(rest) else {
            return Ok(None);
        };
        if let [name, number, path] = split_words(alloc, line)?.as_slice() {
            if is_same(alloc, name, object)?
                && version_of(number) == version_of(version.as_bytes())
            {
                return parse_text(alloc, path);
            }
        }
        rest = after;
    }
    Ok(None)
}

fn is_same(alloc: Global, word: &[u8], object: &str) -> Result<bool, AllocError> {
    let name = parse_text(alloc, word)?;
    Ok(name.is_some() && name == parse_text(alloc, object.as_bytes())?)
}

fn version_of(word: &[u8]) -> Option<u64> {
    parse_number(1, u64::from(u32::MAX), word)
}
