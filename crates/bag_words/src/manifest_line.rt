//! What is wrong with a line of a manifest.

use crate::bag::ALGORITHMS;
use crate::finding::Finding;
use bag_text::Algorithm;
use code_words::{MARK, push_name};
use std::alloc::AllocError;

/// How many bytes of a line are shown.
const SHOWN: usize = 160;

/// Appends the line, and what is wrong with it.
pub(crate) fn push_malformed(
    text: &mut String,
    finding: &Finding<'_>,
    line: &[u8],
) -> Result<(), AllocError> {
    let name = finding.name;
    let number = finding.line;
    write!(text, "{name} line {number} is ")?;
    push_shown(text, line)?;
    text.push_str(": ")?;
    push_mistake(text, algorithm_of(name), line)
}

/// Appends a line between quotes; of a long one its beginning. Bytes that are no text are dots.
pub(crate) fn push_shown(text: &mut String, line: &[u8]) -> Result<(), AllocError> {
    text.push('"')?;
    let front = line.get(..SHOWN).unwrap_or(line);
    match str::from_utf8(front) {
        Ok(front) => push_name(text, front)?,
        Err(_) => push_ascii(text, front)?,
    }
    text.push_str(if front.len() < line.len() {
        "..\""
    } else {
        "\""
    })
}

fn push_ascii(text: &mut String, bytes: &[u8]) -> Result<(), AllocError> {
    for byte in bytes {
        let is_plain = byte.is_ascii_graphic() || *byte == b' ';
        text.push(if is_plain { char::from(*byte) } else { '.' })?;
    }
    Ok(())
}

// The algorithm of the manifest of this name.
fn algorithm_of(name: &str) -> Algorithm {
    for algorithm in ALGORITHMS {
        let ending = algorithm.name();
        if name.strip_suffix(".txt").unwrap_or(name).ends_with(ending) {
            return algorithm;
        }
    }
    Algorithm::Sha512
}

fn push_mistake(text: &mut String, algorithm: Algorithm, line: &[u8]) -> Result<(), AllocError> {
    if let Some(mistake) = mistake_at_start(line) {
        return text.push_str(mistake);
    }
    let digits = line
        .iter()
        .take_while(|byte| byte.is_ascii_hexdigit())
        .count();
    if digits != algorithm.hex_len() {
        return push_count(text, algorithm, digits);
    }
    let rest = line.get(digits..).unwrap_or(&[]);
    text.push_str(match rest.first() {
        None => "no path comes after the digest",
        Some(b' ' | b'\t') if rest.trim_ascii().is_empty() => "no path comes after the digest",
        Some(b' ' | b'\t') => "its path isn't UTF-8",
        Some(_) => "no blank comes after the digest",
    })
}

fn mistake_at_start(line: &[u8]) -> Option<&'static str> {
    if line.starts_with(MARK) {
        return Some("it begins with a byte order mark; save it without");
    }
    match line.first() {
        Some(b'#') => Some("a manifest has no comments"),
        Some(b' ' | b'\t') => Some("it begins with a blank"),
        Some(b'\\') => Some(
            "sha512sum begins so where it escapes a name; write the name as it is, with %0A, %0D and %25",
        ),
        _ => None,
    }
}

fn push_count(text: &mut String, algorithm: Algorithm, digits: usize) -> Result<(), AllocError> {
    let name = algorithm.name();
    let wanted = algorithm.hex_len();
    write!(
        text,
        "it begins with {digits} hex digits, and a {name} has {wanted}"
    )?;
    for other in ALGORITHMS {
        if other.hex_len() == digits {
            let other = other.name();
            return write!(text, ", a {other} {digits}");
        }
    }
    Ok(())
}
