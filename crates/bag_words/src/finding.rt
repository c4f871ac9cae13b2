//! What `bag_explain` found, line by line.

use crate::unread::UnreadPaths;
use std::alloc::{AllocError, Global};
use tokens::parse_text;

/// A place where a fault holds.
#[derive(Drop)]
pub(crate) struct Finding<'a> {
    /// The number of the fault.
    pub(crate) number: u8,
    /// The path of a file; empty where the place is that of a line alone.
    pub(crate) path: String,
    /// The name of a text; empty where the place is that of a file alone.
    pub(crate) name: &'a str,
    /// The number of the text's line, or 0.
    pub(crate) line: usize,
    /// The algorithm of a digest, or nothing.
    pub(crate) algorithm: &'a str,
}

/// The places that these lines name, except those that can't be read: nothing is known of them.
pub(crate) fn findings_in<'a>(
    alloc: Global,
    lines: &'a str,
    unread: &UnreadPaths<'_>,
) -> Result<Vec<Finding<'a>>, AllocError> {
    let mut findings = Vec::new(alloc);
    for line in lines.lines() {
        if let Some(finding) = finding_in(alloc, line)? {
            if !unread.have(finding.path.as_str()) {
                findings.push(finding)?;
            }
        }
    }
    Ok(findings)
}

fn finding_in<'a>(alloc: Global, line: &'a str) -> Result<Option<Finding<'a>>, AllocError> {
    let fields: Vec<&'a str> = line.split(' ').collect(alloc)?;
    let Some((number, fields)) = fields.as_slice().split_first() else {
        return Ok(None);
    };
    let number = number.parse::<u8>().unwrap_or(0);
    let (path, at, algorithm) = match fields {
        [at] if is_of_line(number) => ("", *at, ""),
        [path] => (*path, "", ""),
        [path, at] => (*path, *at, ""),
        [path, algorithm, at] => (*path, *at, *algorithm),
        _ => return Ok(None),
    };
    let (name, line) = name_and_line(at);
    Ok(Some(Finding {
        number,
        path: unescaped(alloc, path)?,
        name,
        line,
        algorithm,
    }))
}

// Whether the places of a fault are lines of a text alone.
fn is_of_line(number: u8) -> bool {
    matches!(number, 2 | 3 | 4 | 9)
}

fn name_and_line(at: &str) -> (&str, usize) {
    match at.rsplit_once(':') {
        Some((name, line)) => (name, line.parse::<usize>().unwrap_or(0)),
        None => (at, 0),
    }
}

fn unescaped(alloc: Global, path: &str) -> Result<String, AllocError> {
    match parse_text(alloc, path.as_bytes())? {
        Some(path) => Ok(path),
        None => String::from_str(alloc, path),
    }
}
