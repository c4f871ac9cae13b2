//! Whether a bag that is refused here is a valid one by RFC 8493.

use crate::bag::{ALGORITHMS, Bag};
use crate::finding::Finding;
use bag_check::Kind;
use std::alloc::AllocError;

/// Appends that the bag is valid by RFC 8493, if it is, and is still refused here, since it has a
/// fetch.txt or no manifest-sha512.txt. Where it has manifests that aren't read, only what the
/// others say is known; and where a file wasn't read, or no digest was asked for, nothing is.
pub(crate) fn push_rfc(
    text: &mut String,
    bag: &Bag<'_, '_>,
    findings: &[Finding<'_>],
) -> Result<(), AllocError> {
    if !bag.is_known_whole
        || findings.is_empty()
        || !findings
            .iter()
            .all(|finding| matches!(finding.number, 5 | 7 | 8))
    {
        return Ok(());
    }
    let mut algorithms = String::new(bag.rt.alloc());
    for algorithm in ALGORITHMS {
        if bag.files.has_file(Kind::Payload.manifest_name(algorithm)) {
            if !algorithms.is_empty() {
                algorithms.push(' ')?;
            }
            algorithms.push_str(algorithm.name())?;
        }
    }
    if algorithms.is_empty() {
        return Ok(());
    }
    if has(findings, 8) {
        return writeln!(
            text,
            "RFC 8493: not known, since a manifest isn't read here; nothing is wrong by those that \
            are ({algorithms})"
        );
    }
    let reason = if has(findings, 7) {
        "it has no identity here: no manifest-sha512.txt"
    } else {
        "no bag with a fetch.txt is taken here"
    };
    // What a fetch.txt lists has to be there, and isn't read here.
    let unless = if has(findings, 5) {
        ", if its fetch.txt lists no other files"
    } else {
        ""
    };
    writeln!(text, "RFC 8493: valid ({algorithms}){unless}, but {reason}")
}

fn has(findings: &[Finding<'_>], number: u8) -> bool {
    findings.iter().any(|finding| finding.number == number)
}
