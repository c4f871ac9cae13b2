//! What is wrong with bagit.txt.

use crate::finding::Finding;
use crate::manifest_line::push_shown;
use code_words::MARK;
use std::alloc::AllocError;

/// Appends what the line of bagit.txt is, and what it has to be.
pub(crate) fn push_declared(
    text: &mut String,
    finding: &Finding<'_>,
    line: &[u8],
) -> Result<(), AllocError> {
    let number = finding.line;
    write!(text, "bagit.txt line {number} is ")?;
    push_shown(text, line)?;
    text.push_str(match (finding.number, number) {
        (3, _) => "; versions 1.0 and 0.97 are read",
        (4, _) => "; the encoding that is read is UTF-8",
        (_, 1) => "; it has to be \"BagIt-Version: 1.0\"",
        (_, 2) => "; it has to be \"Tag-File-Character-Encoding: UTF-8\"",
        _ => "; there are two lines only",
    })?;
    if line.starts_with(MARK) {
        return text.push_str("; it begins with a byte order mark: save it without");
    }
    Ok(())
}
