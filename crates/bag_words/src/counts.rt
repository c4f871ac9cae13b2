//! How much there is of what was found.

use crate::bag::Bag;
use bag_tree::is_payload;
use std::alloc::AllocError;

/// How many there are of each.
#[derive(Clone, Copy, Debug, Default)]
pub(crate) struct Counts {
    pub(crate) faults: usize,
    pub(crate) places: usize,
    pub(crate) unread: usize,
    pub(crate) warnings: usize,
}

impl Counts {
    /// Appends the beginning of a warning, and counts it.
    pub(crate) fn warn(&mut self, text: &mut String) -> Result<(), AllocError> {
        self.warnings = self.warnings.saturating_add(1);
        text.push_str("warning: ")
    }
}

/// Appends the line of counts.
pub(crate) fn push_counts(
    text: &mut String,
    bag: &Bag<'_, '_>,
    counts: &Counts,
) -> Result<(), AllocError> {
    let all = bag.facts.files();
    let payload = all
        .iter()
        .filter(|file| is_payload(file.path().as_bytes()))
        .count();
    push_count(text, payload, "file")?;
    text.push_str(" below data/, ")?;
    push_count(text, all.len().saturating_sub(payload), "other")?;
    text.push_str("; ")?;
    push_count(text, counts.faults, "fault")?;
    text.push_str(" at ")?;
    push_count(text, counts.places, "place")?;
    if counts.unread != 0 {
        text.push_str(", ")?;
        push_count(text, counts.unread, "place")?;
        text.push_str(" that can't be read")?;
    }
    text.push_str(", ")?;
    push_count(text, counts.warnings, "warning")?;
    text.push('\n')
}

// Appends a number and a word, with its plural's s.
fn push_count(text: &mut String, count: usize, word: &str) -> Result<(), AllocError> {
    let plural = if count == 1 { "" } else { "s" };
    write!(text, "{count} {word}{plural}")
}
