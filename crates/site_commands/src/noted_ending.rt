//! The log of a site says why it ended.

use code_words::meaning_of_line;
use outcomes::ProgramFault;
use site_log::SiteLog;
use std::alloc::{AllocError, Global};

const UNWRITTEN: &str =
    "a line couldn't be written to standard output; make room for the lines, and start the site \
    again";

/// Notes in words why the site ended, after the last line that it wrote: nothing where its turns
/// are over, or where there is no memory for the words.
pub(crate) fn note_ending(alloc: Global, log: &SiteLog<'_>, answer: Result<u8, ProgramFault>) {
    log.closes();
    if let Ok(why) = reason_of(alloc, log, answer) {
        if !why.is_empty() {
            log.ends(why.as_str());
        }
    }
}

// Why it ended; nothing where its turns are over.
fn reason_of(
    alloc: Global,
    log: &SiteLog<'_>,
    answer: Result<u8, ProgramFault>,
) -> Result<String, AllocError> {
    match answer {
        Ok(0) => Ok(String::new(alloc)),
        Ok(_) => meaning_text(alloc, log.last_line()?.as_str()),
        Err(_) => unwritten_reason(alloc, log),
    }
}

// That a line couldn't be written; and before it why the site ended, if it was the line that says
// so.
fn unwritten_reason(alloc: Global, log: &SiteLog<'_>) -> Result<String, AllocError> {
    let mut text = meaning_text(alloc, log.last_words()?.as_str())?;
    if !text.is_empty() {
        text.push_str("; and ")?;
    }
    text.push_str(UNWRITTEN)?;
    Ok(text)
}

// What the code of a line says, and what to do about it.
fn meaning_text(alloc: Global, line: &str) -> Result<String, AllocError> {
    let mut text = String::new(alloc);
    if let Some(meaning) = meaning_of_line(alloc, line)? {
        meaning.push(&mut text)?;
    }
    Ok(text)
}
