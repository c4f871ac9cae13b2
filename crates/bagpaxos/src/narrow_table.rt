//! The table of codes, for a terminal.

use std::alloc::AllocError;

/// The most characters of a line.
const MOST: usize = 80;

/// How many bytes come before the words of a code, and how far the lines below them begin.
const BEFORE: usize = 26;

const BELOW: &str = "                          ";

/// Writes the table of codes into an empty text, each line with at most 80 characters: a longer one
/// goes on below its words, or, if it is a heading, at the beginning of a line.
pub(crate) fn push_table(text: &mut String) -> Result<(), AllocError> {
    code_words::push_table(text)?;
    let wide = text.clone()?;
    text.clear();
    for line in wide.as_str().lines() {
        push_line(text, line)?;
        text.push('\n')?;
    }
    Ok(())
}

fn push_line(text: &mut String, line: &str) -> Result<(), AllocError> {
    if count(line) <= MOST {
        return text.push_str(line);
    }
    match (line.get(..BEFORE), line.get(BEFORE..)) {
        (Some(code), Some(words)) if line.starts_with("  ") => {
            text.push_str(code)?;
            push_words(text, words, BELOW)
        }
        _ => push_words(text, line, ""),
    }
}

// Appends words, the first ones after as much as the others have before them.
fn push_words(text: &mut String, words: &str, before: &str) -> Result<(), AllocError> {
    let mut length = count(before);
    let mut is_first = true;
    for word in words.split(' ') {
        let more = count(word).saturating_add(1);
        if is_first {
            is_first = false;
        } else if length.saturating_add(more) > MOST {
            text.push('\n')?;
            text.push_str(before)?;
            length = count(before);
        } else {
            text.push(' ')?;
            length = length.saturating_add(1);
        }
        text.push_str(word)?;
        length = length.saturating_add(count(word));
    }
    Ok(())
}

fn count(text: &str) -> usize {
    text.chars().count()
}
