//! Strings of JSON that a script element can hold.

use std::alloc::AllocError;

/// Appends a text as a string of JSON. No character that ends the string or that HTML reads is in
/// it as it is, so that no text ends the script element.
pub(crate) fn push_text(text: &mut String, words: &str) -> Result<(), AllocError> {
    text.push('"')?;
    for character in words.chars() {
        push_character(text, character)?;
    }
    text.push('"')
}

fn push_character(text: &mut String, character: char) -> Result<(), AllocError> {
    if is_plain(character) {
        return text.push(character);
    }
    let code = character as u32;
    write!(text, "\\u{code:04x}")
}

// Whether it can stand in the string as it is. All others have four digits.
fn is_plain(character: char) -> bool {
    match character {
        '"' | '\\' | '<' | '>' | '&' => false,
        '\u{7f}'..='\u{9f}' | '\u{2028}' | '\u{2029}' => false,
        _ => ' ' <= character,
    }
}

/// Appends the name of a member of an object, and a colon.
pub(crate) fn push_name(text: &mut String, name: &str) -> Result<(), AllocError> {
    push_text(text, name)?;
    text.push_str(": ")
}

/// Appends a member of an object that is a number, and what follows it.
pub(crate) fn push_number(
    text: &mut String,
    name: &str,
    number: usize,
    end: &str,
) -> Result<(), AllocError> {
    push_name(text, name)?;
    write!(text, "{number}{end}")
}

/// Appends a member of an object that is a string, and what follows it.
pub(crate) fn push_string(
    text: &mut String,
    name: &str,
    words: &str,
    end: &str,
) -> Result<(), AllocError> {
    push_name(text, name)?;
    push_text(text, words)?;
    text.push_str(end)
}
