//! Shapes with blanks, and text.

use crate::paint::{Colour, push_colour};
use std::alloc::AllocError;

/// Appends a shape: `$0` to `$9` are numbers among those given, and `$c` is a colour.
pub(crate) fn push_shape(
    text: &mut String,
    shape: &str,
    colour: Colour,
    numbers: &[usize],
) -> Result<(), AllocError> {
    let mut is_blank = false;
    for character in shape.chars() {
        if is_blank {
            push_blank(text, character, colour, numbers)?;
            is_blank = false;
        } else if character == '$' {
            is_blank = true;
        } else {
            text.push(character)?;
        }
    }
    Ok(())
}

fn push_blank(
    text: &mut String,
    blank: char,
    colour: Colour,
    numbers: &[usize],
) -> Result<(), AllocError> {
    let Some(digit) = blank.to_digit(10) else {
        return push_colour(text, colour);
    };
    match numbers.get(digit as usize) {
        Some(number) => write!(text, "{number}"),
        None => Ok(()),
    }
}

/// Appends words as the text of an element, with the characters escaped that have a meaning there.
pub(crate) fn push_words(text: &mut String, words: &str) -> Result<(), AllocError> {
    for character in words.chars() {
        match entity(character) {
            Some(entity) => text.push_str(entity)?,
            None => text.push(character)?,
        }
    }
    Ok(())
}

fn entity(character: char) -> Option<&'static str> {
    match character {
        '&' => Some("&amp;"),
        '<' => Some("&lt;"),
        '>' => Some("&gt;"),
        _ => None,
    }
}
