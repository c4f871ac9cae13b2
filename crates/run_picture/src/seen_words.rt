//! Words in the picture: how much of them is seen, how wide that is, and the box behind it.

use crate::paint::PLAIN;
use crate::shape::{push_shape, push_words};
use crate::sides::Side;
use std::alloc::AllocError;

/// How many characters of words are seen at most.
const SEEN: usize = 60;
/// How far a box goes beyond its words.
const RIM: usize = 4;

const BOX: &str = "<rect class='box' x='$0' y='$1' width='$2' height='16' rx='3'/>";

/// Appends words. Of those that are too long an ellipsis is in place of the end, and all are in the
/// title.
pub(crate) fn push_seen(text: &mut String, words: &str) -> Result<(), AllocError> {
    let count = words.chars().count();
    if count <= SEEN {
        return push_words(text, words);
    }
    text.push_str("<title>")?;
    push_words(text, words)?;
    text.push_str("</title>")?;
    for (place, character) in words.chars().enumerate() {
        if place < SEEN - 1 {
            push_words(text, character.encode_utf8(&mut [0; 4]))?;
        }
    }
    text.push('…')
}

/// How wide words are as far as they are seen, in a font of 12 units: as wide as in the widest of
/// the style's fonts.
pub(crate) fn width_of(words: &str) -> usize {
    let count = words.chars().count();
    let seen = if count <= SEEN { count } else { SEEN - 1 };
    let mut tenths: usize = if count <= SEEN { 0 } else { 120 };
    for (place, character) in words.chars().enumerate() {
        if place < seen {
            tenths = tenths.saturating_add(letter(character));
        }
    }
    tenths / 10
}

// How wide a character is, in tenths.
fn letter(character: char) -> usize {
    match character {
        'i' | 'j' | 'l' | '\'' | '|' => 34,
        ' ' | ',' | '.' | ':' | ';' | '·' | 'I' | '/' | '-' => 40,
        '!' | '(' | ')' | '[' | ']' | 'f' | 't' | 'r' => 49,
        'm' | 'w' | 'M' | 'W' | '%' | '@' | '&' => 120,
        'A'..='Z' | '+' | '<' | '=' | '>' | '~' | '#' => 100,
        _ => 77,
    }
}

/// Appends the box behind words that begin here, or end here if they are to the left, on a line of
/// this height.
pub(crate) fn push_box(
    text: &mut String,
    words: &str,
    x: usize,
    line: usize,
    side: Side,
) -> Result<(), AllocError> {
    let width = width_of(words);
    let begin = match side {
        Side::Left => x.saturating_sub(width),
        Side::Right => x,
    };
    let wide = width.saturating_add(RIM + RIM);
    let place = [begin.saturating_sub(RIM), line.saturating_sub(12), wide];
    push_shape(text, BOX, PLAIN, &place)
}
