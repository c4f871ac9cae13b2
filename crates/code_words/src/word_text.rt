//! Words of a line, as a person reads them.

ghost use Rattle.std.specs.Prelude.{◌≡◌, ◌∷◌, ◌++◌, [], map, codes, OnOk, string_bytes};
ghost use Rattle.std.specs.List.{flat_map, list_any};
ghost use Rattle.code_words.specs.FileKinds.{is_utf16};
ghost use Rattle.code_words.specs.Words.{bytes_text, byte_text, front_text, parts_text};
ghost use Rattle.code_words.specs.Words.{parts_after};
ghost use Rattle.code_words.specs.Words.{word_text, words_text, later_word, key_line_text};
ghost use Rattle.code_words.specs.Words.{is_cell, other_text, found_text};

use crate::file_start::CELL_START;
use crate::key_line::{hidden_digits, key_name};
use crate::name::push_name;
use crate::utf16::is_utf16;
use std::alloc::AllocError;

/// How many bytes of a word are shown.
const LONGEST: usize = 100;

/// Appends words between quotes, one space between them. Of a line of a key file it is its name
/// alone, and of so many digits as a key may have nothing: what is said may end in a journal that
/// others read. A cell isn't shown either, nor UTF-16.
#[tactic(auto, unfolding(crate::specs::Words::found_text))]
pub fn push_found(text: &mut String, words: &[&[u8]]) -> Result<(), AllocError>
    ensures { OnOk result (string_bytes text.new
        ≡ string_bytes text.old ++ found_text (map (λ word. word.now) words.now)) }
{
    match key_name(words) {
        Some(name) => push_key_line(text, name),
        None => push_other(text, words),
    }
}

#[tactic(auto, using(std::proofs::Common::append_assoc))]
fn push_key_line(text: &mut String, name: &[u8]) -> Result<(), AllocError>
    ensures { OnOk result (string_bytes text.new
        ≡ string_bytes text.old ++ key_line_text name.now) }
{
    text.push('"')?;
    push_word(text, name)?;
    text.push_str(" ..\"; this is a key file")
}

// Appends the words of a line that is none of a key file.
fn push_other(text: &mut String, words: &[&[u8]]) -> Result<(), AllocError>
    ensures { OnOk result (string_bytes text.new
        ≡ string_bytes text.old ++ other_text (map (λ word. word.now) words.now)) }
{
    if is_cell(words) {
        text.push_str("\"BPJ ..\"; this is a cell")
    } else if has_utf16(words) {
        text.push_str("\"..\"; it is UTF-16: save it as UTF-8")
    } else {
        push_all(text, words)
    }
}

fn is_cell(words: &[&[u8]]) -> bool
    ensures { result ≡ is_cell (map (λ word. word.now) words.now) }
{
    match words {
        [] => false,
        [first, ..] => first.starts_with(CELL_START),
    }
}

fn has_utf16(words: &[&[u8]]) -> bool
    ensures { result ≡ list_any is_utf16 (map (λ word. word.now) words.now) }
{
    words.iter().any(|word| is_utf16(word))
}

#[tactic(auto, using(std::proofs::Common::append_assoc))]
fn push_all(text: &mut String, words: &[&[u8]]) -> Result<(), AllocError>
    ensures { OnOk result (string_bytes text.new ≡ string_bytes text.old
        ++ 34 ∷ (words_text (map (λ word. word.now) words.now) ++ 34 ∷ [])) }
{
    text.push('"')?;
    push_words(text, words)?;
    text.push('"')
}

#[tactic(auto, using(std::proofs::Common::append_assoc))]
fn push_words(text: &mut String, words: &[&[u8]]) -> Result<(), AllocError>
    ensures { OnOk result (string_bytes text.new
        ≡ string_bytes text.old ++ words_text (map (λ word. word.now) words.now)) }
{
    match words {
        [] => Ok(()),
        [first, later @ ..] => {
            push_word(text, first)?;
            push_later(text, later)
        }
    }
}

// Appends words after another one.
fn push_later(text: &mut String, words: &[&[u8]]) -> Result<(), AllocError>
    ensures { OnOk result (string_bytes text.new
        ≡ string_bytes text.old ++ flat_map later_word (map (λ word. word.now) words.now)) }
{
    for word in words {
        push_later_word(text, word)?;
    }
    Ok(())
}

#[tactic(auto, using(std::proofs::Common::append_assoc))]
fn push_later_word(text: &mut String, word: &[u8]) -> Result<(), AllocError>
    ensures { OnOk result (string_bytes text.new ≡ string_bytes text.old ++ later_word word.now) }
{
    text.push(' ')?;
    push_word(text, word)
}

// Appends a word; of a long one its beginning, and dots in place of digits that may be a key's.
fn push_word(text: &mut String, word: &[u8]) -> Result<(), AllocError>
    ensures { OnOk result (string_bytes text.new ≡ string_bytes text.old ++ word_text word.now) }
{
    let mut rest = word;
    let mut room = LONGEST;
    while let Some((begin, end)) = hidden_digits(rest) {
        let part = &rest[..begin];
        if part.len() > room {
            return push_front(text, part, room);
        }
        push_bytes(text, part)?;
        text.push_str("..")?;
        room -= part.len();
        rest = &rest[end..];
    }
    push_front(text, rest, room)
}

// Appends so many bytes at most, and dots where there are more.
#[tactic(auto, using(std::proofs::Common::append_assoc))]
fn push_front(text: &mut String, bytes: &[u8], room: usize) -> Result<(), AllocError>
    ensures { OnOk result (string_bytes text.new
        ≡ string_bytes text.old ++ front_text room bytes.now) }
{
    if bytes.len() > room {
        push_bytes(text, &bytes[..room])?;
        text.push_str("..")
    } else {
        push_bytes(text, bytes)
    }
}

/// Appends bytes: text as it is, and of what is no text each byte in hex.
pub(crate) fn push_bytes(text: &mut String, bytes: &[u8]) -> Result<(), AllocError>
    ensures { OnOk result (string_bytes text.new ≡ string_bytes text.old ++ bytes_text bytes.now) }
{
    match str::from_utf8(bytes) {
        Ok(name) => push_name(text, name),
        Err(_) => push_each(text, bytes),
    }
}

fn push_each(text: &mut String, bytes: &[u8]) -> Result<(), AllocError>
    ensures { OnOk result (string_bytes text.new
        ≡ string_bytes text.old ++ flat_map byte_text bytes.now) }
{
    for byte in bytes {
        push_byte(text, *byte)?;
    }
    Ok(())
}

#[tactic(auto, using(std::proofs::lemmas::Fmt::hex_byte))]
fn push_byte(text: &mut String, byte: u8) -> Result<(), AllocError>
    ensures { OnOk result (string_bytes text.new ≡ string_bytes text.old ++ byte_text byte) }
{
    if byte.is_ascii_graphic() {
        text.push(char::from(byte))
    } else {
        write!(text, "\\x{byte:02x}")
    }
}
