//! The name of a folder that stood as a line in a list.

ghost use Rattle.std.specs.Prelude.{◌≡◌, ◌++◌, codes, OnOk, is_some, string_bytes};
ghost use Rattle.std.specs.Option.{option_copied};
ghost use Rattle.code_words.specs.Words.{bytes_text, key_line_name, line_name_text};

use crate::key_line::{hidden_digits, key_name};
use crate::name::push_name;
use crate::utf16::is_utf16;
use crate::word_text::push_bytes;
use std::alloc::AllocError;

/// Appends a name that may be the line of a list. Of a line of a key file it is its first word, and
/// of UTF-16 nothing, since what is said may end in a journal that others read.
#[tactic(auto, unfolding(crate::specs::Words::line_name_text))]
pub fn push_line_name(text: &mut String, line: &str) -> Result<(), AllocError>
    ensures { OnOk result (string_bytes text.new
        ≡ string_bytes text.old ++ line_name_text line.now) }
{
    if is_utf16(line.as_bytes()) {
        return text.push_str("..");
    }
    match key_name_in(line.as_bytes()) {
        Some(name) => push_key_name(text, name),
        None => push_name(text, line),
    }
}

#[tactic(auto, using(std::proofs::Common::append_assoc))]
fn push_key_name(text: &mut String, name: &[u8]) -> Result<(), AllocError>
    ensures { OnOk result (string_bytes text.new
        ≡ string_bytes text.old ++ (bytes_text name.now ++ codes " ..")) }
{
    push_bytes(text, name)?;
    text.push_str(" ..")
}

/// Whether a name is the line of a key file, with its digits.
pub fn is_key_line(line: &str) -> bool
    ensures { result ≡ is_some (key_line_name line.now) }
{
    match key_name_in(line.as_bytes()) {
        Some(_) => true,
        None => false,
    }
}

fn key_name_in(line: &[u8]) -> Option<&[u8]>
    ensures { option_copied result ≡ key_line_name line.now }
{
    match hidden_digits(line) {
        Some(_) => key_name(&[line]),
        None => None,
    }
}
