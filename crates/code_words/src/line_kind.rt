//! What kind of text has a line.

ghost use Rattle.std.specs.Prelude.{◌≡◌, ◌++◌, slice_get, OnOk, string_bytes};
ghost use Rattle.std.specs.List.{list_any};
ghost use Rattle.std.specs.Option.{option_copied};
ghost use Rattle.std.specs.Str.{bytes_eq};
ghost use Rattle.code_words.specs.FileKinds.{kind_of_line, kind_of_words, words_of, word_at};
ghost use Rattle.code_words.specs.FileKinds.{is_key_word, is_ledger_word, is_path, is_number};
ghost use Rattle.code_words.specs.FileKinds.{is_command};
ghost use Rattle.code_words.specs.ScheduleWords.{is_list, list_text, kind_text};

use crate::file_kind::FileKind;
use crate::form::{FORMS, Form};
use std::alloc::AllocError;
use std::str;
use tokens::parse_number;

/// What kind of text begins with this line.
pub(crate) fn kind_of_line(line: &str) -> Option<FileKind>
    ensures { result ≡ kind_of_line line.now }
{
    let line = line.as_bytes();
    kind_of_words(
        word_at(line, 0),
        word_at(line, 1),
        word_at(line, 2),
        word_at(line, 3),
    )
}

// The word of this number, counted from 0; empty where there is none.
fn word_at(line: &[u8], number: usize) -> &[u8]
    ensures { result.now ≡ word_at line.now number }
{
    match word_of(line, number) {
        Some(word) => word,
        None => &[],
    }
}

fn word_of(line: &[u8], number: usize) -> Option<&[u8]>
    ensures { option_copied result ≡ slice_get (words_of line.now) number }
{
    line.split(|byte| byte.is_ascii_whitespace())
        .filter(|word| !word.is_empty())
        .nth(number)
}

// What kind of text begins with a line of these words, where a missing one is empty.
#[tactic(auto, unfolding(crate::specs::FileKinds::kind_of_words))]
fn kind_of_words(first: &[u8], second: &[u8], third: &[u8], fourth: &[u8]) -> Option<FileKind>
    ensures { result ≡ kind_of_words first.now second.now third.now fourth.now }
{
    if first.starts_with(b"{\"") {
        Some(FileKind::Json)
    } else if first == b"cell".as_slice() {
        if second.is_empty() {
            None
        } else {
            Some(FileKind::Journal)
        }
    } else if first == b"federation".as_slice() {
        if second.is_empty() {
            None
        } else if third.is_empty() {
            Some(FileKind::Members)
        } else {
            Some(FileKind::Schedule)
        }
    } else if is_key_word(first) && !second.is_empty() {
        Some(FileKind::Key)
    } else if is_ledger_word(first) && !fourth.is_empty() {
        Some(FileKind::Ledger)
    } else if first == b"asked".as_slice() && is_number(third) && fourth.is_empty() {
        Some(FileKind::Ledger)
    } else if !is_command(first) && is_number(second) && is_path(third) && fourth.is_empty() {
        Some(FileKind::Deposits)
    } else {
        None
    }
}

// Whether a line of a key file begins with this word.
fn is_key_word(word: &[u8]) -> bool
    ensures { result ≡ is_key_word word.now }
{
    word == b"sites".as_slice() || word == b"clients".as_slice()
}

// Whether a line of four words or more that `ledger` prints begins with this one.
fn is_ledger_word(word: &[u8]) -> bool
    ensures { result ≡ is_ledger_word word.now }
{
    word == b"known".as_slice() || word == b"pending".as_slice() || word == b"voted".as_slice()
}

/// Appends of which list a line is, if it is one's, where a text of another kind had to begin.
pub(crate) fn push_list_kind(text: &mut String, line: &[u8]) -> Result<(), AllocError>
    ensures { OnOk result (string_bytes text.new ≡ string_bytes text.old ++ list_text line.now) }
{
    match str::from_utf8(line) {
        Ok(line) => push_kind(text, kind_of_line(line)),
        Err(_) => Ok(()),
    }
}

fn push_kind(text: &mut String, kind: Option<FileKind>) -> Result<(), AllocError>
    ensures { OnOk result (string_bytes text.new ≡ string_bytes text.old ++ kind_text kind) }
{
    match kind {
        Some(kind) if is_list(kind) => text.push_str(kind.said()),
        _ => Ok(()),
    }
}

fn is_list(kind: FileKind) -> bool
    ensures { result ≡ is_list kind }
{
    matches!(
        kind,
        FileKind::Ledger | FileKind::Journal | FileKind::Deposits | FileKind::Json
    )
}

// Whether a word may be the path of a deposit: a number is more likely one of `federation F N`.
fn is_path(word: &[u8]) -> bool
    ensures { result ≡ is_path word.now }
{
    !word.is_empty() && !is_number(word)
}

// Whether a word is a number of 32 bits, which may have a plus before it.
fn is_number(word: &[u8]) -> bool
    ensures { result ≡ is_number word.now }
{
    match word {
        [b'+', digits @ ..] => parse_number(0, 4294967295, digits).is_some(),
        _ => parse_number(0, 4294967295, word).is_some(),
    }
}

// Whether a line of a schedule or of a members file begins with this word.
fn is_command(word: &[u8]) -> bool
    ensures { result ≡ is_command word.now }
{
    word == b"site".as_slice() || is_of_form(FORMS.as_slice(), word)
}

fn is_of_form(forms: &[Form], word: &[u8]) -> bool
    ensures { result ≡ list_any (λ form. bytes_eq form.name.now word.now) forms.now }
{
    forms.iter().any(|form| has_name(form, word))
}

/// Whether the command has this name.
pub(crate) fn has_name(form: &Form, word: &[u8]) -> bool
    ensures { result ≡ bytes_eq form.now.name.now word.now }
{
    form.name.as_bytes() == word
}
