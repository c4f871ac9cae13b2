//! The value of a word.

ghost use Rattle.std.specs.Prelude.{◌≡◌, map, IfOk};
ghost use Rattle.serde_json.specs.Data.{array};
ghost use Rattle.serde_json.specs.View.{view, items_of};
ghost use Rattle.tokens.specs.Words.{text_of};
ghost use Rattle.json_lines.specs.Json.{text_data, name_data, number_in_word};

use serde_json::Value;
use std::alloc::{AllocError, Global};
use std::str;
use tokens::{parse_number, parse_text};

/// A text; null for bytes that aren't UTF-8.
pub(crate) fn text_value(alloc: Global, bytes: &[u8]) -> Result<Value, AllocError>
    ensures { IfOk result (λ value. view value ≡ text_data bytes.now) }
{
    match str::from_utf8(bytes) {
        Ok(text) => Ok(Value::String(String::from_str(alloc, text)?)),
        Err(_) => Ok(Value::Null),
    }
}

/// A name with its escapes undone; null if that isn't UTF-8.
pub(crate) fn name_value(alloc: Global, word: &[u8]) -> Result<Value, AllocError>
    ensures { IfOk result (λ value. view value ≡ name_data (text_of word.now)) }
{
    match parse_text(alloc, word)? {
        Some(name) => Ok(Value::String(name)),
        None => Ok(Value::Null),
    }
}

/// The number of a word; null if it isn't one.
pub(crate) fn number_value(word: &[u8]) -> Value
    ensures { view result ≡ number_in_word word.now }
{
    match parse_number(0, u64::MAX, word) {
        Some(number) => Value::from(number),
        None => Value::Null,
    }
}

/// The numbers of words.
pub(crate) fn numbers_value(alloc: Global, words: &[&[u8]]) -> Result<Value, AllocError>
    ensures { IfOk result (λ value. view value
        ≡ array (items_of (map number_in_word (map (λ word. word.now) words.now)))) }
{
    Ok(Value::Array(numbers_in(alloc, words)?))
}

fn numbers_in(alloc: Global, words: &[&[u8]]) -> Result<Vec<Value>, AllocError>
    ensures { IfOk result (λ values. map view values.items
        ≡ map number_in_word (map (λ word. word.now) words.now)) }
{
    let mut values = Vec::new(alloc);
    for word in words {
        values.push(number_value(word))?;
    }
    Ok(values)
}
