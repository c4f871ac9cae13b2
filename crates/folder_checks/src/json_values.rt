//! The parts of what is said of a folder as JSON.

ghost use Rattle.std.specs.Prelude.{◌≡◌, ◌+◌, ◌==◌, IfOk, map, take, drop, position, option_copied};
ghost use Rattle.std.specs.Prelude.{option_map, string_bytes};
ghost use Rattle.serde_json.specs.Data.{Data, string, array, put as with_member};
ghost use Rattle.serde_json.specs.View.{view, members_view, items_of};
ghost use Rattle.tokens.specs.Escapes.{escaped_text};
ghost use Rattle.folder_checks.specs.Names.{names_of};
ghost use Rattle.folder_checks.specs.Json.{text_data, code_data, identity_data, verdict_word};
ghost use Rattle.folder_checks.specs.Json.{finding_data, places_data, finding_at, words_data};
ghost use Rattle.folder_checks.specs.Json.{count_data};

use crate::folder_list::names_in;
use crate::named::push_escaped_bytes;
use crate::verdict::Verdict;
use code_words::{Meaning, invalid, unread};
use serde_json::{Map, Value};
use std::alloc::{AllocError, Global};
use std::str;
use tokens::parse_number;

/// A text; null for bytes that aren't UTF-8.
pub(crate) fn text_value(alloc: Global, bytes: &[u8]) -> Result<Value, AllocError>
    ensures { IfOk result (λ value. view value ≡ text_data bytes.now) }
{
    match str::from_utf8(bytes) {
        Ok(text) => Ok(Value::String(String::from_str(alloc, text)?)),
        Err(_) => Ok(Value::Null),
    }
}

/// A name as it is printed in lines.
pub(crate) fn escaped_value(alloc: Global, name: &[u8]) -> Result<Value, AllocError>
    ensures { IfOk result (λ value. view value ≡ string (escaped_text name.now)) }
{
    let mut text = String::new(alloc);
    push_escaped_bytes(&mut text, name)?;
    Ok(Value::String(text))
}

/// A verdict's number, or null for a valid or complete bag.
pub(crate) fn code_value(verdict: Verdict) -> Value
    ensures { view result ≡ code_data verdict }
{
    match verdict {
        Verdict::Valid(_) | Verdict::Complete(_) => Value::Null,
        Verdict::Invalid(fault) => Value::from(fault.number()),
        Verdict::Unread(fault) => Value::from(fault.number()),
    }
}

/// A valid or complete bag's identity in hex, else null.
pub(crate) fn identity_value(alloc: Global, verdict: Verdict) -> Result<Value, AllocError>
    ensures { IfOk result (λ value. view value ≡ identity_data verdict) }
{
    match verdict {
        Verdict::Valid(bag) | Verdict::Complete(bag) => Ok(Value::String(hex::encode(
            alloc, bag.0,
        )?)),
        Verdict::Invalid(_) | Verdict::Unread(_) => Ok(Value::Null),
    }
}

/// The word of a verdict.
pub(crate) fn verdict_value(alloc: Global, verdict: Verdict) -> Result<Value, AllocError>
    ensures { IfOk result (λ value. view value ≡ string (verdict_word verdict)) }
{
    let word = match verdict {
        Verdict::Valid(_) => "valid",
        Verdict::Complete(_) => "complete",
        Verdict::Invalid(_) => "invalid",
        Verdict::Unread(_) => "unread",
    };
    Ok(Value::String(String::from_str(alloc, word)?))
}

/// What a verdict's code says in words.
pub(crate) fn words_value(alloc: Global, words: Option<&str>) -> Result<Value, AllocError>
    ensures { IfOk result (λ value. view value ≡ words_data (option_copied words.entry)) }
{
    match words {
        Some(words) => Ok(Value::String(String::from_str(alloc, words)?)),
        None => Ok(Value::Null),
    }
}

/// What the code of this verdict says, if it has one.
pub(crate) fn words_of(verdict: Verdict) -> Option<&'static str> {
    let meaning: Option<&'static Meaning> = match verdict {
        Verdict::Valid(_) | Verdict::Complete(_) => None,
        Verdict::Invalid(fault) => invalid(fault.number()),
        Verdict::Unread(fault) => unread(fault.number()),
    };
    match meaning {
        Some(meaning) => Some(meaning.words),
        None => None,
    }
}

/// The lines of an explanation, each as a number and a place; null if there are none.
pub(crate) fn places_value(alloc: Global, lines: &Option<String>) -> Result<Value, AllocError>
    ensures { IfOk result
        (λ value. view value ≡ places_data (option_map string_bytes lines.now)) }
{
    match lines {
        Some(lines) => Ok(Value::Array(findings_in(alloc, lines.as_str())?)),
        None => Ok(Value::Null),
    }
}

/// A number, or null.
pub(crate) fn count_value(count: Option<u64>) -> Value
    ensures { view result ≡ count_data count }
{
    match count {
        Some(count) => Value::from(count),
        None => Value::Null,
    }
}

// The values of the lines of an explanation.
fn findings_in(alloc: Global, lines: &str) -> Result<Vec<Value>, AllocError>
    ensures { IfOk result
        (λ values. map view values.items ≡ map finding_data (names_of 10 lines.now)) }
{
    let lines = names_in(alloc, lines.as_bytes(), b'\n')?;
    let mut values = Vec::new(alloc);
    for line in &lines {
        values.push(finding_value(alloc, line)?)?;
    }
    Ok(values)
}

// The value of a line of an explanation.
fn finding_value(alloc: Global, line: &[u8]) -> Result<Value, AllocError>
    ensures { IfOk result (λ value. view value ≡ finding_data line.now) }
{
    finding_at(alloc, line, space_in(line).unwrap_or(0))
}

// Where the first space is.
fn space_in(line: &[u8]) -> Option<usize>
    ensures { result ≡ position (λ b. b == 32) line.now }
{
    line.iter().position(|b| *b == b' ')
}

fn finding_at(alloc: Global, line: &[u8], space: usize) -> Result<Value, AllocError>
    ensures { IfOk result (λ value. view value ≡ finding_at line.now space) }
{
    let number = parse_number(0, 255, before(line, space)).unwrap_or(0);
    let mut map = Map::new(alloc);
    serde_json::put(&mut map, alloc, "number", Value::from(number))?;
    serde_json::put(
        &mut map,
        alloc,
        "where",
        text_value(alloc, after(line, space))?,
    )?;
    Ok(Value::Object(map))
}

fn before(line: &[u8], space: usize) -> &[u8]
    ensures { result.now ≡ take space line.now }
{
    match line.get(..space) {
        Some(front) => front,
        None => line,
    }
}

fn after(line: &[u8], space: usize) -> &[u8]
    ensures { result.now ≡ drop (space + 1) line.now }
{
    if space < line.len() {
        &line[space + 1..]
    } else {
        &[]
    }
}
