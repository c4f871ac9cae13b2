//! A line as a line of JSON.

ghost use Rattle.std.specs.Prelude.{◌≡◌, ◌++◌, ◌∷◌, [], ◌==◌, map, codes, IfOk, OnOk, string_bytes};
ghost use Rattle.serde_json.specs.Data.{no_members, string, put as with_member};
ghost use Rattle.serde_json.specs.View.{view, members_view};
ghost use Rattle.json_lines.specs.Forms.{form_of, form_shown, part_shown};
ghost use Rattle.json_lines.specs.Json.{IsLineOf, line_data, formed_data, words_in};
ghost use Rattle.json_lines.specs.Json.{with_part, with_parts, first_of};

use crate::form::{Form, Part, form_of};
use crate::json_values::{name_value, number_value, numbers_value, text_value};
use serde_json::{Map, Value};
use std::alloc::{AllocError, Global};

/// The line of JSON for a line without its end. It fails only if memory runs out.
pub fn json_line(alloc: Global, line: &[u8]) -> Result<String, AllocError>
    ensures { IfOk result (λ text. IsLineOf (line_data line.now) (string_bytes text)) }
{
    let value = line_value(alloc, line)?;
    with_end(value.to_string(alloc)?)
}

// A text with LF after it.
fn with_end(text: String) -> Result<String, AllocError>
    ensures { IfOk result (λ line. string_bytes line ≡ string_bytes text ++ 10 ∷ []) }
{
    let mut line = text;
    line.push('\n')?;
    Ok(line)
}

// What a line says.
#[tactic(auto, unfolding(crate::specs::Json::line_data))]
fn line_value(alloc: Global, line: &[u8]) -> Result<Value, AllocError>
    ensures { IfOk result (λ value. view value ≡ line_data line.now) }
{
    let words = split_at_spaces(alloc, line)?;
    words_value(alloc, words.as_slice(), line)
}

// What a line of these words says.
fn words_value(alloc: Global, words: &[&[u8]], line: &[u8]) -> Result<Value, AllocError>
    ensures { IfOk result (λ value. view value ≡ formed_data
        (form_of (map (λ word. word.now) words.now)) (map (λ word. word.now) words.now) line.now) }
{
    match form_of(words) {
        Some(form) => form_value(alloc, form, words),
        None => whole_value(alloc, line),
    }
}

// The parts of a line between its spaces.
fn split_at_spaces(alloc: Global, line: &[u8]) -> Result<Vec<&[u8]>, AllocError>
    ensures { IfOk result (λ words. map (λ word. word.now) words.items ≡ words_in line.now) }
{
    line.split(|b| *b == b' ').collect(alloc)
}

// What a line of this form says.
fn form_value(alloc: Global, form: &Form, words: &[&[u8]]) -> Result<Value, AllocError>
    ensures { IfOk result (λ value. view value ≡ formed_data (Some (form_shown form.now))
        (map (λ word. word.now) words.now) []) }
{
    let mut object = Map::new(alloc);
    put_parts(alloc, &mut object, form.parts, words)?;
    put_kind(alloc, &mut object, form.kind)?;
    Ok(Value::Object(object))
}

// What a line of no form says.
fn whole_value(alloc: Global, line: &[u8]) -> Result<Value, AllocError>
    ensures { IfOk result (λ value. view value ≡ formed_data None [] line.now) }
{
    let mut object = Map::new(alloc);
    serde_json::put(&mut object, alloc, "line", text_value(alloc, line)?)?;
    Ok(Value::Object(object))
}

// Adds which kind of line it is.
fn put_kind(alloc: Global, object: &mut Map<String, Value>, kind: &str) -> Result<(), AllocError>
    ensures { OnOk result (members_view object.new.entries
        ≡ with_member (codes "line") (string kind.now) (members_view object.old.entries)) }
{
    let kind = Value::String(String::from_str(alloc, kind)?);
    serde_json::put(object, alloc, "line", kind)
}

// Adds the members of all parts.
fn put_parts(
    alloc: Global,
    object: &mut Map<String, Value>,
    parts: &[Part],
    words: &[&[u8]],
) -> Result<(), AllocError>
    ensures { OnOk result (members_view object.new.entries
        ≡ with_parts (map part_shown parts.now) (map (λ word. word.now) words.now)
        (members_view object.old.entries)) }
{
    match parts {
        [] => Ok(()),
        [part, parts @ ..] => {
            put_part(alloc, object, *part, words)?;
            put_parts(alloc, object, parts, part.after(words))
        }
    }
}

// Adds the member of a part.
fn put_part(
    alloc: Global,
    object: &mut Map<String, Value>,
    part: Part,
    words: &[&[u8]],
) -> Result<(), AllocError>
    ensures { OnOk result (members_view object.new.entries
        ≡ with_part (part_shown part) (map (λ word. word.now) words.now)
        (members_view object.old.entries)) }
{
    let first = first_of(words);
    match part {
        Part::Word(_) => Ok(()),
        Part::Name(key) => serde_json::put(object, alloc, key, name_value(alloc, first)?),
        Part::Number(key) => serde_json::put(object, alloc, key, number_value(first)),
        Part::Text(key) => serde_json::put(object, alloc, key, text_value(alloc, first)?),
        Part::Numbers(key) => serde_json::put(object, alloc, key, numbers_value(alloc, words)?),
    }
}

fn first_of<'a>(words: &[&'a [u8]]) -> &'a [u8]
    ensures { result.now ≡ first_of (map (λ word. word.now) words.now) }
{
    match words {
        [] => &[],
        [first, ..] => *first,
    }
}
