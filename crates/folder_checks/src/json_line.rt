//! One check of a folder, as a line of JSON.

ghost use Rattle.std.specs.Prelude.{◌≡◌, ◌++◌, ℕ, List, [], ◌∷◌, Option, codes, option_map};
ghost use Rattle.std.specs.Prelude.{option_copied, IfOk, IfSome, OnOk, string_bytes};
ghost use Rattle.serde_json.specs.Data.{string, put as with_member};
ghost use Rattle.serde_json.specs.View.{view, members_view};
ghost use Rattle.tokens.specs.Escapes.{escaped_text};
ghost use Rattle.folder_checks.specs.Forms.{IsJson};
ghost use Rattle.folder_checks.specs.Json.{IsLineOf, folder_data};
ghost use Rattle.folder_checks.specs.Verdicts.{outcome_of_verdict};
ghost use Rattle.folder_checks.specs.Json.{text_data, code_data, identity_data, verdict_word};
ghost use Rattle.folder_checks.specs.Json.{count_data, places_data, words_data};

use crate::found::{Found, found_by_name};
use crate::json_values::{
    code_value, count_value, escaped_value, identity_value, places_value, text_value,
    verdict_value, words_of, words_value,
};
use crate::measure::{Measure, Measured};
use crate::report::Report;
use crate::several_folders::NamedAnswer;
use crate::verdict::Verdict;
use bag_folders::Folders;
use serde_json::{Map, Value};
use std::alloc::{AllocError, Global};

/// The line for the folder of this name, and the status of its check.
pub(crate) fn json_answer<F: Folders + Measured>(
    alloc: Global,
    folders: &mut F,
    name: &[u8],
    report: Report,
) -> Result<NamedAnswer, AllocError>
    ensures ok { IfOk result (λ answer. IfSome (F.gives folders.old) (λ gives.
        IsJson report (F.fails_at folders.old) gives name.now
        (record { status = answer.status; text = answer.text.items }))) }
    ensures kept { F.gives folders.new ≡ F.gives folders.old }
    ensures place { F.fails_at folders.new ≡ F.fails_at folders.old }
{
    let found = found_by_name(alloc, folders, name, report)?;
    let line = json_line(alloc, name, &found)?;
    Ok(NamedAnswer {
        status: status_of(found.verdict),
        text: line.into_bytes(),
    })
}

// The status of a check.
fn status_of(verdict: Verdict) -> u8
    ensures { result ≡ (outcome_of_verdict verdict).status }
{
    match verdict {
        Verdict::Valid(_) | Verdict::Complete(_) => 0,
        Verdict::Invalid(_) | Verdict::Unread(_) => 1,
    }
}

// The line of what was found.
fn json_line(alloc: Global, name: &[u8], found: &Found) -> Result<String, AllocError>
    ensures { IfOk result (λ line. (words : Option (List ℕ)) × IsLineOf
        (folder_data name.now found.now.verdict found.now.files found.now.measure
        (option_map string_bytes found.now.lines) words) (string_bytes line)) }
{
    let value = folder_value(alloc, name, found, words_of(found.verdict))?;
    let text = value.to_string(alloc)?;
    with_end(text)
}

// A text with LF after it.
fn with_end(text: String) -> Result<String, AllocError>
    ensures { IfOk result (λ line. string_bytes line ≡ string_bytes text ++ 10 ∷ []) }
{
    let mut line = text;
    line.push('\n')?;
    Ok(line)
}

// What is said of the folder of this name.
fn folder_value(
    alloc: Global,
    name: &[u8],
    found: &Found,
    words: Option<&str>,
) -> Result<Value, AllocError>
    ensures { IfOk result (λ value. view value ≡ folder_data name.now found.now.verdict
        found.now.files found.now.measure (option_map string_bytes found.now.lines)
        (option_copied words.entry)) }
{
    let mut map = Map::new(alloc);
    put_name(alloc, &mut map, name)?;
    put_verdict(alloc, &mut map, found.verdict, words)?;
    put_counts(alloc, &mut map, found.files, found.measure)?;
    serde_json::put(
        &mut map,
        alloc,
        "places",
        places_value(alloc, &found.lines)?,
    )?;
    Ok(Value::Object(map))
}

// Adds the folder's name, as it is and as it is printed in lines.
fn put_name(alloc: Global, map: &mut Map<String, Value>, name: &[u8]) -> Result<(), AllocError>
    ensures { OnOk result (members_view map.new.entries
        ≡ with_member (codes "escaped") (string (escaped_text name.now))
        (with_member (codes "folder") (text_data name.now) (members_view map.old.entries))) }
{
    serde_json::put(map, alloc, "folder", text_value(alloc, name)?)?;
    serde_json::put(map, alloc, "escaped", escaped_value(alloc, name)?)
}

// Adds the verdict, its number, what that says, and the bag's identity.
fn put_verdict(
    alloc: Global,
    map: &mut Map<String, Value>,
    verdict: Verdict,
    words: Option<&str>,
) -> Result<(), AllocError>
    ensures { OnOk result (members_view map.new.entries
        ≡ with_member (codes "identity") (identity_data verdict)
        (with_member (codes "words") (words_data (option_copied words.entry))
        (with_member (codes "code") (code_data verdict)
        (with_member (codes "verdict") (string (verdict_word verdict))
        (members_view map.old.entries))))) }
{
    serde_json::put(map, alloc, "verdict", verdict_value(alloc, verdict)?)?;
    serde_json::put(map, alloc, "code", code_value(verdict))?;
    serde_json::put(map, alloc, "words", words_value(alloc, words)?)?;
    serde_json::put(map, alloc, "identity", identity_value(alloc, verdict)?)
}

// Adds how many files and bytes there are, and how long it took to read them.
fn put_counts(
    alloc: Global,
    map: &mut Map<String, Value>,
    files: Option<u64>,
    measure: Measure,
) -> Result<(), AllocError>
    ensures { OnOk result (members_view map.new.entries
        ≡ with_member (codes "seconds") (count_data measure.seconds)
        (with_member (codes "bytes") (count_data measure.bytes)
        (with_member (codes "files") (count_data files) (members_view map.old.entries)))) }
{
    serde_json::put(map, alloc, "files", count_value(files))?;
    serde_json::put(map, alloc, "bytes", count_value(measure.bytes))?;
    serde_json::put(map, alloc, "seconds", count_value(measure.seconds))
}
