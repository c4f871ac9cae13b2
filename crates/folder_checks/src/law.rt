//! A law of what is said of a folder in JSON, as the contract of a function that does nothing.

ghost use Rattle.std.specs.Prelude.{◌≡◌, ℕ, List, Option, Some, codes, true};
ghost use Rattle.std.specs.Str.{is_utf8};
ghost use Rattle.serde_json.specs.Data.{string};
ghost use Rattle.serde_json.specs.Find.{get};
ghost use Rattle.tokens.specs.Escapes.{escaped_text};
ghost use Rattle.folder_checks.specs.declared.measure.Measure.{Measure};
ghost use Rattle.folder_checks.specs.declared.verdict.Verdict.{Verdict};
ghost use Rattle.folder_checks.specs.Json.{folder_data};

/// A reader of JSON has the name of a folder from its line: the name as it is, whatever characters
/// it has, and the name escaped.
pub fn name_law()
    ensures folder { (name : List ℕ) (verdict : Verdict) (files : Option ℕ) (measure : Measure)
        (lines words : Option (List ℕ)) → is_utf8 name ≡ true
        → get (codes "folder") (folder_data name verdict files measure lines words)
        ≡ Some (string name) }
    ensures escaped { (name : List ℕ) (verdict : Verdict) (files : Option ℕ) (measure : Measure)
        (lines words : Option (List ℕ))
        → get (codes "escaped") (folder_data name verdict files measure lines words)
        ≡ Some (string (escaped_text name)) }
{}
