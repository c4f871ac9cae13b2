//! Laws of what a line says as JSON, as contracts of functions that do nothing.

ghost use Rattle.std.specs.Prelude.{◌≡◌, ◌≢◌, ◌++◌, ◌∷◌, ℕ, List, Some, codes, true, All};
ghost use Rattle.std.specs.Str.{is_utf8, IsUtf8};
ghost use Rattle.serde_json.specs.Data.{string};
ghost use Rattle.serde_json.specs.Find.{get};
ghost use Rattle.tokens.specs.Escapes.{escaped_text};
ghost use Rattle.json_lines.specs.Json.{line_data, number_in_word};
ghost use Rattle.json_lines.specs.Lines.{json_text, begun_after};

/// A reader of JSON has an object's name as it is, whatever characters it has, though the line has
/// it escaped. It has the version as a number, and the bag.
pub fn names_law()
    ensures object { (name version bag : List ℕ) → IsUtf8 name → All (λ b. b ≢ 32) version
        → All (λ b. b ≢ 32) bag → get (codes "object") (line_data (codes "known "
        ++ (escaped_text name ++ (32 ∷ (version ++ 32 ∷ bag))))) ≡ Some (string name) }
    ensures version { (name version bag : List ℕ) → All (λ b. b ≢ 32) version
        → All (λ b. b ≢ 32) bag → get (codes "version") (line_data (codes "known "
        ++ (escaped_text name ++ (32 ∷ (version ++ 32 ∷ bag))))) ≡ Some (number_in_word version) }
    ensures bag { (name version bag : List ℕ) → is_utf8 bag ≡ true → All (λ b. b ≢ 32) version
        → All (λ b. b ≢ 32) bag → get (codes "bag") (line_data (codes "known "
        ++ (escaped_text name ++ (32 ∷ (version ++ 32 ∷ bag))))) ≡ Some (string bag) }
{}

/// Lines may be printed in pieces: what is written for them together is what is written for one
/// piece after the other.
pub fn pieces_law()
    ensures text { (begun first second : List ℕ) → json_text begun (first ++ second)
        ≡ json_text begun first ++ json_text (begun_after begun first) second }
    ensures begun { (begun first second : List ℕ) → begun_after begun (first ++ second)
        ≡ begun_after (begun_after begun first) second }
{}
