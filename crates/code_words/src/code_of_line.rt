//! Whether a line has a code, and the number in it.

ghost use Rattle.std.specs.Prelude.{◌≡◌, ◌≤◌};
ghost use Rattle.std.specs.Option.{option_copied};
ghost use Rattle.code_words.specs.Lines.{number_in, ends, stem_of, is_one_word_after, has_code};

/// The number of one or two digits, or 0.
#[tactic(auto, unfolding(crate::specs::Lines::number_in))]
pub(crate) fn number_in(word: &str) -> u8
    ensures { result ≡ number_in word.now }
{
    match word.as_bytes() {
        [digit @ b'0'..=b'9'] => digit - b'0',
        [ten @ b'0'..=b'9', digit @ b'0'..=b'9'] => 10 * (ten - b'0') + (digit - b'0'),
        _ => 0,
    }
}

/// Whether the text ends so.
pub(crate) fn ends(text: &str, end: &str) -> bool
    ensures { result ≡ ends text.now end.now }
{
    text.as_bytes().ends_with(end.as_bytes())
}

/// Whether the line has this code: it is the code, or begins as it does, up to what is filled in.
pub(crate) fn has_code(line: &str, code: &str) -> bool
    ensures { result ≡ has_code line.now code.now }
{
    match stem_of(code.as_bytes()) {
        Some(stem) => is_one_word_after(stem, line.as_bytes()),
        None => line == code,
    }
}

// What stands before the last word of a code, if something else is printed in its place.
#[tactic(auto, unfolding(crate::specs::Lines::stem_of))]
fn stem_of(code: &[u8]) -> Option<&[u8]>
    ensures { option_copied result ≡ stem_of code.now }
{
    if code.ends_with(b" N") || code.ends_with(b" S") {
        Some(&code[..code.len() - 1])
    } else if code.ends_with(b" BYTES") {
        Some(&code[..code.len() - 5])
    } else if code.ends_with(b" OFFSET") {
        Some(&code[..code.len() - 6])
    } else {
        None
    }
}

// Whether the line is this, and one word after it.
#[tactic(auto, unfolding(crate::specs::Lines::is_one_word_after))]
fn is_one_word_after(stem: &[u8], line: &[u8]) -> bool
    ensures { result ≡ is_one_word_after stem.now line.now }
{
    line.starts_with(stem) && !line[stem.len()..].contains(&b' ')
}
