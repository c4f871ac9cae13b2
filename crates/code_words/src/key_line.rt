//! Lines of a key file, and digits that may be a key's.

ghost use Rattle.std.specs.Prelude.{◌≡◌, ◌<◌, ◌≤◌, ◌∷◌, [], length, IfSome, is_some, slice_get};
ghost use Rattle.std.specs.Prelude.{map};
ghost use Rattle.std.specs.Char.{is_ascii_hexdigit};
ghost use Rattle.std.specs.List.{prefix_len};
ghost use Rattle.std.specs.Option.{option_copied};
ghost use Rattle.code_words.specs.Keys.{hidden_digits, pieces_of, is_key_name, key_name};
ghost use Rattle.code_words.specs.Keys.{has_key_line};

/// So many digits in a row aren't shown: half of those of a key.
const HIDDEN: usize = 64;

/// Where the first digits of hex begin and end of which so many stand in a row that they may be a
/// key's, if there are such.
pub(crate) fn hidden_digits(bytes: &[u8]) -> Option<(usize, usize)>
    ensures value { result ≡ hidden_digits bytes.now }
    ensures within { IfSome result (λ at. (at.0 < at.1) × (at.1 ≤ length bytes.now)) }
{
    let mut begin = 0;
    while begin < bytes.len() {
        let count = digits_before(&bytes[begin..]);
        if count >= HIDDEN {
            return Some((begin, begin + count));
        }
        begin += count + 1;
    }
    None
}

// How many digits of hex stand before anything else.
fn digits_before(bytes: &[u8]) -> usize
    ensures value { result ≡ prefix_len is_ascii_hexdigit bytes.now }
    ensures within { result ≤ length bytes.now }
{
    bytes
        .iter()
        .take_while(|byte| byte.is_ascii_hexdigit())
        .count()
}

/// The name that a line of a key file begins with, if these seem to be the words of such a line,
/// whatever stands before, between and within them that is neither a letter nor a digit: blanks, a
/// byte order mark, a quote, a sign of equality.
#[tactic(auto, unfolding(crate::specs::Keys::key_name))]
pub(crate) fn key_name<'a>(words: &[&'a [u8]]) -> Option<&'a [u8]>
    ensures { option_copied result ≡ key_name (map (λ word. word.now) words.now) }
{
    match piece_of(words, 0) {
        Some(name) if is_key_name(name) && has_second(words) => Some(name),
        _ => None,
    }
}

fn has_second(words: &[&[u8]]) -> bool
    ensures { result ≡ is_some (slice_get (pieces_of (map (λ word. word.now) words.now)) 1) }
{
    match piece_of(words, 1) {
        Some(_) => true,
        None => false,
    }
}

// The piece of words of this number, counted from 0, between what is neither a letter nor a digit.
fn piece_of<'a>(words: &[&'a [u8]], number: usize) -> Option<&'a [u8]>
    ensures { option_copied result
        ≡ slice_get (pieces_of (map (λ word. word.now) words.now)) number }
{
    words
        .iter()
        .flat_map(|word| word.split(|byte| !byte.is_ascii_alphanumeric()))
        .filter(|piece| !piece.is_empty())
        .nth(number)
}

// Whether a line of a key file begins so, in either letter case.
fn is_key_name(name: &[u8]) -> bool
    ensures { result ≡ is_key_name name.now }
{
    name.eq_ignore_ascii_case(b"sites") || name.eq_ignore_ascii_case(b"clients")
}

/// Whether one line of a text seems to be that of a key file.
pub(crate) fn has_key_line(text: &[u8]) -> bool
    ensures { result ≡ has_key_line text.now }
{
    text.split(|byte| *byte == b'\n').any(|line| is_named(line))
}

// Whether a line seems to be that of a key file.
fn is_named(line: &[u8]) -> bool
    ensures { result ≡ is_some (key_name (line.now ∷ [])) }
{
    match key_name(&[line]) {
        Some(_) => true,
        None => false,
    }
}
