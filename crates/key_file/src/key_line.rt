//! A line of a key file.

ghost use Rattle.std.specs.Prelude.{◌≡◌, map, length, IfOk, option_map};
ghost use Rattle.std.specs.Char.{is_ascii_uppercase};
ghost use Rattle.std.specs.List.{list_any};
ghost use Rattle.tokens.specs.Words.{words_of};
ghost use Rattle.key_file.specs.Files.{same_kind, next_key, of_kind};
ghost use Rattle.key_file.specs.Lines.{key_in, kind_in, line_in};

use std::alloc::{AllocError, Global};
use tokens::split_words;

/// The bytes of a key: a block of SHA-256.
pub const KEY_BYTES: usize = 64;

/// The most keys of a kind.
const MOST_KEYS: usize = 2;

/// Which datagrams a key is for.
#[derive(Clone, Copy, Debug)]
pub(crate) enum KeyKind {
    /// Messages between sites.
    Sites,
    /// What clients ask, and are answered.
    Clients,
}

impl KeyKind {
    /// Whether it is this one.
    pub(crate) fn is(self, kind: KeyKind) -> bool
        ensures { result ≡ same_kind self kind }
    {
        match (self, kind) {
            (KeyKind::Sites, KeyKind::Sites) | (KeyKind::Clients, KeyKind::Clients) => true,
            _ => false,
        }
    }
}

/// What a line says: a key, and which datagrams it is for.
#[derive(Clone, Copy)]
pub(crate) struct KeyLine {
    pub(crate) kind: KeyKind,
    pub(crate) key: [u8; KEY_BYTES],
}

/// The next key, after these, if the line has one.
pub(crate) fn next_key(
    alloc: Global,
    line: &[u8],
    before: &[KeyLine],
) -> Result<Option<KeyLine>, AllocError>
    ensures { IfOk result (λ key. key ≡ next_key before.now (words_of line.now)) }
{
    let words = split_words(alloc, line)?;
    Ok(parse_next(&words, before))
}

// The next key, after these, by the words of its line.
#[tactic(auto, unfolding(crate::specs::Files::next_key))]
fn parse_next(words: &[&[u8]], before: &[KeyLine]) -> Option<KeyLine>
    ensures { result ≡ next_key before.now (map (λ word. word.now) words.now) }
{
    let line = parse_line(words)?;
    if count_of(line.kind, before) < MOST_KEYS {
        Some(line)
    } else {
        None
    }
}

/// How many of these keys are of a kind.
pub(crate) fn count_of(kind: KeyKind, keys: &[KeyLine]) -> usize
    ensures { result ≡ length (of_kind kind keys.now) }
{
    keys.iter().filter(|it| it.kind.is(kind)).count()
}

// What the words `sites HEX` or `clients HEX` say.
#[tactic(auto, unfolding(crate::specs::Lines::line_in))]
fn parse_line(words: &[&[u8]]) -> Option<KeyLine>
    ensures { result ≡ line_in (map (λ word. word.now) words.now) }
{
    let [name, digits] = words else {
        return None;
    };
    let kind = parse_kind(name)?;
    let key = parse_key(digits)?;
    Some(KeyLine { kind, key })
}

#[tactic(auto, unfolding(crate::specs::Lines::kind_in))]
fn parse_kind(name: &[u8]) -> Option<KeyKind>
    ensures { result ≡ kind_in name.now }
{
    if name == b"sites".as_slice() {
        return Some(KeyKind::Sites);
    }
    if name == b"clients".as_slice() {
        return Some(KeyKind::Clients);
    }
    None
}

#[tactic(auto, unfolding(crate::specs::Lines::key_in))]
fn parse_key(digits: &[u8]) -> Option<[u8; KEY_BYTES]>
    ensures { result ≡ key_in digits.now }
{
    if has_upper_case(digits) {
        return None;
    }
    let mut key = [0; KEY_BYTES];
    match hex::decode_to_slice(digits, &mut key) {
        Ok(()) => Some(key),
        Err(_) => None,
    }
}

// Whether one of these is a letter of upper case.
fn has_upper_case(digits: &[u8]) -> bool
    ensures { result ≡ list_any is_ascii_uppercase digits.now }
{
    digits.iter().any(|digit| digit.is_ascii_uppercase())
}
