//! The kinds of words that commands take.

ghost use Rattle.std.specs.Prelude.{◌≡◌, IfOk, is_some};
ghost use Rattle.tokens.specs.Words.{bytes_of};
ghost use Rattle.code_words.specs.declared.kind.Kind.TheVariants.{Weight};
ghost use Rattle.code_words.specs.Kinds.{name_of, range_of, takes, text_length};

use hex::FromHexError;
use std::alloc::{AllocError, Global};
use tokens::{parse_number, parse_text};

/// The longest name of an object, in bytes.
const LONGEST_OBJECT: usize = 200;

/// What a word stands for.
#[derive(Clone, Copy, Debug, PartialEq, Eq)]
pub(crate) enum Kind {
    /// The number of a federation.
    Federation,
    /// How many sites it has.
    Count,
    /// The weight of one of them.
    Weight,
    Site,
    Tree,
    Object,
    Version,
    Number,
    Path,
    Bytes,
    Port,
}

impl Kind {
    /// What it is, with its article.
    pub(crate) fn name(self) -> &'static str
        ensures { result.now ≡ name_of self }
    {
        match self {
            Kind::Federation => "a federation's number",
            Kind::Count => "a number of sites",
            Kind::Weight => "a weight",
            Kind::Site => "a site",
            Kind::Tree => "a tree",
            Kind::Object => "an object",
            Kind::Version => "a version",
            Kind::Number => "a number",
            Kind::Path => "a path",
            Kind::Bytes => "hex",
            Kind::Port => "a port",
        }
    }

    /// Which words there are for it.
    pub(crate) fn range(self) -> &'static str
        ensures { result.now ≡ range_of self }
    {
        match self {
            Kind::Federation => "0 to 18446744073709551615",
            Kind::Count => "1 to 63",
            Kind::Weight => "1 to 255",
            Kind::Site => "0 to 255",
            Kind::Tree | Kind::Version => "1 to 4294967295",
            Kind::Object => "1 to 200 bytes of UTF-8",
            Kind::Number => "0 to 4294967295",
            Kind::Path => "UTF-8",
            Kind::Bytes => "two digits for each byte, or - for none",
            Kind::Port => "1 to 65535",
        }
    }

    /// Whether a word is one of these.
    pub(crate) fn takes(self, alloc: Global, word: &[u8]) -> Result<bool, AllocError>
        ensures { IfOk result (λ is. is ≡ takes self word.now) }
    {
        match self {
            Kind::Object => {
                let length = text_length(alloc, word)?;
                Ok(0 < length && length <= LONGEST_OBJECT)
            }
            Kind::Path => Ok(0 < text_length(alloc, word)?),
            Kind::Bytes => is_hex(alloc, word),
            Kind::Federation => Ok(parse_number(0, u64::MAX, word).is_some()),
            Kind::Count => Ok(parse_number(1, 63, word).is_some()),
            Kind::Weight => Ok(is_weight(word)),
            Kind::Site => Ok(parse_number(0, 255, word).is_some()),
            Kind::Tree | Kind::Version => Ok(parse_number(1, 4294967295, word).is_some()),
            Kind::Number => Ok(parse_number(0, 4294967295, word).is_some()),
            Kind::Port => Ok(parse_number(1, 65535, word).is_some()),
        }
    }
}

/// Whether a word is the weight of a site.
pub(crate) fn is_weight(word: &[u8]) -> bool
    ensures { result ≡ takes Weight word.now }
{
    parse_number(1, 255, word).is_some()
}

// How many bytes of text a word stands for; none, if it stands for no text.
fn text_length(alloc: Global, word: &[u8]) -> Result<usize, AllocError>
    ensures { IfOk result (λ n. n ≡ text_length word.now) }
{
    match parse_text(alloc, word)? {
        Some(text) => Ok(text.len()),
        None => Ok(0),
    }
}

#[tactic(auto, unfolding(tokens::specs::Words::bytes_of))]
fn is_hex(alloc: Global, word: &[u8]) -> Result<bool, AllocError>
    ensures { IfOk result (λ is. is ≡ is_some (bytes_of word.now)) }
{
    if word == b"-".as_slice() {
        return Ok(true);
    }
    match hex::decode(alloc, word) {
        Ok(_) => Ok(true),
        Err(FromHexError::OutOfMemory) => Err(AllocError),
        Err(_) => Ok(false),
    }
}
