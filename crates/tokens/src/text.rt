ghost use Rattle.std.specs.Prelude.{◌≡◌, string_bytes, IfOk, option_map};
ghost use Rattle.tokens.specs.Words.{text_of};

use percent_encoding::percent_decode;
use std::alloc::{AllocError, Global};

/// A word with its escapes undone, if that is UTF-8. It fails only if memory runs out.
pub fn parse_text(alloc: Global, word: &[u8]) -> Result<Option<String>, AllocError>
    ensures { IfOk result (λ text. option_map string_bytes text ≡ text_of word.now) }
{
    let mut bytes = Vec::new(alloc);
    percent_decode(word).append_to(&mut bytes)?;
    Ok(String::from_utf8(bytes).ok())
}
