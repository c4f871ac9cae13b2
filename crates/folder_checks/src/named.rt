//! Texts with the name of a folder before each line.

ghost use Rattle.std.specs.Prelude.{◌≡◌, true, IfOk};
ghost use Rattle.tokens.specs.Escapes.{escaped_text};
ghost use Rattle.tokens.specs.Pushes.{Pushes};
ghost use Rattle.folder_checks.specs.Reports.{named_from};

use percent_encoding::{AsciiSet, CONTROLS, ascii_set, percent_encode};
use std::alloc::{AllocError, Global};
use tokens::push_escaped;

// What `push_escaped` escapes below 80. Bytes from there on are escaped whatever the set has.
const ESCAPED: AsciiSet = ascii_set!(CONTROLS.add(b' ').add(b'%'));

/// The text with this path, escaped, and a space before each line.
pub(crate) fn named(alloc: Global, path: &str, text: &str) -> Result<Vec<u8>, AllocError>
    ensures { IfOk result
        (λ bytes. bytes.items ≡ named_from (escaped_text path.now) true text.now) }
{
    let mut name = String::new(alloc);
    push_escaped(&mut name, path)?;
    with_name(alloc, name.as_bytes(), text.as_bytes())
}

/// The same with a name of any bytes, each of them escaped as in a path.
pub(crate) fn named_bytes(alloc: Global, name: &[u8], text: &str) -> Result<Vec<u8>, AllocError>
    ensures { IfOk result
        (λ bytes. bytes.items ≡ named_from (escaped_text name.now) true text.now) }
{
    let mut word = String::new(alloc);
    push_escaped_bytes(&mut word, name)?;
    with_name(alloc, word.as_bytes(), text.as_bytes())
}

/// Appends a name of any bytes, escaped as `push_escaped` does.
pub fn push_escaped_bytes(text: &mut String, name: &[u8]) -> Result<(), AllocError>
    ensures { Pushes result text.old text.new (escaped_text name.now) }
{
    percent_encode(name, ESCAPED).append_to(text)
}

// The text with this name and a space before each line.
fn with_name(alloc: Global, name: &[u8], text: &[u8]) -> Result<Vec<u8>, AllocError>
    ensures { IfOk result (λ bytes. bytes.items ≡ named_from name.now true text.now) }
{
    let mut bytes = Vec::new(alloc);
    let mut begins = true;
    for byte in text {
        if begins {
            bytes.extend_from_slice(name)?;
            bytes.push(b' ')?;
        }
        bytes.push(*byte)?;
        begins = *byte == b'\n';
    }
    Ok(bytes)
}
