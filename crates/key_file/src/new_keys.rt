ghost use Rattle.std.specs.Prelude.{◌≡◌, IfOk, string_bytes};
ghost use Rattle.tokens.specs.Pushes.{Pushes};
ghost use Rattle.key_file.specs.Texts.{name_of, text_of_key, text_of};

use crate::key_line::{KEY_BYTES, KeyKind};
use std::alloc::{AllocError, Global};

/// The text of a new key file, with a key of each kind.
pub fn new_key_text(
    alloc: Global,
    sites: &[u8; KEY_BYTES],
    clients: &[u8; KEY_BYTES],
) -> Result<String, AllocError>
    ensures { IfOk result (λ text. string_bytes text ≡ text_of sites.now clients.now) }
{
    let mut text = String::new(alloc);
    push_key(alloc, &mut text, KeyKind::Sites, sites)?;
    push_key(alloc, &mut text, KeyKind::Clients, clients)?;
    Ok(text)
}

// Appends the line of a key.
fn push_key(
    alloc: Global,
    text: &mut String,
    kind: KeyKind,
    key: &[u8; KEY_BYTES],
) -> Result<(), AllocError>
    ensures { Pushes result text.old text.new (text_of_key kind key.now) }
{
    let digits = hex::encode(alloc, *key)?;
    text.push_str(name_of(kind))?;
    text.push_str(digits.as_str())?;
    text.push('\n')
}

fn name_of(kind: KeyKind) -> &'static str
    ensures { result.now ≡ name_of kind }
{
    match kind {
        KeyKind::Sites => "sites ",
        KeyKind::Clients => "clients ",
    }
}
