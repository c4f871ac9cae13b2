ghost use Rattle.std.specs.Prelude.{◌≡◌, OnErr, string_bytes};
ghost use Rattle.tokens.specs.Escapes.{escaped_text};
ghost use Rattle.tokens.specs.Pushes.{Pushes};

use percent_encoding::{AsciiSet, CONTROLS, ascii_set, utf8_percent_encode};
use std::alloc::AllocError;

// The ASCII bytes that are escaped: the controls 00 to 1F and 7F, the space and the percent sign.
// Bytes above 7F are escaped whatever the set has.
const ESCAPED: AsciiSet = ascii_set!(CONTROLS.add(b' ').add(b'%'));

/// Appends a name or a path as one word of a line, in a schedule and in what a run prints: bytes 00
/// to 20, 25, and 7F and all above are percent-encoded, with capital hex digits. If memory runs
/// out, it leaves the text as it was.
pub fn push_escaped(text: &mut String, name: &str) -> Result<(), AllocError>
    ensures ok { Pushes result text.old text.new (escaped_text name.now) }
    ensures err { OnErr result (string_bytes text.new ≡ string_bytes text.old) }
{
    utf8_percent_encode(name, ESCAPED).append_to(text)
}
