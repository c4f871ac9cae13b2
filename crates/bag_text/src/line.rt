ghost use Rattle.std.specs.Prelude.{◌≡◌, ◌≢◌, ◌<◌, List, [], ◌∷◌, map, length};
ghost use Rattle.std.specs.Prelude.{IfOk, IsTrue, IsOkUnless};
ghost use Rattle.std.specs.List.{position};
ghost use Rattle.bag_text.specs.Lines.{is_line_end, lines_of};
ghost use Rattle.bag_text.specs.inner.Starts.{starts_with_line_end};

use crate::fault::TextFault;
use std::alloc::Global;

/// The lines of a text, in order and without their ends, which are LF, CR or CR LF (RFC 8493, 2.3).
/// Bytes after the last end are a line too. The answer is never `Malformed`, and `Memory` only if
/// there is no room for the lines.
pub fn lines(alloc: Global, text: &[u8]) -> Result<Vec<&[u8]>, TextFault>
    ensures lines { IfOk result (λ found. map (λ line. line.now) found.items ≡ lines_of text.now) }
    ensures err { IsOkUnless result TextFault.Memory }
{
    let mut found = Vec::new(alloc);
    let mut rest = text;
    while !rest.is_empty() {
        let (line, after) = first_line(rest);
        found.push(line)?;
        rest = after;
    }
    Ok(found)
}

/// The first line of a text that isn't empty, without its end, and what comes after that end.
pub(crate) fn first_line(text: &[u8]) -> (&[u8], &[u8])
    requires { text.now ≢ [] }
    ensures lines { lines_of text.now ≡ result.0.now ∷ lines_of result.1.now }
    ensures shorter { length result.1.now < length text.now }
{
    match first_end(text) {
        Some(line_len) => {
            let (line, ended) = text.split_at(line_len);
            (line, after_end(ended))
        }
        None => (text, &[]),
    }
}

fn first_end(text: &[u8]) -> Option<usize>
    ensures { result ≡ position is_line_end text.now }
{
    text.iter().position(|byte| matches!(*byte, b'\n' | b'\r'))
}

fn after_end(ended: &[u8]) -> &[u8]
    requires { IsTrue (starts_with_line_end ended.now) }
    ensures lines { lines_of ended.now ≡ [] ∷ lines_of result.now }
    ensures shorter { length result.now < length ended.now }
{
    match ended.strip_prefix(b"\r\n") {
        Some(rest) => rest,
        None => &ended[1..],
    }
}
