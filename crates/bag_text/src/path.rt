ghost use Rattle.std.specs.Prelude.{◌≡◌, ◌∷◌, ◌<◌, [], length, IfOk, IfSome, MatchOption};
ghost use Rattle.std.specs.Option.{option_map};
ghost use Rattle.std.specs.String.{string_bytes};
ghost use Rattle.bag_text.specs.Paths.{unescaped, without_star, without_dot_slash};
ghost use Rattle.bag_text.specs.Readers.{path_in};
ghost use Rattle.bag_text.specs.inner.Starts.{escape_at};

use std::alloc::{AllocError, Global};

/// The path that a manifest writes so, if it is UTF-8.
pub(crate) fn path_in(alloc: Global, written: &[u8]) -> Result<Option<String>, AllocError>
    ensures { IfOk result (λ found. option_map string_bytes found ≡ path_in written.now) }
{
    let path = unescaped(alloc, without_dot_slash(without_star(written)))?;
    match String::from_utf8(path) {
        Ok(path) => Ok(Some(path)),
        Err(_) => Ok(None),
    }
}

// Some tools put a star before the path of a file that they read as binary.
fn without_star(written: &[u8]) -> &[u8]
    ensures { result.now ≡ without_star written.now }
{
    match written {
        [b'*', rest @ ..] => rest,
        _ => written,
    }
}

fn without_dot_slash(written: &[u8]) -> &[u8]
    ensures { result.now ≡ without_dot_slash written.now }
{
    match written {
        [b'.', b'/', rest @ ..] => rest,
        _ => written,
    }
}

fn unescaped(alloc: Global, written: &[u8]) -> Result<Vec<u8>, AllocError>
    ensures { IfOk result (λ path. path.items ≡ unescaped written.now) }
{
    let mut path = Vec::with_capacity(alloc, written.len())?;
    let mut rest = written;
    while let Some((byte, after)) = next_byte(rest) {
        path.push(byte)?;
        rest = after;
    }
    Ok(path)
}

/// The first byte that the text stands for, and the text after it.
fn next_byte(text: &[u8]) -> Option<(u8, &[u8])>
    ensures value { MatchOption result (text.now ≡ [])
        (λ found. unescaped text.now ≡ found.0 ∷ unescaped found.1.now) }
    ensures shorter { IfSome result (λ found. length found.1.now < length text.now) }
{
    let (first, rest) = text.split_first()?;
    match escape_in(text) {
        Some(byte) => Some((byte, &text[3..])),
        None => Some((*first, rest)),
    }
}

/// What the escape at the start stands for, if there is one: LF, CR or the percent sign.
fn escape_in(text: &[u8]) -> Option<u8>
    ensures { result ≡ escape_at text.now }
{
    match text {
        [b'%', b'0', b'A' | b'a', ..] => Some(b'\n'),
        [b'%', b'0', b'D' | b'd', ..] => Some(b'\r'),
        [b'%', b'2', b'5', ..] => Some(b'%'),
        _ => None,
    }
}
