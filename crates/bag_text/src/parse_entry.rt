ghost use Rattle.std.specs.Prelude.{◌≡◌, IfOk};
ghost use Rattle.std.specs.Option.{option_copied};
ghost use Rattle.bag_text.specs.Readers.{written_path, file_in};

use crate::algorithm::Algorithm;
use crate::blank::after_gap;
use crate::entry::Entry;
use crate::hex_digest::HexDigest;
use crate::path::path_in;
use std::alloc::{AllocError, Global};

/// The entry that a line is, if it is one: a digest in hex, spaces or tabs, and a path.
#[tactic(auto, unfolding(crate::specs::Readers::file_in))]
pub(crate) fn entry_in(
    alloc: Global,
    algorithm: Algorithm,
    line: &[u8],
) -> Result<Option<Entry<'_>>, AllocError>
    ensures { IfOk result (λ found. found ≡ file_in algorithm line.now) }
{
    let Some((digits, rest)) = line.split_at_checked(algorithm.hex_len()) else {
        return Ok(None);
    };
    let Some(digest) = HexDigest::of(digits) else {
        return Ok(None);
    };
    let Some(written) = written_path(rest) else {
        return Ok(None);
    };
    let Some(path) = path_in(alloc, written)? else {
        return Ok(None);
    };
    Ok(Some(Entry::new(digest, path)))
}

fn written_path(rest: &[u8]) -> Option<&[u8]>
    ensures { option_copied result ≡ written_path rest.now }
{
    let written = after_gap(rest)?;
    if written.is_empty() {
        None
    } else {
        Some(written)
    }
}
