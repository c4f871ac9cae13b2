//! Bytes that begin with no whole header.

ghost use Rattle.std.specs.Prelude.{◌≡◌, ◌↔◌, IsTrue, drop, length};
ghost use Rattle.ledger.specs.Headless.{AreFirst, AreCut, BeginsHeader, EndsHeadless};

use crate::ending::Ending;
use fed_types::{MOST_MEMBERS, SiteNo};
use records::{FRONT, MAGIC, OLD_MAGIC};

// Whether the first four bytes, or all of fewer, are those of this magic.
fn are_first(magic: &[u8; 4], bytes: &[u8]) -> bool
    ensures { IsTrue result ↔ AreFirst magic.now bytes.now }
{
    let count = bytes.len().min(4);
    bytes[..count] == magic[..count]
}

// Whether the bytes are the count of a federation's members and fewer weights, or nothing.
fn are_cut(bytes: &[u8]) -> bool
    ensures { IsTrue result ↔ AreCut bytes.now }
{
    match bytes {
        [] => true,
        [count, weights @ ..] => {
            *count <= MOST_MEMBERS && weights.len() < usize::from(*count) && !weights.contains(&0)
        }
    }
}

// Whether the bytes are those that some header begins with.
fn begins_header(bytes: &[u8]) -> bool
    ensures { IsTrue result ↔ BeginsHeader bytes.now }
{
    if bytes.len() < FRONT {
        return are_first(&OLD_MAGIC, bytes) || are_first(&MAGIC, bytes);
    }
    are_first(&MAGIC, bytes) && SiteNo::new(bytes[12]).is_ok() && are_cut(&bytes[FRONT..])
}

/// How bytes end that begin with no whole header: they are the first bytes of a header, or damaged.
pub fn headless_ending(bytes: &[u8]) -> Ending
    ensures { EndsHeadless bytes.now result }
{
    if bytes.is_empty() {
        Ending::Whole
    } else if begins_header(bytes) {
        Ending::Torn(bytes.len())
    } else {
        Ending::Damaged(0)
    }
}
