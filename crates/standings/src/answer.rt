//! What a datagram says of how a site stands.

ghost use Rattle.std.specs.Prelude.{◌≡◌, ◌≤◌, IfOk};
ghost use Rattle.std.specs.List.{slice_index};
ghost use Rattle.standings.specs.Answers.{number_at, standing_at, standing_in};

use fed_types::SiteNo;
use std::alloc::{AllocError, Global};
use udp_site::{Counts, Standing, status_answer};

/// How many bytes a datagram has before its numbers.
const FRONT: usize = 13;

/// What these bytes say, if they are the answer of this site of the federation.
#[tactic(auto, unfolding(crate::specs::Answers::standing_in))]
pub(crate) fn standing_in(
    alloc: Global,
    federation: u64,
    site: SiteNo,
    bytes: &[u8],
) -> Result<Option<Standing>, AllocError>
    ensures { IfOk result
        (λ standing. standing ≡ standing_in federation site bytes.now) }
{
    let standing = standing_at(bytes);
    let answer = status_answer(alloc, federation, site, &standing)?;
    Ok(if bytes == answer.as_slice() {
        Some(standing)
    } else {
        None
    })
}

// What the bytes at the places of an answer's numbers say.
fn standing_at(bytes: &[u8]) -> Standing
    ensures { result ≡ standing_at bytes.now }
{
    Standing {
        counts: Counts {
            records: number_at(bytes, FRONT),
            known: number_at(bytes, FRONT + 8),
            pending: number_at(bytes, FRONT + 16),
        },
        alone: number_at(bytes, FRONT + 24),
    }
}

// The number in the eight bytes from this place on.
#[tactic(auto, unfolding(crate::specs::Answers::number_at))]
fn number_at(bytes: &[u8], place: usize) -> u64
    requires { place ≤ 37 }
    ensures { result ≡ number_at place bytes.now }
{
    u64::from_be_bytes([
        byte_at(bytes, place),
        byte_at(bytes, place + 1),
        byte_at(bytes, place + 2),
        byte_at(bytes, place + 3),
        byte_at(bytes, place + 4),
        byte_at(bytes, place + 5),
        byte_at(bytes, place + 6),
        byte_at(bytes, place + 7),
    ])
}

// The byte at this place; 0 where there is none.
fn byte_at(bytes: &[u8], place: usize) -> u8
    ensures { result ≡ slice_index bytes.now place }
{
    match bytes.get(place) {
        Some(byte) => *byte,
        None => 0,
    }
}
