ghost use Rattle.std.specs.Prelude.{◌≡◌, length, IfOk, MatchResult};
ghost use Rattle.key_file.specs.Faults.{IsTextOf, IsRingOf, IsFaultOf};
ghost use Rattle.key_file.specs.Files.{blocks_of};

use crate::key_fault::KeyFault;
use crate::key_line::{KeyKind, KeyLine, count_of, next_key};
use std::alloc::{AllocError, Global};
use tags::{KeyRing, TagKey};
use tokens::first_line;

/// The ring of a text's keys, or the number of its first line at fault. `Memory` is answered only
/// if an allocation failed.
pub fn read_keys(alloc: Global, text: &[u8]) -> Result<KeyRing, KeyFault>
    ensures { MatchResult result (IsRingOf text.now) (IsFaultOf text.now) }
{
    let lines = read_lines(alloc, text)?;
    let sites = keys_of(alloc, KeyKind::Sites, &lines)?;
    let clients = keys_of(alloc, KeyKind::Clients, &lines)?;
    Ok(KeyRing::new(sites, clients))
}

// The keys of a text, in order.
#[tactic(auto, unfolding(crate::specs::Files::keys_in, crate::specs::Files::keys_after))]
fn read_lines(alloc: Global, text: &[u8]) -> Result<Vec<KeyLine>, KeyFault>
    ensures { MatchResult result (λ keys. IsTextOf text.now keys.items) (IsFaultOf text.now) }
{
    let mut keys = Vec::new(alloc);
    let mut rest = text;
    while let Some((line, after)) = first_line(rest) {
        let Some(key) = next_key(alloc, line, &keys)? else {
            return Err(KeyFault::Line(keys.len() + 1));
        };
        keys.push(key)?;
        rest = after;
    }
    if count_of(KeyKind::Clients, &keys) == 0 {
        return Err(KeyFault::Line(keys.len() + 1));
    }
    Ok(keys)
}

// The keys of a kind, in order.
fn keys_of(alloc: Global, kind: KeyKind, lines: &[KeyLine]) -> Result<Vec<TagKey>, AllocError>
    ensures { IfOk result (λ keys. keys.items ≡ blocks_of kind lines.now) }
{
    lines
        .iter()
        .filter(|it| it.kind.is(kind))
        .map(|it| TagKey::new(&it.key))
        .collect(alloc)
}
