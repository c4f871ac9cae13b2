//! Whose cell it is, by the header that its bytes begin with.

ghost use Rattle.std.specs.Prelude.{◌≡◌, ◌≤◌, ◌↔◌, [], ◌∷◌, IfOk, IsTrue, MatchOption, length};
ghost use Rattle.std.specs.Prelude.{take, ◌<◌, ◌^◌};
ghost use Rattle.fed_types.specs.Limits.{federation_bits};
ghost use Rattle.std.specs.Prelude.{slice_index};
ghost use Rattle.fed_types.specs.Sites.{IsSiteNumber};
ghost use Rattle.records.specs.Journals.{HasHeader, IsOfOwner};
ghost use Rattle.records.specs.Numbers.{old_magic};
ghost use Rattle.ledger.specs.Cells.{HasNoOwner};
ghost use Rattle.ledger.specs.inner.Named.{IsHeadedBy, HasHeaderOf};

use fed_types::{Members, SiteNo};
use records::{FRONT, MAGIC, OLD_MAGIC, Owner, header};
use std::alloc::{AllocError, Global};

// The owner that the bytes after a magic name, with a single member, about whose weight nothing is
// said.
fn named_owner(bytes: &[u8]) -> Option<Owner>
    requires { FRONT ≤ length bytes.now }
    ensures { MatchOption result (¬ IsSiteNumber (slice_index bytes.now 12))
        (λ o. IsOfOwner o bytes.now × IsSiteNumber o.site × (o.members.weights ≡ 1 ∷ [])
        × (o.members.federation < 2 ^ federation_bits)) }
{
    let federation = u64::from_be_bytes([
        bytes[4], bytes[5], bytes[6], bytes[7], bytes[8], bytes[9], bytes[10], bytes[11],
    ]);
    let members = Members::new(federation, 1).ok()?;
    let site = SiteNo::new(bytes[12]).ok()?;
    Some(Owner { members, site })
}

/// The members that a header of the second layout, of this federation and site, names, if the
/// bytes begin with one.
pub(crate) fn header_members(
    alloc: Global,
    owner: &Owner,
    bytes: &[u8],
) -> Result<Option<Members>, AllocError>
    ensures { IfOk result (λ members. MatchOption members (¬ HasHeader owner.now bytes.now)
        (λ m. HasHeaderOf owner.now m bytes.now)) }
{
    if bytes.len() <= FRONT {
        return Ok(None);
    }
    let end = FRONT + 1 + usize::from(bytes[FRONT]);
    if bytes.len() < end {
        return Ok(None);
    }
    let Ok(members) = Members::weighted(owner.members.federation(), &bytes[FRONT + 1..end]) else {
        return Ok(None);
    };
    let named = Owner {
        members,
        site: owner.site,
    };
    let header = header(alloc, &named)?;
    if begins_with(bytes, header.as_slice()) {
        return Ok(Some(members));
    }
    Ok(None)
}

// Whether the bytes begin with a header.
fn begins_with(bytes: &[u8], header: &[u8]) -> bool
    requires { length header.now ≤ length bytes.now }
    ensures { IsTrue result ↔ (take (length header.now) bytes.now ≡ header.now) }
{
    &bytes[..header.len()] == header
}

// Whether the bytes begin with the magic of the first layout.
fn has_old_magic(bytes: &[u8]) -> bool
    requires { FRONT ≤ length bytes.now }
    ensures { IsTrue result ↔ (take 4 bytes.now ≡ old_magic) }
{
    &bytes[..4] == OLD_MAGIC.as_slice()
}

/// Whose cell it is, by a whole header that the bytes begin with.
pub(crate) fn owner_of(alloc: Global, bytes: &[u8]) -> Result<Option<Owner>, AllocError>
    ensures { IfOk result (λ owner. MatchOption owner (HasNoOwner bytes.now)
        (λ o. IsHeadedBy o bytes.now)) }
{
    if bytes.len() < FRONT {
        return Ok(None);
    }
    let Some(owner) = named_owner(bytes) else {
        return Ok(None);
    };
    if has_old_magic(bytes) {
        return Ok(Some(owner));
    }
    match header_members(alloc, &owner, bytes)? {
        Some(_) => Ok(Some(owner)),
        None => Ok(None),
    }
}
