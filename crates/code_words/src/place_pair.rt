//! Why the places of two sites can't stand in one file.

ghost use Rattle.std.specs.Prelude.{◌≡◌, [], ◌++◌, IfOk, OnOk, is_some, unwrap_or, string_bytes};
ghost use Rattle.code_words.specs.Pairs.{kind_name, pair_fault};

use members_file::{Place, PlaceKind};
use std::alloc::AllocError;

/// Appends why a place doesn't go with that of this earlier site, and answers whether it doesn't.
pub fn push_pair_words(
    text: &mut String,
    site: usize,
    earlier: &Place,
    place: &Place,
) -> Result<bool, AllocError>
    ensures answers { IfOk result (λ is. is ≡ is_some (pair_fault site earlier.now place.now)) }
    ensures appends { OnOk result (string_bytes text.new
        ≡ string_bytes text.old ++ unwrap_or (pair_fault site earlier.now place.now) []) }
{
    if earlier.kind() != place.kind() {
        let has = kind_name(earlier.kind());
        let other = kind_name(place.kind());
        write!(
            text,
            "site {site} has {has}, and this one {other}; all sites of a file have one or the other"
        )?;
        return Ok(true);
    }
    if earlier.address() != place.address() {
        return Ok(false);
    }
    let name = match place.kind() {
        PlaceKind::Port => "port",
        _ => "address",
    };
    write!(
        text,
        "that is the {name} of site {site}, and each has its own"
    )?;
    Ok(true)
}

/// Appends that the place that `--listen` names isn't of the kind that the members file has.
pub(crate) fn push_listened(
    text: &mut String,
    listens: &Place,
    place: &Place,
) -> Result<(), AllocError> {
    let listens = kind_name(listens.kind());
    let has = match place.kind() {
        PlaceKind::Port => "ports of this machine",
        PlaceKind::Ipv4 => "addresses of IPv4",
        PlaceKind::Ipv6 => "addresses of IPv6",
    };
    write!(
        text,
        "--listen has {listens}, and the members file has {has}"
    )
}

fn kind_name(kind: PlaceKind) -> &'static str
    ensures { result.now ≡ kind_name kind }
{
    match kind {
        PlaceKind::Port => "a port of this machine",
        PlaceKind::Ipv4 => "an address of IPv4",
        PlaceKind::Ipv6 => "an address of IPv6",
    }
}
