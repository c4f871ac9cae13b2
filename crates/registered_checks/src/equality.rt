//! Whether the bags that are held are those that are known.

ghost use Rattle.std.specs.Prelude.{◌≡◌};
ghost use Rattle.std.specs.List.{list_all};
ghost use Rattle.registered_checks.specs.Comparisons.{is_bag, is_known, is_held, are_equal};

use crate::held_bag::HeldBag;
use known_bags::KnownBag;

/// Whether each bag that is held is the known bag of a version, and the known bag of each version
/// is held.
pub fn are_equal(held: &[HeldBag], known: &[KnownBag]) -> bool
    ensures { result ≡ are_equal held.now known.now }
{
    are_known(held, known) && are_held(held, known)
}

fn are_known(held: &[HeldBag], known: &[KnownBag]) -> bool
    ensures { result ≡ list_all (is_known known.now) held.now }
{
    held.iter().all(|bag| is_known(known, bag))
}

fn are_held(held: &[HeldBag], known: &[KnownBag]) -> bool
    ensures { result ≡ list_all (is_held held.now) known.now }
{
    known.iter().all(|version| is_held(held, version))
}

/// Whether it is the known bag of a version.
pub(crate) fn is_known(known: &[KnownBag], held: &HeldBag) -> bool
    ensures { result ≡ is_known known.now held.now }
{
    known.iter().any(|version| is_bag(held, version))
}

/// Whether the known bag of this version is held.
pub(crate) fn is_held(held: &[HeldBag], version: &KnownBag) -> bool
    ensures { result ≡ is_held held.now version.now }
{
    held.iter().any(|one| is_bag(one, version))
}

/// Whether it is the known bag of this version.
pub(crate) fn is_bag(held: &HeldBag, version: &KnownBag) -> bool
    ensures { result ≡ is_bag held.now version.now }
{
    version.bag == held.bag()
}
