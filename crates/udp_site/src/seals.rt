//! Datagrams at a port that has keys.

ghost use Rattle.std.specs.Prelude.{◌≡◌, ◌≤◌, length, take, Some};
ghost use Rattle.udp_site.specs.Seals.{handed_on};

use tags::KeyRing;

/// How many bytes, from the first on, are handed on of a datagram that came: all, or with keys
/// those before its tag; none where the tag isn't right.
pub(crate) fn handed_on(keys: &Option<KeyRing>, bytes: &[u8]) -> usize
    ensures part { take result bytes.now ≡ handed_on keys.now bytes.now }
    ensures within { result ≤ length bytes.now }
{
    match keys {
        Some(ring) => opened(ring, bytes),
        None => bytes.len(),
    }
}

// The same where there are keys.
fn opened(ring: &KeyRing, bytes: &[u8]) -> usize
    ensures part { take result bytes.now ≡ handed_on (Some ring.now) bytes.now }
    ensures within { result ≤ length bytes.now }
{
    match ring.opened(bytes) {
        Some(text) => text.len(),
        None => 0,
    }
}
