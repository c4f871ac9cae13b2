//! How often a client's request to recover is handed on to the site.

ghost use Rattle.std.specs.Prelude.{◌≡◌, ℕ, get_or, set};
ghost use Rattle.udp_site.specs.Recoveries.{none_handed_on, class_of, is_early, hands_on};

use crate::movement::is_recover;

/// So many classes of versions have a limit each: as many as a byte has values.
const CLASSES: usize = 256;

/// When a client's request to recover was handed on last, for each class of versions. A class is
/// the last byte of the datagram, so that no version needs memory of its own; the few versions that
/// share one share a limit. Moments are microseconds.
#[derive(Clone, Copy)]
pub(crate) struct Recoveries {
    handed_on: [u64; CLASSES],
}

impl Recoveries {
    /// As if one of each class had been handed on at the moment 0.
    pub(crate) fn new() -> Recoveries
        ensures { result ≡ none_handed_on }
    {
        Recoveries {
            handed_on: [0; CLASSES],
        }
    }

    /// Whether this is a request to recover that comes before so many microseconds have passed
    /// since the last one of its class.
    pub(crate) fn is_early(&self, pause: u64, now: u64, bytes: &[u8]) -> bool
        ensures { result ≡ is_early self.now pause now bytes.now }
    {
        is_recover(bytes) && now.saturating_sub(at(&self.handed_on, class_of(bytes))) < pause
    }

    /// A datagram is handed on.
    pub(crate) fn hands_on(&mut self, now: u64, bytes: &[u8])
        ensures { self.new ≡ hands_on self.old now bytes.now }
    {
        if is_recover(bytes) {
            put(&mut self.handed_on, class_of(bytes), now);
        }
    }
}

// The last byte.
fn class_of(bytes: &[u8]) -> u8
    ensures { result ≡ class_of bytes.now }
{
    bytes.last().copied().unwrap_or(0)
}

fn at(moments: &[u64; CLASSES], class: u8) -> u64
    ensures { result ≡ get_or moments.now class 0 }
{
    moments[usize::from(class)]
}

fn put(moments: &mut [u64; CLASSES], class: u8, now: u64)
    ensures { moments.new ≡ set moments.old class now }
{
    moments[usize::from(class)] = now;
}
