//! What a site counts of itself.

ghost use Rattle.std.specs.Prelude.{◌≡◌, length};
ghost use Rattle.std.specs.List.{count_by};
ghost use Rattle.udp_site.specs.Rounds.{waits};
ghost use Rattle.udp_site.specs.Status.{is_known_bag, waiting_before, counts_of};

use crate::idle_turns::is_known;
use crate::port::Port;
use crate::status::Counts;
use cell_device::Cell;
use records::{Entry, Record};
use site::Site;

/// Tells the port what the site counts, if it is time for that.
pub(crate) fn tell_counts<C: Cell, P: Port>(site: &Site<C>, port: &mut P)
    ensures traffic { P.traffic port.new ≡ P.traffic port.old }
    ensures failures { P.failures port.new ≡ P.failures port.old }
{
    if port.wants_counts() {
        port.notes_counts(counts(site));
    }
}

// What the site counts.
fn counts<C: Cell>(site: &Site<C>) -> Counts
    ensures { result ≡ counts_of site.now.book.records }
{
    let records = site.records();
    Counts {
        records: records.len() as u64,
        known: known(records),
        pending: waiting(site),
    }
}

// How many bags are known.
fn known(records: &[Record]) -> u64
    ensures { result ≡ count_by (λ r. is_known_bag r.body) records.now }
{
    records.iter().filter(|kept| is_known_bag(kept)).count() as u64
}

fn is_known_bag(kept: &Record) -> bool
    ensures { result ≡ is_known_bag kept.now.body }
{
    matches!(kept.body, Entry::Known(_))
}

// How many deposits have no known bag.
fn waiting<C: Cell>(site: &Site<C>) -> u64
    ensures { result ≡ waiting_before site.now.book.records (length site.now.book.records) }
{
    let mut count = 0;
    for place in 0..site.records().len() {
        if waits(site, place) {
            count += 1;
        }
    }
    count
}

// Whether a deposit is at this place, and its slot has no known bag.
fn waits<C: Cell>(site: &Site<C>, place: usize) -> bool
    ensures { result ≡ waits site.now.book.records place }
{
    match site.deposited(place) {
        Some(slot) => !is_known(site, slot),
        None => false,
    }
}
