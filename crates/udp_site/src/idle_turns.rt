//! Turns in which nothing came.

ghost use Rattle.std.specs.Prelude.{◌≡◌, ◌<◌, ◌≤◌, ℕ, true, false, max, is_some, IfSome};
ghost use Rattle.std.specs.List.{list_any};
ghost use Rattle.records.specs.SlotStates.{known_of};
ghost use Rattle.udp_site.specs.Rounds.{waits, next_waiting};
ghost use Rattle.udp_site.specs.Status.{waiting_from};
ghost use Rattle.udp_site.specs.Turns.{idles, proposing};
ghost use Rattle.udp_site.specs.inner.Servers.{Comes, ComesOfTurn, Keeps, Stays};
ghost use Rattle.udp_site.specs.inner.SlotRecords.{says_known, is_settled, AreSettled, IsFirst};

use crate::pace::MOST_TOGETHER;
use crate::port::Port;
use crate::said_lines::push_proposal;
use crate::sends::send_answer;
use crate::server::Server;
use bag_folders::Folders;
use cell_device::Cell;
use fed_types::Slot;
use records::{Entry, Record};
use site::{Reply, Site};
use std::alloc::AllocError;

/// How far the idle turns have come.
#[derive(Drop)]
pub(crate) struct IdleProgress {
    /// How many turns were idle.
    pub(crate) idle: u32,
    /// The place, among the deposits, after that which was tried last.
    pub(crate) tried: usize,
    /// All deposits before this place have a known bag, so that no search begins before it.
    pub(crate) settled: usize,
}

impl<C: Cell, P: Port, F: Folders> Server<'_, '_, '_, '_, '_, C, P, F> {
    /// Nothing came: where the count of such turns is a multiple of the site's number, it proposes
    /// the next of its deposits without a known bag.
    pub(crate) fn idle(&mut self) -> Result<(), AllocError>
        requires { self.old.progress.idle < 4294967295 }
        ensures turn { ComesOfTurn P.traffic (idles C.device self.old.addresses.now)
            self.old self.new result }
        ensures keeps { Keeps P.failures F.gives self.old self.new }
    {
        self.progress.idle += 1;
        if self.progress.idle % u32::from(self.site.number().number()) != 0 {
            return Ok(());
        }
        self.progress.settled = past_settled(self.site, self.progress.settled);
        let Some(place) = next_waiting(self.site, self.progress.tried, self.progress.settled) else {
            return Ok(());
        };
        let Some(slot) = self.site.deposited(place) else {
            return Ok(());
        };
        self.progress.tried = place + 1;
        let slot = slot.copy(self.alloc)?;
        self.propose(&slot)
    }

    /// How many deposits without a known bag come after the one that was tried last, up to as many
    /// as a port counts.
    pub(crate) fn untried(&self) -> u32
        ensures { result ≡ waiting_from self.now.site.now.book.records
            (max self.now.progress.tried self.now.progress.settled) }
    {
        waiting_from(self.site, self.progress.tried.max(self.progress.settled))
    }

    // Proposes the slot's deposit.
    fn propose(&mut self, slot: &Slot) -> Result<(), AllocError>
        ensures comes { Comes P.traffic (λ s. proposing C.device self.old.addresses.now s slot.now)
            self.old self.new result }
        ensures stays { Stays P.failures F.gives self.old self.new }
    {
        let number = self.site.number().number();
        let answer = self.site.propose(slot);
        send_answer(self.port, self.addresses, &answer)?;
        push_proposal(self.lines, number, answer)
    }
}

// The first place, from this one on, that isn't settled.
#[tactic(auto, using(crate::proofs::WaitingDeposits::past_all))]
fn past_settled<C: Cell>(site: &Site<C>, from: usize) -> usize
    ensures settled { (place : ℕ) → from ≤ place → place < result
        → is_settled site.now.book.records place ≡ true }
    ensures first { is_settled site.now.book.records result ≡ false }
{
    let end = site.records().len();
    for place in from..end {
        if !is_settled(site, place) {
            return place;
        }
    }
    from.max(end)
}

// The first deposit without a known bag, from this place on, and then from the first one on.
fn next_waiting<C: Cell>(site: &Site<C>, from: usize, settled: usize) -> Option<usize>
    ensures next { AreSettled site.now.book.records settled
        → result ≡ next_waiting site.now.book.records from }
    ensures within { IfSome result (λ place. place < 18446744073709551615) }
{
    match first_waiting(site, from.max(settled)) {
        Some(place) => Some(place),
        None => first_waiting(site, settled),
    }
}

// The first deposit without a known bag, from this place on.
fn first_waiting<C: Cell>(site: &Site<C>, from: usize) -> Option<usize>
    ensures first { IsFirst (waits site.now.book.records) from result }
    ensures within { IfSome result (λ place. place < 18446744073709551615) }
{
    for place in from..site.records().len() {
        let slot = site.deposited(place)?;
        if !is_known(site, slot) {
            return Some(place);
        }
    }
    None
}

// How many deposits without a known bag there are from this place on, up to as many as a port
// counts.
fn waiting_from<C: Cell>(site: &Site<C>, from: usize) -> u32
    ensures { result ≡ waiting_from site.now.book.records from }
{
    let mut next = from;
    for count in 0..MOST_TOGETHER {
        let Some(place) = first_waiting(site, next) else {
            return count;
        };
        next = place + 1;
    }
    MOST_TOGETHER
}

// Whether a deposit is at this place, and its slot has a known bag.
fn is_settled<C: Cell>(site: &Site<C>, place: usize) -> bool
    ensures { result ≡ is_settled site.now.book.records place }
{
    match site.deposited(place) {
        Some(slot) => is_known(site, slot),
        None => false,
    }
}

pub(crate) fn is_known<C: Cell>(site: &Site<C>, slot: &Slot) -> bool
    ensures { result ≡ is_some (known_of slot.now site.now.book.records) }
{
    match site.query(slot) {
        Ok(Reply::Known(_)) => true,
        Ok(Reply::Pending(_)) => false,
        Ok(Reply::Nothing) => false,
        Err(_) => is_known_in(site.records(), slot),
    }
}

// Whether one of these records says that a bag is known for the slot.
fn is_known_in(records: &[Record], slot: &Slot) -> bool
    ensures { result ≡ list_any (says_known slot.now) records.now }
{
    records.iter().any(|kept| says_known(kept, slot))
}

fn says_known(kept: &Record, slot: &Slot) -> bool
    ensures { result ≡ says_known slot.now kept.now }
{
    kept.slot == *slot && matches!(kept.body, Entry::Known(_))
}
