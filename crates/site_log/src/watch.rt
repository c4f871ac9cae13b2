//! Whether a site hears a majority while it asks for one.

use crate::moment::{now, text_of};
use crate::site_log::SiteLog;
use addresses::Address;
use fed_types::{Members, Quorums, SiteNo, Voters};
use jiff::Timestamp;
use std::alloc::{AllocError, Global};
use std::cell::RefCell;
use std::time::{Duration, Instant};
use udp_site::Turn;

/// A site that has asked for so many seconds and heard no majority says so.
const PATIENCE: u64 = 10;

/// The place of the kind's byte in a datagram.
const KIND_PLACE: usize = 3;

/// A Prepare's kind.
const PREPARE: u8 = 1;

/// A Known's kind.
const KNOWN: u8 = 7;

/// What a site hears while a deposit of its own is pending. A site hands out a Prepare only for
/// such a deposit: with the first a spell begins, which ends once a majority was heard since, or,
/// unless it was said, with a Known. Where neither comes within ten seconds, it is said, once; and
/// in the end that a majority is heard again. What comes from a member's address is heard of that
/// member; the site itself counts, by its weight. No spell begins with a batch that has a Known:
/// what is handed out may be about a version that it names.
#[derive(Drop)]
pub struct Watch<'a> {
    rt: &'a HostRuntime,
    members: Members,
    number: SiteNo,
    /// The addresses of all sites, that of site 1 first.
    addresses: &'a [Address],
    /// The log that has it, if there is one.
    log: Option<&'a SiteLog<'a>>,
    /// Whether standard error has it.
    speaks: bool,
    heard: RefCell<Heard>,
}

/// What was heard so far.
#[derive(Clone, Copy)]
struct Heard {
    spell: Option<Spell>,
    /// Whether the batch has a Known of another site.
    has_known: bool,
}

/// A site that asks, and hears no majority.
#[derive(Clone, Copy)]
struct Spell {
    since: Instant,
    /// When that was.
    time: Option<Timestamp>,
    /// When each site was last heard in it, site 1 first.
    heard: [Option<Instant>; 63],
    /// Whether it was said.
    is_said: bool,
}

impl<'a> Watch<'a> {
    /// Of the site of this number, among these members, which have these addresses.
    pub fn new(
        rt: &'a HostRuntime,
        members: Members,
        number: SiteNo,
        addresses: &'a [Address],
        log: Option<&'a SiteLog<'a>>,
        speaks: bool,
    ) -> Watch<'a> {
        Watch {
            rt,
            members,
            number,
            addresses,
            log,
            speaks,
            heard: RefCell::new(Heard {
                spell: None,
                has_known: false,
            }),
        }
    }

    /// The site waited, and this came: its next batch begins with it.
    pub(crate) fn begins_with(&self, turn: &Turn) {
        if let Ok(mut heard) = self.heard.try_borrow_mut() {
            heard.has_known = false;
        }
        self.takes_in(turn);
    }

    /// The site takes this in besides.
    pub(crate) fn takes_in(&self, turn: &Turn) {
        if let Ok(mut heard) = self.heard.try_borrow_mut() {
            if self.is_known(turn) {
                heard.has_known = true;
            }
            if let Some(spell) = heard.spell {
                heard.spell = self.after(spell, turn);
            }
        }
    }

    /// The site hands out this datagram.
    pub(crate) fn hands(&self, bytes: &[u8]) {
        if kind_byte(bytes) != PREPARE {
            return;
        }
        if let Ok(mut heard) = self.heard.try_borrow_mut() {
            if heard.spell.is_none() && !heard.has_known {
                heard.spell = self.beginning();
            }
        }
    }

    // A spell that begins now. There is none where the clock can't be read.
    fn beginning(&self) -> Option<Spell> {
        match Instant::now(self.rt) {
            Ok(since) => Some(Spell {
                since,
                time: now(self.rt),
                heard: [None; 63],
                is_said: false,
            }),
            Err(_) => None,
        }
    }

    // The spell after a turn; none where it is over.
    fn after(&self, mut spell: Spell, turn: &Turn) -> Option<Spell> {
        let Ok(present) = Instant::now(self.rt) else {
            return Some(spell);
        };
        if let Some((from, bytes)) = said(turn) {
            if let Some(site) = self.member_at(from) {
                spell.hears(site, present);
                if kind_byte(bytes) == KNOWN && !spell.is_said {
                    return None;
                }
            }
        }
        let voters = self.heard_in(&spell, present);
        if self.members.is_quorum(&voters) {
            if spell.is_said {
                self.say(self.again(&voters));
            }
            return None;
        }
        if !spell.is_said && is_over(present.saturating_duration_since(spell.since)) {
            self.say(self.alone(&spell, &voters));
            spell.is_said = true;
        }
        Some(spell)
    }

    // Whether a Known of another site's came.
    fn is_known(&self, turn: &Turn) -> bool {
        match said(turn) {
            Some((from, bytes)) => kind_byte(bytes) == KNOWN && self.member_at(from).is_some(),
            None => false,
        }
    }

    // The site that has this address.
    fn member_at(&self, address: Address) -> Option<SiteNo> {
        for site in self.members.sites() {
            let place = usize::from(site.number()).saturating_sub(1);
            if self.addresses.get(place).copied() == Some(address) {
                return Some(site);
            }
        }
        None
    }

    // The site itself, and those that were heard in the spell; where it was said, within ten
    // seconds.
    fn heard_in(&self, spell: &Spell, present: Instant) -> Voters {
        let mut voters = Voters::new();
        voters.add(self.number);
        for site in self.members.sites() {
            if spell.has_heard(site, present) {
                voters.add(site);
            }
        }
        voters
    }

    // `no majority since TIME: heard from N`
    fn alone(&self, spell: &Spell, voters: &Voters) -> Result<String, AllocError> {
        let alloc = self.rt.alloc();
        let since = text_of(alloc, spell.time)?;
        let mut text = format!(in alloc; "no majority since {since}: heard from ")?;
        self.push_others(&mut text, voters)?;
        Ok(text)
    }

    // `a majority again: heard from N`
    fn again(&self, voters: &Voters) -> Result<String, AllocError> {
        let mut text = String::from_str(self.rt.alloc(), "a majority again: heard from ")?;
        self.push_others(&mut text, voters)?;
        Ok(text)
    }

    // The numbers of these sites, but of this one.
    fn push_others(&self, text: &mut String, voters: &Voters) -> Result<(), AllocError> {
        let mut is_first = true;
        for site in self.members.sites() {
            if voters.has(site) && site != self.number {
                let number = site.number();
                if !is_first {
                    text.push_str(", ")?;
                }
                write!(text, "{number}")?;
                is_first = false;
            }
        }
        if is_first {
            text.push_str("none")?;
        }
        Ok(())
    }

    // Where there is no memory for the words, nobody is told.
    fn say(&self, words: Result<String, AllocError>) {
        if let Ok(words) = words {
            if let Some(log) = self.log {
                log.says(words.as_str());
            }
            if self.speaks {
                let _ = self.rt.eprintln(words.as_str());
            }
        }
    }
}

impl Spell {
    fn hears(&mut self, site: SiteNo, present: Instant) {
        let place = usize::from(site.number()).saturating_sub(1);
        if let Some(heard) = self.heard.get_mut(place) {
            *heard = Some(present);
        }
    }

    fn has_heard(&self, site: SiteNo, present: Instant) -> bool {
        let place = usize::from(site.number()).saturating_sub(1);
        match self.heard.get(place) {
            Some(Some(heard)) => {
                !self.is_said || !is_over(present.saturating_duration_since(*heard))
            }
            _ => false,
        }
    }
}

fn is_over(time: Duration) -> bool {
    time >= Duration::from_secs(PATIENCE)
}

// What came, and from which address. A datagram of no bytes, as which one without a right tag
// counts, is nothing.
fn said(turn: &Turn) -> Option<(Address, &[u8])> {
    match turn {
        Turn::Got(from, bytes) => {
            if bytes.is_empty() {
                None
            } else {
                Some((*from, bytes.as_slice()))
            }
        }
        Turn::Idle => None,
    }
}

// The kind's byte, or 0 where there is none.
fn kind_byte(bytes: &[u8]) -> u8 {
    bytes.get(KIND_PLACE).copied().unwrap_or(0)
}
