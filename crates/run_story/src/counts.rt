//! How many promises and votes a site has heard.

use crate::datagram::{Datagram, Kind};
use crate::event::{Deed, Event};
use crate::story::{Count, Story};
use fed_types::{Ballot, SiteNo, Voters};

/// What a site has heard since it was opened, and the last ballot that it has issued.
#[derive(Clone, Copy)]
struct Heard {
    issued: Option<Ballot>,
    voters: Voters,
    highest: Option<Ballot>,
}

fn nothing() -> Heard {
    Heard {
        issued: None,
        voters: Voters::new(),
        highest: None,
    }
}

impl Story {
    /// For a promise or a vote that the event at this place delivered: how many of the same ballot
    /// the site had heard by then. A promise counts only if its ballot is the last that the site
    /// has issued since it was opened.
    pub fn count_at(&self, place: usize) -> Option<Count> {
        let event = self.events.get(place)?;
        let datagram = self.heard_in(event)?;
        if !matches!(datagram.kind, Kind::Promise | Kind::Accepted) {
            return None;
        }
        let heard = self.heard_by(place, event.site, datagram);
        if datagram.kind == Kind::Promise && heard.issued != datagram.ballot {
            return None;
        }
        Some(self.count_of(heard))
    }

    // What the event delivers to a site that hears it.
    fn heard_in(&self, event: &Event) -> Option<&Datagram> {
        if event.is_done() {
            self.delivered(event)
        } else {
            None
        }
    }

    // What the site has heard of the datagram's kind and ballot up to this place.
    fn heard_by(&self, place: usize, site: u8, datagram: &Datagram) -> Heard {
        let mut heard = nothing();
        for event in self.events.iter().take(place.saturating_add(1)) {
            if event.site == site {
                heard = self.after(heard, datagram, event);
            }
        }
        heard
    }

    fn after(&self, heard: Heard, datagram: &Datagram, event: &Event) -> Heard {
        if event.is_forgetting() {
            return nothing();
        }
        if matches!(event.deed, Deed::Propose | Deed::Recover) {
            return self.issued(heard, datagram, event);
        }
        match self.heard_in(event) {
            Some(other) if is_alike(other, datagram) => with(heard, other),
            _ => heard,
        }
    }

    // The site begins a ballot, maybe for the slot of the datagram.
    fn issued(&self, heard: Heard, datagram: &Datagram, event: &Event) -> Heard {
        let mut heard = heard;
        if event.is_done() && event.slot == datagram.slot {
            if let Some(prepare) = self.first_sent(event) {
                heard.issued = prepare.ballot;
            }
        }
        heard
    }

    fn count_of(&self, heard: Heard) -> Count {
        let mut weight: u16 = 0;
        for site in self.members.sites() {
            if heard.voters.has(site) {
                weight = weight.saturating_add(u16::from(self.members.weight(site)));
            }
        }
        Count {
            heard: weight,
            highest: heard.highest,
        }
    }
}

// Whether both are of one kind, slot and ballot.
fn is_alike(one: &Datagram, other: &Datagram) -> bool {
    one.kind == other.kind && one.slot == other.slot && one.ballot == other.ballot
}

// A promise or a vote is heard too.
fn with(heard: Heard, datagram: &Datagram) -> Heard {
    let mut heard = heard;
    if let Ok(site) = SiteNo::new(datagram.from) {
        heard.voters.add(site);
    }
    heard.highest = match (heard.highest, datagram.other) {
        (Some(ballot), Some(other)) => Some(ballot.max(other)),
        (None, other) => other,
        (highest, None) => highest,
    };
    heard
}
