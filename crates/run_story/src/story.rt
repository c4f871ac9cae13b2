use crate::datagram::Datagram;
use crate::event::{Deed, Event, Outcome};
use fed_types::{Ballot, Members, Slot};
use lines::{Line, Reason};
use sim_stations::Datagrams;
use slot_table::ListedRows;

/// What became of a datagram.
#[derive(Clone, Copy)]
pub enum Passage {
    /// No event delivered it.
    Never,
    /// It came only where its site was down, first in the event at this place.
    ToNobody(usize),
    /// It arrived, first in the event at this place.
    Arrived(usize),
}

/// The weight of the members whose promise of a ballot, or whose vote in one, a site has heard. A
/// site's own counts.
#[derive(Clone, Copy)]
pub struct Count {
    /// Their weights, added: how many they are where each weight is 1.
    pub heard: u16,
    /// For promises, the ballot of the highest vote that they name, if they name one.
    pub highest: Option<Ballot>,
}

/// What happened in a run, in order.
#[derive(Drop)]
pub struct Story {
    pub members: Members,
    pub events: Vec<Event>,
    /// The lines that were printed, and those of the datagrams, in their order.
    pub lines: Vec<Line>,
    /// What became of each datagram, in the order of their numbers.
    pub passages: Vec<Passage>,
    pub(crate) datagrams: Datagrams<Datagram>,
    pub(crate) slots: ListedRows<usize>,
    // The paths of the files that were to be added, in their order.
    pub(crate) paths: Vec<String>,
}

impl Story {
    /// The datagram of this number, counted from 1.
    pub fn datagram(&self, number: usize) -> Option<&Datagram> {
        self.datagrams.get(number)
    }

    /// The versions that it is about, in the order in which they came first.
    pub fn versions(&self) -> &[Slot] {
        self.slots.slots()
    }

    // The path at this place, empty if there is none.
    pub(crate) fn path(&self, place: usize) -> &str {
        match self.paths.get(place) {
            Some(path) => path.as_str(),
            None => "",
        }
    }

    /// How many were sent.
    pub fn count(&self) -> usize {
        self.datagrams.len()
    }

    /// Whether it is about more than one slot, so that they have to be named.
    pub fn has_many_slots(&self) -> bool {
        1 < self.slots.slots().len()
    }

    /// Whether sites have other weights than 1.
    pub fn has_weights(&self) -> bool {
        self.members.total_weight() != u16::from(self.members.count())
    }

    /// The least weight that is more than half of all.
    pub fn quorum(&self) -> u16 {
        self.members.total_weight() / 2 + 1
    }

    /// The datagram that an event delivered, whether a site heard it or not, if it was sent.
    pub fn delivered(&self, event: &Event) -> Option<&Datagram> {
        match event.deed {
            Deed::Deliver => self.datagram(event.number),
            _ => None,
        }
    }

    /// The first datagram that an event sent, if it sent any.
    pub fn first_sent(&self, event: &Event) -> Option<&Datagram> {
        if event.sent() == 0 {
            return None;
        }
        self.datagram(event.sent_before.saturating_add(1))
    }

    /// The line that an event printed.
    pub fn line_of(&self, event: &Event) -> Option<&Line> {
        self.lines.get(event.said?)
    }
}

/// The outcome of a datagram that the event at this place delivered, if it did.
pub(crate) fn passage_after(before: Passage, event: &Event, place: usize) -> Passage {
    match (before, event.outcome) {
        (Passage::Never, Outcome::Skipped(Reason::Down)) => Passage::ToNobody(place),
        (Passage::Arrived(_), _) | (_, Outcome::Skipped(_)) => before,
        _ => Passage::Arrived(place),
    }
}
