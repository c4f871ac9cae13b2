//! What is noted while a run goes on.

use crate::datagram::Datagram;
use crate::event::{Deed, Event, Outcome};
use crate::said_numbers::{
    bag_in, bag_on, ballot_of, kind_of, other_ballot_of, outcome_of, tree_in,
};
use crate::story::{Passage, Story, passage_after};
use dgram::{Message, decode};
use fed_types::{BagId, Members, Slot};
use lines::Line;
use records::{Entry, Owner, Record, read_journal};
use sim_stations::{Datagrams, RunState, SeenBags, Station};
use simulator::Federation;
use slot_table::ListedRows;
use std::alloc::{AllocError, Global};

/// What was noted so far.
#[derive(Drop)]
pub(crate) struct Notes {
    alloc: Global,
    members: Members,
    datagrams: Datagrams<Datagram>,
    passages: Vec<Passage>,
    // The slots in the order in which they came first, each with its place.
    slots: ListedRows<usize>,
    // The paths of the files that were to be added.
    paths: Vec<String>,
    // How many records each site has, site 1 first.
    records: Vec<usize>,
    // Whether each site needs opening, since its device has failed.
    unopened: Vec<bool>,
    events: Vec<Event>,
    // How many of the federation's lines were read.
    lines: usize,
}

/// How many records there are, and what the last of them says.
#[derive(Clone, Copy)]
struct Recorded {
    count: usize,
    last: Option<Entry>,
    // The place of its slot.
    slot: Option<usize>,
}

impl Notes {
    /// Nothing has happened.
    pub(crate) fn new(alloc: Global, members: Members) -> Result<Notes, AllocError> {
        let mut records = Vec::new(alloc);
        let mut unopened = Vec::new(alloc);
        for _ in 0..members.count() {
            records.push(0)?;
            unopened.push(false)?;
        }
        Ok(Notes {
            alloc,
            members,
            datagrams: Datagrams::new(alloc),
            passages: Vec::new(alloc),
            slots: ListedRows::new(alloc),
            paths: Vec::new(alloc),
            records,
            unopened,
            events: Vec::new(alloc),
            lines: 0,
        })
    }

    /// What happened.
    pub(crate) fn end(self, lines: Vec<Line>) -> Story {
        let Notes {
            members,
            datagrams,
            passages,
            slots,
            paths,
            events,
            ..
        } = self;
        Story {
            members,
            events,
            lines,
            passages,
            datagrams,
            slots,
            paths,
        }
    }

    /// The datagram that a pump delivers next.
    pub(crate) fn next_unnamed(&mut self) -> Option<usize> {
        self.datagrams.next_unnamed()
    }

    /// The place of a slot.
    pub(crate) fn slot_place(&mut self, slot: &Slot) -> Result<usize, AllocError> {
        if let Some(place) = self.slots.get(slot) {
            return Ok(*place);
        }
        let place = self.slots.slots().len();
        self.slots.put(slot, place)?;
        Ok(place)
    }

    /// The place of the path of a file that is to be added.
    pub(crate) fn path_place(&mut self, path: &str) -> Result<usize, AllocError> {
        let place = self.paths.len();
        self.paths.push(String::from_str(self.alloc, path)?)?;
        Ok(place)
    }

    /// The event with what its datagram says, if it delivers one; its number is named.
    pub(crate) fn begin(&mut self, event: Event) -> Result<Event, AllocError> {
        let mut event = event;
        event.sent_before = self.datagrams.len();
        if let Deed::Deliver = event.deed {
            self.datagrams.name(event.number)?;
            if let Some(datagram) = self.datagrams.get(event.number) {
                event.site = datagram.to;
                event.slot = datagram.slot;
            }
        }
        Ok(event)
    }

    /// Notes the event, after which the federation is so.
    pub(crate) fn end_event(
        &mut self,
        event: Event,
        federation: &Federation,
    ) -> Result<(), AllocError> {
        // The checker of borrows has to know each type that an event holds.
        let _entry: Option<Entry> = None;
        let mut event = event;
        self.read_lines(&mut event, federation)?;
        self.note_passage(&event);
        self.read_record(&mut event, federation)?;
        event.sent_after = self.datagrams.len();
        self.events.push(event)?;
        Ok(())
    }

    // Reads the new lines: the datagrams, and the event's own.
    fn read_lines(&mut self, event: &mut Event, federation: &Federation) -> Result<(), AllocError> {
        let lines = federation.lines();
        for place in self.lines..lines.len() {
            if let Some(line) = lines.get(place) {
                self.read_line(event, federation.seen(), place, line)?;
            }
        }
        self.lines = lines.len();
        Ok(())
    }

    fn read_line(
        &mut self,
        event: &mut Event,
        seen: &SeenBags,
        place: usize,
        line: &Line,
    ) -> Result<(), AllocError> {
        if let Line::Sent { to, bytes, .. } = line {
            return self.read_datagram(event, seen, *to, bytes.as_slice());
        }
        event.outcome = outcome_of(line);
        event.tree = tree_in(line);
        event.said = Some(place);
        Ok(())
    }

    fn read_datagram(
        &mut self,
        event: &Event,
        seen: &SeenBags,
        to: u8,
        bytes: &[u8],
    ) -> Result<(), AllocError> {
        match decode(self.alloc, self.members.federation(), bytes) {
            Ok(message) => self.note_message(event, seen, to, &message),
            // What a site has sealed causes no other fault.
            Err(_) => Err(AllocError),
        }
    }

    fn note_message(
        &mut self,
        event: &Event,
        seen: &SeenBags,
        to: u8,
        message: &Message,
    ) -> Result<(), AllocError> {
        let body = &message.body;
        let datagram = Datagram {
            from: match message.from() {
                Some(site) => site.number(),
                None => 0,
            },
            to,
            slot: event.slot,
            event: self.events.len(),
            kind: kind_of(body),
            ballot: ballot_of(body),
            other: other_ballot_of(body),
            tree: tree_of(seen, bag_in(body)),
        };
        self.passages.push(Passage::Never)?;
        self.datagrams.push(datagram)?;
        Ok(())
    }

    // What became of the datagram that the event delivered.
    fn note_passage(&mut self, event: &Event) {
        let place = self.events.len();
        if let Deed::Deliver = event.deed {
            if let Some(passage) = self.passages.get_mut(event.number.wrapping_sub(1)) {
                *passage = passage_after(*passage, event, place);
            }
        }
    }

    // Reads the record that the site has since, if it has one more than before.
    fn read_record(
        &mut self,
        event: &mut Event,
        federation: &Federation,
    ) -> Result<(), AllocError> {
        if let Outcome::Skipped(_) = event.outcome {
            return Ok(());
        }
        let place = usize::from(event.site).wrapping_sub(1);
        event.was_unopened = self.note_failure(place, event.outcome);
        if let Some(station) = federation.stations().get(place) {
            let recorded = recorded_at(self.alloc, self.members, &self.slots, station)?;
            if self.has_grown(place, recorded.count) {
                event.record = recorded.last;
                event.record_slot = recorded.slot;
                if let Some(entry) = &recorded.last {
                    event.tree = tree_of(federation.seen(), bag_on(entry));
                }
            }
        }
        Ok(())
    }

    // Notes whether the site at this place needs opening since: did it before?
    fn note_failure(&mut self, place: usize, outcome: Outcome) -> bool {
        let Some(unopened) = self.unopened.get_mut(place) else {
            return false;
        };
        let before = *unopened;
        match outcome {
            Outcome::Failed => *unopened = true,
            Outcome::Down | Outcome::Up => *unopened = false,
            _ => {}
        }
        before
    }

    // Notes how many records the site at this place has: more than before?
    fn has_grown(&mut self, place: usize, count: usize) -> bool {
        match self.records.get_mut(place) {
            Some(before) if *before < count => {
                *before = count;
                true
            }
            _ => false,
        }
    }
}

// The tree that held the bag first, 0 where there is no bag.
fn tree_of(seen: &SeenBags, bag: Option<BagId>) -> u32 {
    match bag {
        Some(bag) => seen.first_tree(bag),
        None => 0,
    }
}

// What the station's site has on record, wherever it is. If its device has failed, the cell may
// have one record more.
fn recorded_at(
    alloc: Global,
    members: Members,
    slots: &ListedRows<usize>,
    station: &Station,
) -> Result<Recorded, AllocError> {
    match station.run_state() {
        RunState::Running(site) => Ok(recorded_among(slots, site.records())),
        RunState::AtRest(cell) => {
            let owner = Owner {
                members,
                site: station.number(),
            };
            recorded_in(alloc, &owner, slots, cell.bytes())
        }
    }
}

fn recorded_in(
    alloc: Global,
    owner: &Owner,
    slots: &ListedRows<usize>,
    bytes: &[u8],
) -> Result<Recorded, AllocError> {
    match read_journal(alloc, owner, bytes) {
        Ok(journal) => Ok(recorded_among(slots, journal.records.as_slice())),
        // A cell that keeps records causes no other fault.
        Err(_) => Err(AllocError),
    }
}

fn recorded_among(slots: &ListedRows<usize>, records: &[Record]) -> Recorded {
    let count = records.len();
    match records.last() {
        Some(record) => Recorded {
            count,
            last: Some(record.body),
            slot: slots.get(&record.slot).copied(),
        },
        None => Recorded {
            count,
            last: None,
            slot: None,
        },
    }
}
