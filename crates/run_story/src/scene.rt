//! Sentences with blanks. A blank is a dollar sign and a letter, which says what goes there:
//!
//! - of an event: `l` its line, `s` its site, `n` its number, `k` the number in its fate, `a` its
//!   slot, after a space, `u` the same where the story has several, `d` how many datagrams had been
//!   sent before, `z` how many it sent, `c` with how many records a site starts, `e` why one
//!   refused, `x` the ballot for which it refuses, `p` the path of the file that it adds;
//! - of its record: `R` the round, `B` the ballot; and `t` the tree of what it or the line names;
//! - of a datagram: `o` its slot, after a space, where the story has several, `f` the site that it
//!   comes from, `b` its ballot, `v` the other ballot that it names, `r` the round of that, `g` the
//!   tree;
//! - of a count: `h` how much was heard, `q` how much is needed, `w` the highest ballot;
//! - of the members: `m` how many they are.

use crate::datagram::Datagram;
use crate::event::Event;
use crate::story::{Count, Story};
use fed_types::{Ballot, Slot};
use lines::Line;
use records::Entry;
use schedule::Fate;
use std::alloc::AllocError;
use tokens::{push_escaped, push_slot};

/// What the blanks of a sentence are about.
#[derive(Clone, Copy)]
pub struct Scene<'a> {
    pub story: &'a Story,
    pub event: &'a Event,
    pub datagram: Option<&'a Datagram>,
    pub count: Option<Count>,
}

impl<'a> Scene<'a> {
    /// The scene of the event at a place, with the datagram that it delivered, or else the first
    /// that it sent.
    pub fn of(story: &'a Story, place: usize, event: &'a Event) -> Scene<'a> {
        let delivered = story.delivered(event);
        Scene {
            story,
            event,
            datagram: if delivered.is_some() {
                delivered
            } else {
                story.first_sent(event)
            },
            count: story.count_at(place),
        }
    }
}

impl Scene<'_> {
    /// Appends a sentence, its blanks filled in.
    pub fn say(&self, text: &mut String, sentence: &str) -> Result<(), AllocError> {
        let mut is_blank = false;
        for character in sentence.chars() {
            if is_blank {
                self.fill(text, character)?;
                is_blank = false;
            } else if character == '$' {
                is_blank = true;
            } else {
                text.push(character)?;
            }
        }
        Ok(())
    }

    fn fill(&self, text: &mut String, letter: char) -> Result<(), AllocError> {
        match letter {
            'a' | 'o' | 'u' => self.push_slot(text, letter),
            'b' | 'v' | 'w' | 'x' | 'B' => push_ballot(text, self.ballot(letter)),
            'e' => self.push_fault(text),
            'p' => push_escaped(text, self.path()),
            _ => push_number(text, self.number(letter)),
        }
    }

    fn number(&self, letter: char) -> usize {
        match letter {
            'l' => self.event.line,
            's' => usize::from(self.event.site),
            'n' => self.event.number,
            'd' => self.event.sent_before,
            'z' => self.event.sent(),
            'c' => self.records(),
            't' => self.event.tree as usize,
            'k' => fate_number(self.event.fate),
            'R' => round_on(self.event),
            'm' => usize::from(self.story.members.count()),
            'q' => usize::from(self.story.quorum()),
            'h' => self.heard(),
            _ => self.number_of_datagram(letter),
        }
    }

    fn number_of_datagram(&self, letter: char) -> usize {
        let Some(datagram) = self.datagram else {
            return 0;
        };
        match letter {
            'f' => usize::from(datagram.from),
            'g' => datagram.tree as usize,
            'r' => round_of(datagram.other),
            _ => 0,
        }
    }

    /// The path of the file that the event adds, empty if it adds none.
    pub(crate) fn path(&self) -> &str {
        match self.event.path {
            Some(place) => self.story.path(place),
            None => "",
        }
    }

    /// How many records a site starts with.
    pub fn records(&self) -> usize {
        match self.story.line_of(self.event) {
            Some(Line::Up { records, .. }) => *records,
            _ => 0,
        }
    }

    fn heard(&self) -> usize {
        match self.count {
            Some(count) => usize::from(count.heard),
            None => 0,
        }
    }

    fn ballot(&self, letter: char) -> Option<Ballot> {
        match letter {
            'b' => self.datagram?.ballot,
            'v' => self.datagram?.other,
            'w' => self.count?.highest,
            'x' => self.story.first_sent(self.event)?.other,
            _ => ballot_on(self.event),
        }
    }

    fn push_slot(&self, text: &mut String, letter: char) -> Result<(), AllocError> {
        match self.slot(letter) {
            Some(slot) => {
                text.push(' ')?;
                push_slot(text, slot)
            }
            None => Ok(()),
        }
    }

    fn slot(&self, letter: char) -> Option<&Slot> {
        let place = match letter {
            'a' => self.event.slot,
            _ if !self.story.has_many_slots() => None,
            'u' => self.event.slot,
            _ => self.datagram?.slot,
        };
        self.story.slots.slots().get(place?)
    }

    fn push_fault(&self, text: &mut String) -> Result<(), AllocError> {
        match self.story.line_of(self.event) {
            Some(Line::Refused { fault, .. }) => write!(text, "{fault}"),
            _ => Ok(()),
        }
    }
}

fn push_number(text: &mut String, number: usize) -> Result<(), AllocError> {
    write!(text, "{number}")
}

// A ballot, as `(2, 1)`: the round, and the site.
fn push_ballot(text: &mut String, ballot: Option<Ballot>) -> Result<(), AllocError> {
    match ballot {
        Some(ballot) => write!(text, "({}, {})", ballot.round(), ballot.site().number()),
        None => Ok(()),
    }
}

fn fate_number(fate: Fate) -> usize {
    let number = match fate {
        Fate::Whole => 0,
        Fate::StopsIn(_, kept) => kept,
        Fate::StopsAfter(sent) => sent,
        Fate::FailsIn(_, kept) => kept,
    };
    number as usize
}

fn round_of(ballot: Option<Ballot>) -> usize {
    match ballot {
        Some(ballot) => ballot.round() as usize,
        None => 0,
    }
}

// The round that is put on record.
fn round_on(event: &Event) -> usize {
    match &event.record {
        Some(Entry::Round(round)) => round.number() as usize,
        _ => 0,
    }
}

// The ballot that is put on record.
fn ballot_on(event: &Event) -> Option<Ballot> {
    match &event.record {
        Some(Entry::Promise(ballot)) => Some(*ballot),
        Some(Entry::Vote(vote)) => Some(vote.ballot),
        _ => None,
    }
}
