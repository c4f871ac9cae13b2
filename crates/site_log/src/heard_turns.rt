//! What came in the turns of a batch, and what a line of the site's is about.

use crate::request_text::asks_for;
use addresses::Address;
use std::alloc::{AllocError, Global};
use udp_site::Turn;

/// What came in a turn: a datagram from an address, or nothing.
#[derive(Drop)]
pub(crate) struct Heard {
    pub(crate) from: Option<Address>,
    /// Empty too where there was no memory for them.
    pub(crate) bytes: Vec<u8>,
}

/// What a line is about.
#[derive(Drop)]
pub(crate) struct Subject<'a> {
    /// What came; none where there was no memory for it.
    pub(crate) heard: Option<&'a Heard>,
    /// How many other turns it is about as well.
    pub(crate) others: usize,
}

/// What came in the turns of the batch whose lines are written, and then of the batch that is taken
/// in. A site that takes its turns one by one marks no lines: then the last turn is the latter.
#[derive(Drop)]
pub(crate) struct HeardTurns {
    alloc: Global,
    heard: Vec<Heard>,
    /// How many lines there are after each turn of the batch whose lines are written.
    marks: Vec<usize>,
    /// How many of these lines were written.
    written: usize,
    /// Whether the last of those that are taken in is for the batch after it.
    carries: bool,
    /// How many turns of the batch that is taken in come before the next folder that is read.
    passed: usize,
    /// The place of the turn whose folder is read, if that is known.
    reading: Option<usize>,
}

impl HeardTurns {
    /// Nothing came.
    pub(crate) fn new(alloc: Global) -> HeardTurns {
        HeardTurns {
            alloc,
            heard: Vec::new(alloc),
            marks: Vec::new(alloc),
            written: 0,
            carries: false,
            passed: 0,
            reading: None,
        }
    }

    /// A batch begins with this turn, for which was waited.
    pub(crate) fn begins(&mut self, turn: &Turn) {
        self.heard.truncate(self.marks.len());
        self.starts();
        self.joins(turn);
    }

    /// This came too, for the batch that is taken in or the next.
    pub(crate) fn joins(&mut self, turn: &Turn) {
        let heard = heard_of(self.alloc, turn);
        if self.heard.push(heard).is_err() {
            // Without all of them it isn't known which line is about what.
            self.forget();
        }
    }

    /// The lines of the batch that was taken in are written next. There are so many after each of
    /// its turns.
    pub(crate) fn speaks(&mut self, after: &[usize]) {
        let told = self.marks.len().min(self.heard.len());
        match self.heard.split_off(told) {
            Ok(later) => self.heard = later,
            Err(AllocError) => self.heard.clear(),
        }
        self.written = 0;
        self.marks.clear();
        self.starts();
        let room = self.heard.len() >= after.len();
        if !room || self.marks.extend_from_slice(after).is_err() {
            self.forget();
        }
    }

    /// The last that came is for the batch after the one that is taken in.
    pub(crate) fn carries_last(&mut self) {
        self.carries = true;
    }

    /// The folder of this path is read next, for a deposit of the batch that is taken in.
    pub(crate) fn reads(&mut self, federation: u64, path: &str) {
        let first = self.marks.len().saturating_add(self.passed);
        let alloc = self.alloc;
        let mut later = self.heard.iter().skip(first);
        let place = later.position(|it| asks_for(alloc, federation, it.bytes.as_slice(), path));
        self.reading = match place {
            Some(place) => Some(first.saturating_add(place)),
            None => None,
        };
        if let Some(place) = place {
            self.passed = self.passed.saturating_add(place).saturating_add(1);
        }
    }

    /// What asked for the deposit whose folder is read; if that isn't known, what came first.
    pub(crate) fn deposit(&self) -> Option<&Heard> {
        match self.reading {
            Some(place) => self.heard.get(place),
            None => self.taken_in(),
        }
    }

    /// A line was written.
    pub(crate) fn line_ends(&mut self) {
        self.written = self.written.saturating_add(1);
    }

    /// What the next line is about: the turn that it is of; or, where none is marked, the batch
    /// that is taken in.
    pub(crate) fn subject(&self) -> Subject<'_> {
        let written = self.written;
        match self.marks.iter().position(|after| written < *after) {
            Some(place) => Subject {
                heard: self.heard.get(place),
                others: 0,
            },
            None => Subject {
                heard: self.first_datagram(),
                others: self.others(),
            },
        }
    }

    // What came in the first turn of the batch that is taken in.
    fn taken_in(&self) -> Option<&Heard> {
        self.heard.get(self.marks.len())
    }

    // What came first for the batch that is taken in; if no datagram did, its first turn.
    fn first_datagram(&self) -> Option<&Heard> {
        let mut batch = self.heard.iter().skip(self.marks.len());
        match batch.find(|it| it.from.is_some()) {
            Some(first) => Some(first),
            None => self.taken_in(),
        }
    }

    // How many datagrams this batch has beside its first.
    fn others(&self) -> usize {
        let batch = self.heard.iter().skip(self.marks.len());
        let datagrams = batch.filter(|it| it.from.is_some()).count();
        let carried = usize::from(self.carries);
        datagrams.saturating_sub(carried).saturating_sub(1)
    }

    // Of the batch that is taken in no folder was read, and nothing is left for the next.
    fn starts(&mut self) {
        self.carries = false;
        self.passed = 0;
        self.reading = None;
    }

    fn forget(&mut self) {
        self.heard.clear();
        self.marks.clear();
        self.written = 0;
        self.starts();
    }
}

// What came in a turn.
fn heard_of(alloc: Global, turn: &Turn) -> Heard {
    let mut heard = Heard {
        from: None,
        bytes: Vec::new(alloc),
    };
    if let Turn::Got(from, bytes) = turn {
        heard.from = Some(*from);
        let _ = heard.bytes.extend_from_slice(bytes.as_slice());
    }
    heard
}
