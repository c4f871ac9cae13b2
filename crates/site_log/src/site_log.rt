//! What is noted of a site, and when.

use crate::heard_turns::HeardTurns;
use crate::log_file::LogFile;
use crate::log_lines::{LogLines, Place, from_of};
use crate::minute::Minute;
use crate::moment::{minute_of, now};
use crate::tally::{Kind, Role, Sender, Tally};
use addresses::Address;
use bag_tree::TreeFault;
use fed_types::{Members, SiteNo};
use records::Record;
use std::alloc::AllocError;
use std::cell::RefCell;
use udp_site::Turn;

/// A log of a site, in a file. What can't be noted, out of memory or room, is left out: the site
/// goes on. Of one sender and kind no more than 60 lines a minute are written; the others are
/// counted, and a line says how many they were once the minute is over, or the site ends.
#[derive(Drop)]
pub struct SiteLog<'a> {
    rt: &'a HostRuntime,
    number: SiteNo,
    state: RefCell<State>,
}

/// What the next line needs.
#[derive(Drop)]
struct State {
    file: LogFile,
    /// Where the site serves; none before it does.
    place: Option<Place>,
    /// What came, and what the next line is about.
    heard: HeardTurns,
    /// The beginning of a line of the site's that isn't ended.
    begun: String,
    /// The last line that is ended; empty before the first, and after one that couldn't be noted.
    last: String,
    /// The lines of the present minute.
    minute: Minute,
}

impl<'a> SiteLog<'a> {
    /// A log of the site of this number, in the file of this path.
    pub fn open(rt: &'a HostRuntime, path: &str, number: SiteNo) -> SiteLog<'a> {
        let state = State {
            file: LogFile::open(rt, path),
            place: None,
            heard: HeardTurns::new(rt.alloc()),
            begun: String::new(rt.alloc()),
            last: String::new(rt.alloc()),
            minute: Minute::new(None),
        };
        SiteLog {
            rt,
            number,
            state: RefCell::new(state),
        }
    }

    /// The site is one of these members, at this address. Its port keeps so many bytes of
    /// datagrams, and makes tags by keys of these names, if it does.
    pub fn is_at(
        &self,
        members: Members,
        address: Address,
        buffer: Option<u32>,
        keys: Option<(u32, u32)>,
    ) {
        if let Ok(mut state) = self.state.try_borrow_mut() {
            state.place = Some(Place {
                members,
                address,
                buffer,
                keys,
            });
        }
    }

    /// The site begins to serve, with these records, at the port that it has.
    pub fn begins(&self, records: &[Record]) {
        if let Ok(mut state) = self.state.try_borrow_mut() {
            if let Some(place) = state.place {
                let line = self.lines().beginning(place, records);
                self.append(&mut state, line);
            }
        }
    }

    /// The site has ended: the log has what was left out of it.
    pub fn closes(&self) {
        if let Ok(mut state) = self.state.try_borrow_mut() {
            self.sum_up(&mut state);
        }
    }

    /// The site has ended, for the reason that these words say.
    pub fn ends(&self, why: &str) {
        if let Ok(mut state) = self.state.try_borrow_mut() {
            self.sum_up(&mut state);
            let line = self.lines().why(why);
            self.append(&mut state, line);
        }
    }

    /// So many lines were left out of standard output, whose reader stands still.
    pub fn blocked(&self, lines: u32) {
        if let Ok(mut state) = self.state.try_borrow_mut() {
            self.keep_time(&mut state);
            state.minute.blocked = state.minute.blocked.saturating_add(lines);
        }
    }

    /// The last line that the site has written; empty where there is none, or it wasn't noted.
    pub fn last_line(&self) -> Result<String, AllocError> {
        match self.state.try_borrow_mut() {
            Ok(state) => String::from_str(self.rt.alloc(), state.last.as_str()),
            Err(_) => Ok(String::new(self.rt.alloc())),
        }
    }

    /// The last line that the site has written, if that one ends it; else empty.
    pub fn last_words(&self) -> Result<String, AllocError> {
        let line = self.last_line()?;
        match Role::of(line.as_str()) {
            Role::Last => Ok(line),
            _ => Ok(String::new(self.rt.alloc())),
        }
    }

    /// The site waited, and this came: its next batch begins with it.
    pub(crate) fn begins_with(&self, turn: &Turn) {
        if let Ok(mut state) = self.state.try_borrow_mut() {
            self.keep_time(&mut state);
            state.heard.begins(turn);
        }
    }

    /// The site takes this in besides.
    pub(crate) fn takes_in(&self, turn: &Turn) {
        if let Ok(mut state) = self.state.try_borrow_mut() {
            state.heard.joins(turn);
        }
    }

    /// The next lines are those of the batch that was taken in, so many after each turn.
    pub(crate) fn will_note(&self, after: &[usize]) {
        if let Ok(mut state) = self.state.try_borrow_mut() {
            state.heard.speaks(after);
        }
    }

    /// What came last is taken in for a later batch.
    pub(crate) fn carries_last(&self) {
        if let Ok(mut state) = self.state.try_borrow_mut() {
            state.heard.carries_last();
        }
    }

    /// The folder of this path is read next.
    pub(crate) fn reads(&self, path: &str) {
        if let Ok(mut state) = self.state.try_borrow_mut() {
            if let Some(place) = state.place {
                state.heard.reads(place.members.federation(), path);
            }
        }
    }

    /// The folder that is read can't be, for this reason, at this place below it.
    pub(crate) fn unread(&self, fault: TreeFault, place: Option<&str>) {
        if let Ok(mut state) = self.state.try_borrow_mut() {
            let from = from_of(state.heard.deposit());
            if self.admits(&mut state, from, Kind::Unread) {
                let line = self
                    .lines()
                    .unread(state.place, state.heard.deposit(), fault, place);
                self.append(&mut state, line);
            }
        }
    }

    /// What these words say of the site, by itself.
    pub(crate) fn says(&self, words: &str) {
        if let Ok(mut state) = self.state.try_borrow_mut() {
            let line = self.lines().said(words);
            self.append(&mut state, line);
        }
    }

    /// The site has written this.
    pub(crate) fn wrote(&self, text: &[u8]) {
        if let Ok(mut state) = self.state.try_borrow_mut() {
            // Without room for all of it nothing is noted. At the end of each line the two change
            // places.
            let room = text.len();
            if state.begun.reserve(room).is_ok() && state.last.reserve(room).is_ok() {
                self.take_text(&mut state, text);
            } else {
                state.last.clear();
            }
        }
    }

    fn lines(&self) -> LogLines<'a> {
        LogLines {
            rt: self.rt,
            number: self.number,
        }
    }

    // At the end of each line it is noted.
    fn take_text(&self, state: &mut State, text: &[u8]) {
        for byte in text {
            if *byte == b'\n' {
                self.take_line(state);
                state.heard.line_ends();
                std::mem::swap(&mut state.begun, &mut state.last);
                state.begun.clear();
            } else {
                let _ = state.begun.push(char::from(*byte));
            }
        }
    }

    // The line that the site has written is noted, unless there were too many of its kind. Before
    // the one that ends the site comes what was left out.
    fn take_line(&self, state: &mut State) {
        let from = from_of(state.heard.subject().heard);
        let is_written = match Role::of(state.begun.as_str()) {
            Role::Counted(kind) => self.admits(state, from, kind),
            Role::Known => true,
            Role::Last => {
                self.sum_up(state);
                true
            }
        };
        if is_written {
            let subject = state.heard.subject();
            let line = self
                .lines()
                .written(state.place, subject, state.begun.as_str());
            self.append(state, line);
        }
    }

    // Whether a line of this kind is written, about what came from there.
    fn admits(&self, state: &mut State, from: Option<Address>, kind: Kind) -> bool {
        self.keep_time(state);
        let sender = match from {
            Some(address) => Sender::At(address),
            None => Sender::Nobody,
        };
        state.minute.admits(&sender, kind)
    }

    // Once the minute is over, the log has what was left out of it. Where the clock can't be read
    // it isn't over.
    fn keep_time(&self, state: &mut State) {
        let Some(time) = now(self.rt) else {
            return;
        };
        let number = minute_of(time);
        if state.minute.number != Some(number) {
            self.sum_up(state);
            state.minute = Minute::new(Some(number));
        }
    }

    // Notes what was left out in the minute, and counts anew.
    fn sum_up(&self, state: &mut State) {
        let minute = state.minute;
        state.minute = Minute::new(minute.number);
        for place in minute.own() {
            if let Some(tally) = place {
                self.note_left_out(state, &minute, tally);
            }
        }
        for tally in minute.others() {
            self.note_left_out(state, &minute, tally);
        }
        if minute.blocked > 0 {
            let line = self.lines().blocked(&minute);
            self.append(state, line);
        }
    }

    fn note_left_out(&self, state: &mut State, minute: &Minute, tally: &Tally) {
        if tally.left_out() > 0 {
            let line = self.lines().left_out(minute, tally);
            self.append(state, line);
        }
    }

    // Notes a line, unless there was no memory for it; before it how many couldn't be written, if
    // some couldn't.
    fn append(&self, state: &mut State, line: Result<String, AllocError>) {
        let lost = state.file.lost();
        let text = if lost > 0 {
            self.after_lost(lost, line)
        } else {
            line
        };
        if let Ok(mut text) = text {
            if text.push('\n').is_ok() {
                state.file.append(self.rt, text.as_str());
            }
        }
    }

    fn after_lost(
        &self,
        lost: u32,
        line: Result<String, AllocError>,
    ) -> Result<String, AllocError> {
        let mut text = self.lines().lost(lost)?;
        text.push('\n')?;
        text.push_str(line?.as_str())?;
        Ok(text)
    }
}
