//! The lines of a site's log: each with its time, and the address from which came what it is about.

use crate::heard_turns::{Heard, Subject};
use crate::minute::Minute;
use crate::moment::{end_of, minute_of, moment_text, now, text_of};
use crate::request_text::{push_word, request_text};
use crate::shown_address::{At, ShownPlace};
use crate::tally::{Sender, Tally};
use addresses::Address;
use bag_tree::TreeFault;
use fed_types::{Members, SiteNo};
use records::{Entry, Record};
use std::alloc::AllocError;
use udp_site::WANTED_BUFFER;

/// Where a site serves.
#[derive(Clone, Copy)]
pub(crate) struct Place {
    pub(crate) members: Members,
    pub(crate) address: Address,
    /// How many bytes of datagrams its port keeps, if that is known.
    pub(crate) buffer: Option<u32>,
    /// The names of the keys of its datagrams, if they have tags.
    pub(crate) keys: Option<(u32, u32)>,
}

/// What makes the lines of the site of this number.
#[derive(Clone, Copy)]
pub(crate) struct LogLines<'a> {
    pub(crate) rt: &'a HostRuntime,
    pub(crate) number: SiteNo,
}

impl LogLines<'_> {
    /// `log: N dropped in this minute (KIND)`
    pub(crate) fn left_out(&self, minute: &Minute, tally: &Tally) -> Result<String, AllocError> {
        let alloc = self.rt.alloc();
        let mut line = self.time_of_summary(minute)?;
        match tally.sender {
            Sender::Nobody => line.push_str(" - ")?,
            Sender::At(address) => write!(line, " {} ", At(address))?,
            Sender::Others => line.push_str(" * ")?,
        }
        let count = tally.left_out();
        let kind = tally.kind.word();
        write!(line, "log: {count} dropped in this minute ({kind})")?;
        Ok(line)
    }

    /// `output: N dropped in this minute`
    pub(crate) fn blocked(&self, minute: &Minute) -> Result<String, AllocError> {
        let mut line = self.time_of_summary(minute)?;
        let count = minute.blocked;
        write!(line, " - output: {count} dropped in this minute")?;
        Ok(line)
    }

    /// `log: N lost while it couldn't be written`
    pub(crate) fn lost(&self, count: u32) -> Result<String, AllocError> {
        let mut line = self.heading(None)?;
        write!(line, "log: {count} lost while it couldn't be written")?;
        Ok(line)
    }

    // The last moment of the minute, or the present one, if that comes first.
    fn time_of_summary(&self, minute: &Minute) -> Result<String, AllocError> {
        let alloc = self.rt.alloc();
        let present = now(self.rt);
        match (minute.number, present) {
            (Some(number), Some(time)) if number < minute_of(time) => {
                text_of(alloc, end_of(number))
            }
            _ => text_of(alloc, present),
        }
    }

    /// `WORDS`, by itself.
    pub(crate) fn said(&self, words: &str) -> Result<String, AllocError> {
        let mut line = self.heading(None)?;
        line.push_str(words)?;
        Ok(line)
    }

    /// `serves site S of N, federation F, port P, R records, K known, buffer B, keys NAME NAME`
    pub(crate) fn beginning(&self, place: Place, records: &[Record]) -> Result<String, AllocError> {
        let Place {
            members,
            address,
            buffer,
            keys,
        } = place;
        let mut line = self.heading(None)?;
        let site = self.number.number();
        let count = members.count();
        let federation = members.federation();
        write!(
            line,
            "serves site {site} of {count}, federation {federation}, {}, ",
            ShownPlace(address)
        )?;
        let kept = records.len();
        let known = records.iter().filter(|it| is_known(it)).count();
        write!(line, "{kept} records, {known} known")?;
        if let Some(bytes) = buffer {
            push_buffer(&mut line, bytes)?;
        }
        if let Some((sites, clients)) = keys {
            write!(line, ", keys {sites:08x} {clients:08x}")?;
        }
        Ok(line)
    }

    /// `why: WORDS`
    pub(crate) fn why(&self, why: &str) -> Result<String, AllocError> {
        let mut line = self.heading(None)?;
        write!(line, "why: {why}")?;
        Ok(line)
    }

    /// The line that the site has written, and after `refused` what was asked for; where a whole
    /// batch was refused, also how many other datagrams it had.
    pub(crate) fn written(
        &self,
        place: Option<Place>,
        subject: Subject<'_>,
        written: &str,
    ) -> Result<String, AllocError> {
        let Subject { heard, others } = subject;
        let mut line = self.heading(from_of(heard))?;
        line.push_str(written)?;
        if written.starts_with("refused") {
            self.push_request(&mut line, place, heard)?;
            if others > 0 {
                write!(line, " and {others} more")?;
            }
        }
        Ok(line)
    }

    /// `unread S CODE`, the request, and the place.
    pub(crate) fn unread(
        &self,
        place: Option<Place>,
        heard: Option<&Heard>,
        fault: TreeFault,
        found_at: Option<&str>,
    ) -> Result<String, AllocError> {
        let mut line = self.heading(from_of(heard))?;
        let site = self.number.number();
        let code = 20 + u32::from(fault.number());
        write!(line, "unread {site} {code}")?;
        self.push_request(&mut line, place, heard)?;
        if let Some(path) = found_at {
            push_word(&mut line, path)?;
        }
        Ok(line)
    }

    fn push_request(
        &self,
        line: &mut String,
        place: Option<Place>,
        heard: Option<&Heard>,
    ) -> Result<(), AllocError> {
        let (Some(place), Some(heard)) = (place, heard) else {
            return Ok(());
        };
        let federation = place.members.federation();
        let request = request_text(self.rt.alloc(), federation, heard.bytes.as_slice())?;
        if request.is_empty() {
            return Ok(());
        }
        line.push(' ')?;
        line.push_str(request.as_str())
    }

    // The time, and the address from which came what the line is about; `-` where nothing came.
    fn heading(&self, from: Option<Address>) -> Result<String, AllocError> {
        let alloc = self.rt.alloc();
        let moment = moment_text(alloc, self.rt)?;
        match from {
            Some(address) => format!(in alloc; "{moment} {} ", At(address)),
            None => format!(in alloc; "{moment} - "),
        }
    }
}

/// From where it came; from nowhere in an idle turn.
pub(crate) fn from_of(heard: Option<&Heard>) -> Option<Address> {
    match heard {
        Some(heard) => heard.from,
        None => None,
    }
}

fn is_known(record: &Record) -> bool {
    matches!(record.body, Entry::Known(_))
}

// How many bytes of datagrams the system keeps, and where that is less than was asked for, the
// command that raises its limit.
fn push_buffer(line: &mut String, bytes: u32) -> Result<(), AllocError> {
    write!(line, ", buffer {bytes}")?;
    if bytes < WANTED_BUFFER {
        write!(
            line,
            " (for more: sysctl net.core.rmem_max={WANTED_BUFFER})"
        )?;
    }
    Ok(())
}
