//! The federation is run, and what happens is noted.

use crate::event::{Deed, Event};
use crate::notes::Notes;
use crate::planned::{event_at, event_of, slot_in};
use crate::story::Story;
use records::Entry;
use schedule::{Command, Schedule};
use simulator::Federation;
use std::alloc::{AllocError, Global};

/// Runs a schedule, and says what happened. It fails only if memory runs out.
pub fn tell(alloc: Global, schedule: &Schedule) -> Result<Story, AllocError> {
    let mut federation = Federation::new(alloc, schedule.members())?;
    let mut notes = Notes::new(alloc, schedule.members())?;
    let first = schedule.first_line();
    for (index, line) in schedule.lines().iter().enumerate() {
        federation = run_line(federation, &mut notes, first.saturating_add(index), line)?;
    }
    Ok(notes.end(federation.into_lines()))
}

fn run_line(
    federation: Federation,
    notes: &mut Notes,
    number: usize,
    line: &Option<Command>,
) -> Result<Federation, AllocError> {
    match line {
        None => Ok(federation),
        Some(Command::Pump { turns }) => pump(federation, notes, number, *turns),
        Some(command) => {
            let mut event = event_of(number, command);
            if let Some(slot) = slot_in(command) {
                event.slot = Some(notes.slot_place(slot)?);
            }
            if let Command::File { path, .. } = command {
                event.path = Some(notes.path_place(path.as_str())?);
            }
            run_event(federation, notes, event, line)
        }
    }
}

// Each turn is an event.
fn pump(
    federation: Federation,
    notes: &mut Notes,
    number: usize,
    turns: u32,
) -> Result<Federation, AllocError> {
    let mut federation = federation;
    let turn = Some(Command::Pump { turns: 1 });
    for _ in 0..turns {
        let Some(datagram) = notes.next_unnamed() else {
            return Ok(federation);
        };
        let mut event = event_at(number, Deed::Deliver, 0);
        event.number = datagram;
        federation = run_event(federation, notes, event, &turn)?;
    }
    Ok(federation)
}

fn run_event(
    federation: Federation,
    notes: &mut Notes,
    event: Event,
    command: &Option<Command>,
) -> Result<Federation, AllocError> {
    // The checker of borrows has to know each type that an event holds.
    let _entry: Option<Entry> = None;
    let event = notes.begin(event)?;
    let federation = federation.run_line(event.line, command)?;
    notes.end_event(event, &federation)?;
    Ok(federation)
}
