//! What a command asks for, before it is run.

use crate::event::{Deed, Event, Outcome};
use fed_types::Slot;
use schedule::{Call, Command, Fate, TreeNo};

/// The event of a command that is no pump, on the line of this number, as far as the command says.
pub(crate) fn event_of(line: usize, command: &Command) -> Event {
    match command {
        Command::Call { call, fate } => event_of_call(line, call, *fate),
        Command::Query { site, .. } => event_at(line, Deed::Query, *site),
        Command::Raw { site, .. } => event_at(line, Deed::Raw, *site),
        Command::Stop { site } => event_at(line, Deed::Stop, *site),
        Command::Start { site } => event_at(line, Deed::Start, *site),
        Command::Tree { tree } => event_of_tree(line, Deed::Tree, *tree),
        Command::Folder { tree } => event_of_tree(line, Deed::Folder, *tree),
        Command::File { tree, .. } => event_of_tree(line, Deed::File, *tree),
        Command::Pump { .. } => event_at(line, Deed::Deliver, 0),
    }
}

fn event_of_tree(line: usize, deed: Deed, tree: TreeNo) -> Event {
    let mut event = event_at(line, deed, 0);
    event.number = tree.number() as usize;
    event
}

fn event_of_call(line: usize, call: &Call, fate: Fate) -> Event {
    let (deed, site, number) = match call {
        Call::Deposit { site, tree, .. } => (Deed::Deposit, *site, tree.number()),
        Call::Propose { site, .. } => (Deed::Propose, *site, 0),
        Call::Recover { site, .. } => (Deed::Recover, *site, 0),
        Call::Ask { site, to, .. } => (Deed::Ask, *site, u32::from(*to)),
        Call::Deliver { datagram } => (Deed::Deliver, 0, *datagram),
    };
    let mut event = event_at(line, deed, site);
    event.number = number as usize;
    event.fate = fate;
    event
}

/// An event at a site.
pub(crate) fn event_at(line: usize, deed: Deed, site: u8) -> Event {
    Event {
        line,
        deed,
        number: 0,
        path: None,
        fate: Fate::Whole,
        site,
        slot: None,
        outcome: Outcome::Done,
        said: None,
        sent_before: 0,
        sent_after: 0,
        record: None,
        record_slot: None,
        was_unopened: false,
        tree: 0,
    }
}

/// The slot that a command names.
pub(crate) fn slot_in(command: &Command) -> Option<&Slot> {
    match command {
        Command::Call { call, .. } => match call {
            Call::Deposit { slot, .. } => Some(slot),
            Call::Propose { slot, .. } => Some(slot),
            Call::Recover { slot, .. } => Some(slot),
            Call::Ask { slot, .. } => Some(slot),
            Call::Deliver { .. } => None,
        },
        Command::Query { slot, .. } => Some(slot),
        _ => None,
    }
}
