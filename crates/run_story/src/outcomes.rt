//! The outcomes of events other than arrivals.

use crate::event::{Deed, Event, Outcome};
use crate::scene::Scene;
use records::Entry;

/// What came of it.
pub(crate) fn outcome(scene: &Scene<'_>) -> &'static str {
    let event = scene.event;
    match event.outcome {
        Outcome::Registered => registered(event),
        Outcome::Known => "site $s knows that bag $t was chosen",
        Outcome::Pending => "site $s knows of none; bag $t is its own deposit",
        Outcome::Nothing => "site $s knows of none, and has no deposit",
        Outcome::Dropped => { "site $s drops these bytes, which are no message of the federation" }
        Outcome::Up if scene.records() == 1 => {
            "site $s is up again, with 1 record; what it had heard is forgotten"
        }
        Outcome::Up => "site $s is up again, with $c records; what it had heard is forgotten",
        _ => interrupted_or_quiet(event),
    }
}

fn registered(event: &Event) -> &'static str {
    if event.record.is_some() {
        "bag $t is site $s's deposit from now on"
    } else {
        "bag $t is site $s's deposit already"
    }
}

// A call that prints nothing: a ballot is begun, or a question is asked.
fn interrupted_or_quiet(event: &Event) -> &'static str {
    match event.deed {
        Deed::Propose | Deed::Recover if event.is_done() => "site $s issues ballot $b",
        Deed::Ask if event.is_done() => "site $s asks site $n",
        _ => interruption(event),
    }
}

/// What kept the site from doing what it was called to do.
pub(crate) fn interruption(event: &Event) -> &'static str {
    match event.outcome {
        Outcome::Invalid | Outcome::Refused => "site $s refuses: $e",
        Outcome::Failed => {
            "the device of site $s fails: it forgets what it had heard, and has to be started again"
        }
        Outcome::Unopened => {
            "site $s does nothing: its device has failed, and it has to be started again"
        }
        Outcome::Down => "site $s stops",
        _ => "",
    }
}

/// The record that is in the cell since, if there is one more.
pub(crate) fn kept(event: &Event) -> &'static str {
    match &event.record {
        Some(Entry::Deposit(_)) => "; on record: deposit of bag $t",
        Some(Entry::Round(_)) => "; on record: round $R",
        Some(Entry::Promise(_)) => "; on record: promise $B",
        Some(Entry::Vote(_)) => "; on record: vote $B for bag $t",
        Some(Entry::Known(_)) => "; on record: known bag $t",
        None => "",
    }
}
