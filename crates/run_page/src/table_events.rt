//! The events of a run in the table.

use crate::json::{push_name, push_number, push_string};
use fed_types::Ballot;
use lines::{Options, push_line};
use records::Entry;
use run_story::{Event, Outcome, Story, is_told, push_event};
use std::alloc::{AllocError, Global};

/// Appends the events that words are made of, each with its row in the picture.
pub(crate) fn push_events(
    alloc: Global,
    text: &mut String,
    story: &Story,
    options: Options,
    rows: &[usize],
) -> Result<(), AllocError> {
    push_name(text, "events")?;
    text.push('[')?;
    let mut between = "\n";
    for (place, event) in story.events.iter().enumerate() {
        if is_told(event) {
            text.push_str(between)?;
            push_words(alloc, text, story, place)?;
            push_printed(alloc, text, story, options, event)?;
            push_effect(text, story, event)?;
            push_number(text, "row", rows.get(place).copied().unwrap_or(0), "}")?;
            between = ",\n";
        }
    }
    text.push_str("]")
}

// What the event did, in words.
fn push_words(
    alloc: Global,
    text: &mut String,
    story: &Story,
    place: usize,
) -> Result<(), AllocError> {
    let mut words = String::new(alloc);
    if let Some(event) = story.events.get(place) {
        push_event(&mut words, story, place, event)?;
    }
    text.push('{')?;
    push_string(text, "says", words.as_str(), ", ")
}

// The line that it printed, without its end.
fn push_printed(
    alloc: Global,
    text: &mut String,
    story: &Story,
    options: Options,
    event: &Event,
) -> Result<(), AllocError> {
    let mut line = String::new(alloc);
    if let Some(said) = story.line_of(event) {
        push_line(alloc, &mut line, options, said)?;
    }
    let words = line.as_str();
    let printed = words.strip_suffix("\n").unwrap_or(words);
    push_string(text, "prints", printed, ", ")
}

// What it changed: how its site is since, datagrams, and the site's records.
fn push_effect(text: &mut String, story: &Story, event: &Event) -> Result<(), AllocError> {
    let arrival = match (story.delivered(event), event.outcome) {
        (Some(_), Outcome::Skipped(_)) => [0, event.number],
        (Some(_), _) => [event.number, 0],
        (None, _) => [0, 0],
    };
    let [arrives, lost] = arrival;
    push_number(text, "site", usize::from(event.site), ", ")?;
    push_string(text, "mode", mode(event), ", ")?;
    push_number(text, "arrives", arrives, ", ")?;
    push_number(text, "lost", lost, ", ")?;
    push_number(text, "sends", event.sent(), ", ")?;
    push_record(text, event)
}

// How the site is since, if it is otherwise than before.
fn mode(event: &Event) -> &'static str {
    match event.outcome {
        Outcome::Down => "down",
        Outcome::Failed => "failed",
        Outcome::Up => "up",
        _ => "",
    }
}

// The record that is in the site's cell since.
fn push_record(text: &mut String, event: &Event) -> Result<(), AllocError> {
    push_name(text, "record")?;
    match (&event.record, event.record_slot) {
        (Some(entry), Some(version)) => {
            text.push('{')?;
            push_string(text, "kind", kind(entry), ", ")?;
            push_number(text, "version", version, ", ")?;
            push_ballot(text, ballot(entry))?;
            push_number(text, "round", round(entry), ", ")?;
            push_number(text, "bag", bag(event, entry), "}, ")
        }
        _ => text.push_str("null, "),
    }
}

fn push_ballot(text: &mut String, ballot: Option<Ballot>) -> Result<(), AllocError> {
    push_name(text, "ballot")?;
    match ballot {
        Some(ballot) => {
            let round = ballot.round();
            let site = ballot.site().number();
            write!(text, "[{round}, {site}], ")
        }
        None => text.push_str("null, "),
    }
}

fn kind(entry: &Entry) -> &'static str {
    match entry {
        Entry::Deposit(_) => "deposit",
        Entry::Round(_) => "round",
        Entry::Promise(_) => "promise",
        Entry::Vote(_) => "vote",
        Entry::Known(_) => "known",
    }
}

fn ballot(entry: &Entry) -> Option<Ballot> {
    match entry {
        Entry::Promise(ballot) => Some(*ballot),
        Entry::Vote(vote) => Some(vote.ballot),
        Entry::Deposit(_) | Entry::Round(_) | Entry::Known(_) => None,
    }
}

fn round(entry: &Entry) -> usize {
    match entry {
        Entry::Round(round) => round.number() as usize,
        _ => 0,
    }
}

// The tree of the bag that the record names, 0 where it names none.
fn bag(event: &Event, entry: &Entry) -> usize {
    match entry {
        Entry::Round(_) | Entry::Promise(_) => 0,
        _ => event.tree as usize,
    }
}
