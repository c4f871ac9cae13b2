//! Records in words.

use book::{Entry, Record};
use fed_types::Ballot;
use std::alloc::AllocError;

/// Appends what the records say, in order, their slots and bags left out; `none` where there are
/// none.
pub fn push_records(text: &mut String, records: &[Record]) -> Result<(), AllocError> {
    if records.is_empty() {
        return text.push_str("none");
    }
    for (place, record) in records.iter().enumerate() {
        push_record(text, place, record)?;
    }
    Ok(())
}

fn push_record(text: &mut String, place: usize, record: &Record) -> Result<(), AllocError> {
    if place > 0 {
        text.push_str(" ")?;
    }
    push_entry(text, &record.body)
}

fn push_entry(text: &mut String, entry: &Entry) -> Result<(), AllocError> {
    match entry {
        Entry::Deposit(_) => text.push_str("Deposit"),
        Entry::Round(round) => {
            let number = round.number();
            write!(text, "Round{number}")
        }
        Entry::Promise(ballot) => push_ballot(text, "Promise", *ballot),
        Entry::Vote(vote) => push_ballot(text, "Vote", vote.ballot),
        Entry::Known(_) => text.push_str("Known"),
    }
}

fn push_ballot(text: &mut String, name: &str, ballot: Ballot) -> Result<(), AllocError> {
    let round = ballot.round();
    let site = ballot.site().number();
    write!(text, "{name}({round},{site})")
}
