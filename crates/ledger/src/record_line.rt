//! The line of a record.

ghost use Rattle.std.specs.Prelude.{◌≡◌};
ghost use Rattle.tokens.specs.Pushes.{Pushes};
ghost use Rattle.ledger.specs.Lines.{kind_text, entry_text, record_line};

use records::{Entry, Record};
use std::alloc::{AllocError, Global};
use tokens::{push_bag, push_ballot, push_slot, push_vote};

// What a record is.
fn kind_text(entry: &Entry) -> &'static str
    ensures { result.now ≡ kind_text entry.now }
{
    match entry {
        Entry::Deposit(_) => "deposit ",
        Entry::Round(_) => "round ",
        Entry::Promise(_) => "promise ",
        Entry::Vote(_) => "vote ",
        Entry::Known(_) => "known ",
    }
}

// What a record says of its slot.
#[tactic(auto, using(std::proofs::Common::append_assoc))]
fn push_entry(alloc: Global, text: &mut String, entry: &Entry) -> Result<(), AllocError>
    ensures { Pushes result text.old text.new (entry_text entry.now) }
{
    match entry {
        Entry::Deposit(bag) | Entry::Known(bag) => push_bag(alloc, text, *bag),
        Entry::Round(round) => {
            let number = round.number();
            write!(text, " {number}")
        }
        Entry::Promise(ballot) => push_ballot(text, *ballot),
        Entry::Vote(vote) => push_vote(alloc, text, *vote),
    }
}

/// Appends the line of a record.
#[tactic(auto, unfolding(crate::specs::Lines::record_line), using(std::proofs::Common::append_assoc))]
pub(crate) fn push_record(alloc: Global, text: &mut String, kept: &Record) -> Result<(), AllocError>
    ensures { Pushes result text.old text.new (record_line kept.now) }
{
    text.push_str(kind_text(&kept.body))?;
    push_slot(text, &kept.slot)?;
    push_entry(alloc, text, &kept.body)?;
    text.push('\n')
}
