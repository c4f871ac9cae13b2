//! The text of what a cell says.

ghost use Rattle.std.specs.Prelude.{IfOk, ◌≡◌, ◌++◌, string_bytes};
ghost use Rattle.std.specs.List.{flat_map};
ghost use Rattle.tokens.specs.Pushes.{Pushes};
ghost use Rattle.ledger.specs.Lines.{ending_line, owner_line, records_text};
ghost use Rattle.ledger.specs.Lines.{weight_word, weight_words};
ghost use Rattle.ledger.specs.Pieces.{head_line, part_text};

use crate::ending::Ending;
use crate::part::{Head, LastPart, Part};
use crate::record_line::push_record;
use records::{Owner, Record};
use std::alloc::{AllocError, Global};

// The weights, with a space before each.
fn push_weights(text: &mut String, weights: &[u8]) -> Result<(), AllocError>
    ensures { Pushes result text.old text.new (flat_map weight_word weights.now) }
{
    for weight in weights {
        write!(text, " {weight}")?;
    }
    Ok(())
}

// The weights, where a header names them.
fn push_named(text: &mut String, owner: &Owner, named: bool) -> Result<(), AllocError>
    ensures { Pushes result text.old text.new (weight_words owner.now named) }
{
    if !named {
        return Ok(());
    }
    push_weights(text, owner.members.weights())
}

/// Appends the line for whose cell it is, with the weights if a header names them.
#[tactic(auto, unfolding(crate::specs::Lines::owner_line), using(std::proofs::Common::append_assoc))]
pub(crate) fn push_owner(text: &mut String, owner: &Owner, named: bool) -> Result<(), AllocError>
    ensures { Pushes result text.old text.new (owner_line owner.now named) }
{
    let federation = owner.members.federation();
    let number = owner.site.number();
    write!(text, "cell {federation} {number}")?;
    push_named(text, owner, named)?;
    text.push('\n')
}

/// Appends the lines of the records.
#[tactic(auto, unfolding(crate::specs::Lines::records_text))]
pub(crate) fn push_records(
    alloc: Global,
    text: &mut String,
    records: &[Record],
) -> Result<(), AllocError>
    ensures { Pushes result text.old text.new (records_text records.now) }
{
    for kept in records {
        push_record(alloc, text, kept)?;
    }
    Ok(())
}

/// Appends the line of how the cell ends, if it has one.
pub(crate) fn push_ending(text: &mut String, ending: Ending) -> Result<(), AllocError>
    ensures { Pushes result text.old text.new (ending_line ending) }
{
    match ending {
        Ending::Whole => Ok(()),
        Ending::Torn(count) => write!(text, "torn {count}\n"),
        Ending::Damaged(place) => write!(text, "damaged {place}\n"),
    }
}

// The line of a head, if there is one.
fn push_head(text: &mut String, head: &Option<Head>) -> Result<(), AllocError>
    ensures { Pushes result text.old text.new (head_line head.now) }
{
    match head {
        Some(head) => push_owner(text, &head.owner, head.names_weights),
        None => Ok(()),
    }
}

/// The lines of a part of a cell. It fails only where memory runs out.
#[tactic(auto, using(std::proofs::Common::append_assoc))]
pub(crate) fn part_text(alloc: Global, part: &Part) -> Result<String, AllocError>
    ensures { IfOk result (λ text. string_bytes text ≡ part_text part.now) }
{
    let mut text = String::new(alloc);
    push_head(&mut text, &part.head)?;
    push_records(alloc, &mut text, &part.records)?;
    Ok(text)
}

/// The lines of the last part of a cell. It fails only where memory runs out.
pub(crate) fn last_text(alloc: Global, last: &LastPart) -> Result<String, AllocError>
    ensures { IfOk result (λ text. string_bytes text
        ≡ part_text last.now.part ++ ending_line last.now.ending) }
{
    let mut text = part_text(alloc, &last.part)?;
    push_ending(&mut text, last.ending)?;
    Ok(text)
}
