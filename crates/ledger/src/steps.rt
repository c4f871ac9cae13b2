//! What the bytes of a cell say next.

ghost use Rattle.std.specs.Prelude.{◌≡◌, ◌≤◌, ◌+◌, ℕ, List, IfOk, IfSome, length, drop};
ghost use Rattle.ledger.specs.Cells.{HasNoOwner};
ghost use Rattle.ledger.specs.Parts.{Told, nothing, IsTold, TellsLast};
ghost use Rattle.ledger.specs.inner.Steps.{text_end, KeepsFirst, KeepsNext, ending_after};
ghost use Rattle.ledger.specs.inner.Steps.{IsLastPart, IsNextPart, IsPartOf, IsStep};

use crate::contents::Contents;
use crate::ending::Ending;
use crate::headless::headless_ending;
use crate::part::{Head, LastPart, Part};
use crate::read::{ending_at, read_contents};
use fed_types::MOST_MEMBERS;
use records::{FRONT, MoreRecords, Owner, read_more};
use std::alloc::{AllocError, Global};

/// A part, and what is kept after it.
#[derive(Debug, Drop)]
pub(crate) struct Kept {
    pub part: Part,
    pub owner: Owner,
    /// How many bytes of the cell were read as headers and records.
    pub passed: usize,
    /// What follows the last record.
    pub bytes: Vec<u8>,
}

/// What bytes say.
#[derive(Debug, Drop)]
pub(crate) enum Step {
    /// Nothing, before there are more.
    Wait,
    Next(Kept),
    /// The last part, whatever follows.
    End(LastPart),
}

// Where headers and records end in a cell of `len` bytes with this ending, unless it is damaged.
fn text_end(ending: Ending, len: usize) -> Option<usize>
    ensures { result ≡ text_end ending len }
{
    match ending {
        Ending::Whole => Some(len),
        Ending::Torn(count) => Some(len.saturating_sub(count)),
        Ending::Damaged(_) => None,
    }
}

// The part that says what these contents do.
fn part_of(contents: Contents) -> Part
    ensures { IsPartOf contents result }
{
    Part {
        head: Some(Head {
            owner: contents.owner,
            names_weights: contents.names_weights,
        }),
        records: contents.records,
    }
}

// The last part of a cell of which nothing was given before.
fn last_of(contents: Contents) -> LastPart
    ensures { IsPartOf contents result.part × (result.ending ≡ contents.ending) }
{
    let ending = contents.ending;
    LastPart {
        part: part_of(contents),
        ending,
    }
}

// What the bytes of a cell say that names the weights and isn't damaged.
fn begin_with(
    alloc: Global,
    contents: Contents,
    bytes: &[u8],
    end: usize,
) -> Result<Kept, AllocError>
    requires { end ≤ length bytes.now }
    ensures { IfOk result (KeepsFirst contents end (drop end bytes.now)) }
{
    let owner = contents.owner;
    let bytes = bytes[end..].to_vec(alloc)?;
    Ok(Kept {
        part: part_of(contents),
        owner,
        passed: end,
        bytes,
    })
}

/// The length of the longest header.
const LONGEST_HEADER: usize = FRONT + 1 + MOST_MEMBERS as usize;

// What bytes say that begin with no header. If there are enough of them for a header, it is sure
// that nothing that follows makes them a cell.
fn headless_step(alloc: Global, bytes: &[u8]) -> Step
    requires { HasNoOwner bytes.now }
    ensures { IsStep bytes.now nothing result }
{
    if bytes.len() < LONGEST_HEADER {
        return Step::Wait;
    }
    Step::End(LastPart {
        part: Part::new(alloc),
        ending: Ending::Damaged(0),
    })
}

/// What the first bytes of a cell say.
pub(crate) fn begin(alloc: Global, bytes: &[u8]) -> Result<Step, AllocError>
    ensures { IfOk result (IsStep bytes.now nothing) }
{
    let Some(contents) = read_contents(alloc, bytes)? else {
        return Ok(headless_step(alloc, bytes));
    };
    // Until the end, a header that names the weights may follow, and they are a part of the head.
    if !contents.names_weights {
        return Ok(Step::Wait);
    }
    match text_end(contents.ending, bytes.len()) {
        Some(end) => Ok(Step::Next(begin_with(alloc, contents, bytes, end)?)),
        None => Ok(Step::End(last_of(contents))),
    }
}

// How a cell ends after these records, before which so many of its bytes were passed.
fn ending_after(passed: usize, more: &MoreRecords, len: usize) -> Option<Ending>
    requires { more.now.end ≤ len }
    ensures { IfSome result (λ ending. ending ≡ ending_after passed more.now len) }
{
    if !more.is_damaged {
        return Some(ending_at(more.end, len));
    }
    let place = passed.checked_add(more.end)?;
    Some(Ending::Damaged(place))
}

// The part that says these records.
fn next_part(more: MoreRecords) -> Part
    ensures { IsNextPart more result }
{
    Part {
        head: None,
        records: more.records,
    }
}

// The last part of a cell, which says these records.
fn last_after(passed: usize, more: MoreRecords, len: usize) -> Result<LastPart, AllocError>
    requires { more.end ≤ len }
    ensures { IfOk result (IsLastPart more (ending_after passed more len)) }
{
    // No cell has so many bytes that their count doesn't fit a `usize`.
    let Some(ending) = ending_after(passed, &more, len) else {
        return Err(AllocError);
    };
    Ok(LastPart {
        part: next_part(more),
        ending,
    })
}

/// The last part of a cell: what comes after the last record that was given.
pub(crate) fn last_part(
    alloc: Global,
    owner: &Owner,
    passed: usize,
    bytes: &[u8],
) -> Result<LastPart, AllocError>
    ensures { IfOk result (λ last. (taken : List ℕ) (told : Told)
        → IsTold owner.now passed bytes.now taken told → TellsLast taken told last) }
{
    let more = read_more(alloc, bytes)?;
    last_after(passed, more, bytes.len())
}

// What is kept after these records, with which the bytes begin.
fn keep_after(
    alloc: Global,
    owner: &Owner,
    passed: usize,
    more: MoreRecords,
    bytes: &[u8],
) -> Result<Kept, AllocError>
    requires { more.end ≤ length bytes.now }
    ensures { IfOk result (KeepsNext owner.now more (passed + more.end)
        (drop more.end bytes.now)) }
{
    // No cell has so many bytes that their count doesn't fit a `usize`.
    let Some(passed) = passed.checked_add(more.end) else {
        return Err(AllocError);
    };
    let bytes = bytes[more.end..].to_vec(alloc)?;
    Ok(Kept {
        part: next_part(more),
        owner: *owner,
        passed,
        bytes,
    })
}

/// What more bytes of a cell say.
pub(crate) fn go_on(
    alloc: Global,
    owner: &Owner,
    passed: usize,
    bytes: &[u8],
) -> Result<Step, AllocError>
    ensures { IfOk result (λ step. (taken : List ℕ) (told : Told)
        → IsTold owner.now passed bytes.now taken told → IsStep taken told step) }
{
    let more = read_more(alloc, bytes)?;
    if more.is_damaged {
        return Ok(Step::End(last_after(passed, more, bytes.len())?));
    }
    Ok(Step::Next(keep_after(alloc, owner, passed, more, bytes)?))
}

/// All that a cell says, or bytes that begin with no header.
pub(crate) fn whole_part(alloc: Global, bytes: &[u8]) -> Result<LastPart, AllocError>
    ensures { IfOk result (TellsLast bytes.now nothing) }
{
    match read_contents(alloc, bytes)? {
        Some(contents) => Ok(last_of(contents)),
        None => Ok(LastPart {
            part: Part::new(alloc),
            ending: headless_ending(bytes),
        }),
    }
}
