//! What the bytes of a cell say.

ghost use Rattle.std.specs.Prelude.{◌≡◌, ◌≤◌, ◌-◌, ◌+◌, IfOk, MatchOption, length};
ghost use Rattle.records.specs.Journals.{HasEnd, HasHeader};
ghost use Rattle.ledger.specs.Cells.{HasNoOwner, IsCell, Said, IsSaid, EndsAt};
ghost use Rattle.ledger.specs.inner.Named.{IsHeadedBy};
ghost use Rattle.ledger.specs.inner.Found.{IsDamageFound, IsDamageIn, IsAllFound};
ghost use Rattle.ledger.specs.inner.Found.{IsAllAfter};
ghost use Rattle.ledger.specs.inner.Found.{AreRecordsRead, IsTextRead, ending_of};

use crate::contents::Contents;
use crate::ending::Ending;
use crate::named::{header_members, owner_of};
use crate::sizes::pass_sizes;
use fed_types::Members;
use records::{FRONT, JournalFault, Owner, Record, read_journal};
use std::alloc::{AllocError, Global};

/// The members that a cell names, and where its last record or header ends.
#[derive(Clone, Copy, Debug)]
pub(crate) struct Found {
    /// The owner's, where no header names them.
    pub members: Members,
    /// Whether a header names them.
    pub named: bool,
    pub end: usize,
}

// The place from which the bytes are damaged, if they are.
fn find_damage(alloc: Global, owner: &Owner, bytes: &[u8]) -> Result<Option<usize>, AllocError>
    requires { IsHeadedBy owner.now bytes.now }
    ensures { IfOk result (IsDamageFound owner.now bytes.now) }
{
    match read_journal(alloc, owner, bytes) {
        Ok(_) => Ok(None),
        Err(fault) => damage_in(fault),
    }
}

// The place from which a fault says that the bytes are damaged, if it does.
fn damage_in(fault: JournalFault) -> Result<Option<usize>, AllocError>
    ensures { IsDamageIn fault result }
{
    match fault {
        JournalFault::Damaged(place) => Ok(Some(place)),
        JournalFault::Memory => Err(AllocError),
        JournalFault::OtherFederation | JournalFault::OtherSite | JournalFault::OtherWeights => {
            Ok(None)
        }
    }
}

// What comes after a header of the second layout with these members, which ends at this place.
fn found_after(bytes: &[u8], members: Members, place: usize) -> Found
    requires { place ≤ length bytes.now }
    ensures { IsAllAfter bytes.now members place result }
{
    Found {
        members,
        named: true,
        end: place + pass_sizes(&bytes[place..]),
    }
}

// The same, where a header of the first layout comes first.
fn find_second(alloc: Global, owner: &Owner, bytes: &[u8]) -> Result<Found, AllocError>
    requires headed { IsHeadedBy owner.now bytes.now }
    requires long { FRONT ≤ length bytes.now }
    requires not_second { ¬ HasHeader owner.now bytes.now }
    ensures { IfOk result (IsAllFound owner.now bytes.now) }
{
    let place = FRONT + pass_sizes(&bytes[FRONT..]);
    match header_members(alloc, owner, &bytes[place..])? {
        Some(named) => Ok(found_after(bytes, named, place + header_size(named))),
        None => Ok(Found {
            members: owner.members,
            named: false,
            end: place,
        }),
    }
}

// How many bytes a header of the second layout with these members has.
fn header_size(members: Members) -> usize
    ensures { result ≡ 14 + length members.weights }
{
    FRONT + 1 + members.weights().len()
}

// Which members the bytes of a cell that isn't damaged name, and where its text ends.
fn find_all(alloc: Global, owner: &Owner, bytes: &[u8]) -> Result<Found, AllocError>
    requires { IsHeadedBy owner.now bytes.now }
    ensures { IfOk result (IsAllFound owner.now bytes.now) }
{
    match header_members(alloc, owner, bytes)? {
        Some(named) => Ok(found_after(bytes, named, header_size(named))),
        None => find_second(alloc, owner, bytes),
    }
}

/// The records of a cell that isn't damaged. Under the weights that it names it says records, so
/// this fails only if memory runs out.
pub(crate) fn read_all(
    alloc: Global,
    owner: &Owner,
    bytes: &[u8],
) -> Result<Vec<Record>, AllocError>
    ensures { IfOk result (λ records. AreRecordsRead owner.now bytes.now records.items) }
{
    match read_journal(alloc, owner, bytes) {
        Ok(journal) => Ok(journal.records),
        Err(_) => Err(AllocError),
    }
}

/// How a cell ends that isn't damaged.
pub(crate) fn ending_at(end: usize, len: usize) -> Ending
    requires { end ≤ len }
    ensures { result ≡ ending_of (len - end) }
{
    if end == len {
        Ending::Whole
    } else {
        Ending::Torn(len - end)
    }
}

// The contents of a cell that isn't damaged.
fn text_contents(alloc: Global, owner: &Owner, bytes: &[u8]) -> Result<Contents, AllocError>
    requires headed { IsHeadedBy owner.now bytes.now }
    requires ended { HasEnd owner.now bytes.now }
    ensures { IfOk result (IsTextRead owner.now bytes.now) }
{
    let found = find_all(alloc, owner, bytes)?;
    let named = Owner {
        members: found.members,
        site: owner.site,
    };
    let records = read_all(alloc, &named, bytes)?;
    Ok(Contents {
        owner: named,
        names_weights: found.named,
        records,
        ending: ending_at(found.end, bytes.len()),
    })
}

// The contents of a cell of this federation and site.
fn contents_of(alloc: Global, owner: &Owner, bytes: &[u8]) -> Result<Contents, AllocError>
    requires { IsHeadedBy owner.now bytes.now }
    ensures { IfOk result (IsCell bytes.now) }
{
    match find_damage(alloc, owner, bytes)? {
        None => text_contents(alloc, owner, bytes),
        Some(place) => {
            let text = text_contents(alloc, owner, &bytes[..place])?;
            Ok(Contents {
                owner: text.owner,
                names_weights: text.names_weights,
                records: text.records,
                ending: Ending::Damaged(place),
            })
        }
    }
}

/// What the bytes of a cell say, by the header with which they begin: `None` if they begin with no
/// whole header. It fails only if memory runs out.
pub fn read_contents(alloc: Global, bytes: &[u8]) -> Result<Option<Contents>, AllocError>
    ensures { IfOk result (λ contents. MatchOption contents (HasNoOwner bytes.now)
        (IsCell bytes.now)) }
{
    match owner_of(alloc, bytes)? {
        Some(owner) => Ok(Some(contents_of(alloc, &owner, bytes)?)),
        None => Ok(None),
    }
}

/// Where the last record or header of a cell ends, by the sizes of its records alone, if the cell
/// isn't damaged: 0 if it begins with no whole header.
pub fn intact_end(alloc: Global, bytes: &[u8]) -> Result<usize, AllocError>
    ensures in_range { IfOk result (λ end. end ≤ length bytes.now) }
    ensures end { IfOk result (λ end. (said : Said) → IsSaid bytes.now said
        → EndsAt said.ending (length bytes.now) end) }
{
    match owner_of(alloc, bytes)? {
        Some(owner) => Ok(find_all(alloc, &owner, bytes)?.end),
        None => Ok(0),
    }
}
