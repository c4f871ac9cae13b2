ghost use Rattle.std.specs.Prelude.{◌≡◌, ◌≤◌, ◌↔◌, ℕ, List, Result, length, IfOk, OnOk};
ghost use Rattle.std.specs.Prelude.{IsTrue, All};
ghost use Rattle.fed_types.specs.Faults.{IsOrFault};
ghost use Rattle.records.specs.declared.fault.JournalFault.{JournalFault as declared_fault};
ghost use Rattle.records.specs.Records.{Records};
ghost use Rattle.records.specs.Answers.{IsReading, HasTextEnd, records_read};
ghost use Rattle.records.specs.Journals.{DecodesTo};
ghost use Rattle.records.specs.inner.Parts.{IsRun};
ghost use Rattle.records.specs.inner.Found.{ArePartsOf, Allows};
ghost use Rattle.records.specs.inner.Steps.{IsSized, IsFound, Passes, IsNext, HasRead, HasReadBoth};

use crate::decode::{is_record, read_record};
use crate::fault::JournalFault;
use crate::layout::{LONGEST, Layout, SHORTEST};
use crate::owner::Owner;
use crate::parts::{Parts, find_parts, is_new};
use crate::record::Record;
use fields::FieldFault;
use std::alloc::{AllocError, Global};

/// A journal that was read.
#[derive(Debug, Drop)]
pub struct Journal {
    /// The records, in order.
    pub records: Vec<Record>,
    /// How many of the bytes are a header, or two, and these records.
    pub end: usize,
    /// Whether a header of the second layout is among them.
    pub current: bool,
}

/// What comes next, by its size alone.
#[derive(Clone, Copy, Debug)]
pub(crate) enum Find {
    /// Nothing, or a torn tail.
    End,
    /// A record of this many bytes: a length of two, and as many as it says.
    Whole(usize),
    /// What is no record.
    Damaged,
}

/// How many of the bytes are records of a layout, and whether what follows is no record.
#[derive(Clone, Copy, Debug)]
pub(crate) struct Passed {
    pub len: usize,
    pub damaged: bool,
}

// Finds how many bytes come next, by the length before them.
fn find_size(layout: Layout, bytes: &[u8]) -> Find
    ensures { IsSized layout bytes.now result }
{
    let [high, low, rest @ ..] = bytes else {
        return Find::End;
    };
    let size = usize::from(u16::from_be_bytes([*high, *low]));
    let more = layout.checksum_size();
    if size < SHORTEST + more || LONGEST + more < size {
        return Find::Damaged;
    }
    if rest.len() < size {
        return Find::End;
    }
    Find::Whole(2 + size)
}

// Finds what comes next. It takes no memory.
fn find_next(layout: Layout, bytes: &[u8]) -> Find
    ensures { IsFound layout bytes.now result }
{
    match find_size(layout, bytes) {
        Find::End => Find::End,
        Find::Damaged => Find::Damaged,
        Find::Whole(size) => {
            if !is_record(layout, &bytes[..size]) {
                return Find::Damaged;
            }
            Find::Whole(size)
        }
    }
}

// How many of the bytes are records of the layout. It takes no memory.
pub(crate) fn pass_records(layout: Layout, bytes: &[u8]) -> Passed
    ensures { Passes layout bytes.now result }
{
    let mut len = 0;
    loop {
        match find_next(layout, &bytes[len..]) {
            Find::End => {
                return Passed {
                    len,
                    damaged: false,
                };
            }
            Find::Damaged => return Passed { len, damaged: true },
            Find::Whole(size) => len += size,
        }
    }
}

// Reads what comes next of bytes that are records, whose checksums were compared before.
fn next_record(
    alloc: Global,
    layout: Layout,
    bytes: &[u8],
) -> Result<Option<(Record, usize)>, AllocError>
    ensures { IfOk result (IsNext layout bytes.now) }
{
    match find_size(layout, bytes) {
        Find::End => Ok(None),
        Find::Damaged => Ok(None),
        Find::Whole(size) => match read_record(alloc, layout, &bytes[..size]) {
            Ok(record) => Ok(Some((record, size))),
            Err(FieldFault::Malformed) => Ok(None),
            Err(FieldFault::Memory) => Err(AllocError),
        },
    }
}

// Reads bytes that are records of the layout, after those that were read before.
pub(crate) fn read_records(
    alloc: Global,
    layout: Layout,
    bytes: &[u8],
    records: &mut Vec<Record>,
) -> Result<(), AllocError>
    ensures { OnOk result (HasRead layout bytes.now records.old.items records.new.items) }
{
    let mut place = 0;
    loop {
        match next_record(alloc, layout, &bytes[place..])? {
            None => return Ok(()),
            Some((next, size)) => {
                records.push(next)?;
                place += size;
            }
        }
    }
}

/// Records of a layout, one after another.
#[derive(Clone, Copy, Drop)]
pub(crate) struct Run<'a> {
    /// Their bytes.
    pub records: &'a [u8],
    /// Where they end.
    pub end: usize,
    /// Whether what follows them is no record.
    pub damaged: bool,
}

// The records of the layout from this place on.
pub(crate) fn run_from(layout: Layout, bytes: &[u8], place: usize) -> Run
    requires { place ≤ length bytes.now }
    ensures { IsRun layout bytes.now place result.records.now result.end result.damaged }
{
    let rest = &bytes[place..];
    let passed = pass_records(layout, rest);
    Run {
        records: &rest[..passed.len],
        end: place + passed.len,
        damaged: passed.damaged,
    }
}

// Whether all weights are 1.
fn are_ones(weights: &[u8]) -> bool
    ensures { IsTrue result ↔ All (λ w. w ≡ 1) weights.now }
{
    weights.iter().all(|weight| *weight == 1)
}

// Whether these weights, those of a journal, are the owner's. If it says none, all are 1.
fn has_weights(owner: &Owner, weights: &[u8]) -> bool
    ensures none { length weights.now ≡ 0
        → (IsTrue result ↔ All (λ w. w ≡ 1) owner.now.members.weights) }
    ensures some { 1 ≤ length weights.now
        → (IsTrue result ↔ (weights.now ≡ owner.now.members.weights)) }
{
    let members = &owner.members;
    if weights.is_empty() {
        return are_ones(members.weights());
    }
    weights == members.weights()
}

// Whether a journal of these parts may be the owner's by its weights: always, if it has no records,
// since nothing was promised then. This is checked last: a damaged cell is damaged under any
// weights, so that nobody searches for a members file when a disk is broken.
fn allows_weights(owner: &Owner, parts: &Parts) -> bool
    ensures { (bytes : List ℕ) (is : ArePartsOf owner.now bytes parts.now)
        → Allows owner.now bytes parts.now is result }
{
    if parts.old.is_empty() && parts.new.is_empty() {
        return true;
    }
    has_weights(owner, parts.weights)
}

// The records of both parts.
fn read_both(alloc: Global, old: &[u8], new: &[u8]) -> Result<Vec<Record>, AllocError>
    ensures { IfOk result (λ records. HasReadBoth old.now new.now records.items) }
{
    let mut records = Vec::new(alloc);
    read_records(alloc, Layout::First, old, &mut records)?;
    read_records(alloc, Layout::Second, new, &mut records)?;
    Ok(records)
}

// What the bytes say, and where their text ends.
#[tactic(auto, unfolding(crate::specs::Journals::DecodesTo))]
fn read_text(alloc: Global, owner: &Owner, bytes: &[u8]) -> Result<Journal, JournalFault>
    ensures said { IsReading owner.now bytes.now result }
    ensures text { IfOk result (HasTextEnd owner.now bytes.now) }
{
    if is_new(owner, bytes) {
        return Ok(Journal {
            records: Vec::new(alloc),
            end: 0,
            current: false,
        });
    }
    let parts = find_parts(owner, bytes)?;
    // Memory is taken only where the bytes say records, so it hides no fault.
    if !allows_weights(owner, &parts) {
        return Err(JournalFault::OtherWeights);
    }
    let records = read_both(alloc, parts.old, parts.new)?;
    Ok(Journal {
        records,
        end: parts.end,
        current: !parts.weights.is_empty(),
    })
}

/// Reads the journal of this owner: its records in order, none skipped and none in part, in
/// whichever layouts they are. A torn tail or an unfinished header, which a crash may leave, is
/// skipped. Memory can run out only if the bytes say records, so it hides no fault in them.
pub fn read_journal(alloc: Global, owner: &Owner, bytes: &[u8]) -> Result<Journal, JournalFault>
    // What is answered is what the bytes say.
    ensures said { IsReading owner.now bytes.now result }
    // What the bytes say is answered, unless memory runs out.
    ensures only { (said : Result Records declared_fault)
        → DecodesTo owner.now bytes.now said
        → IsOrFault JournalFault.Memory (records_read result) said }
    ensures text { IfOk result (HasTextEnd owner.now bytes.now) }
{
    read_text(alloc, owner, bytes)
}
