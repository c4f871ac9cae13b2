//! Which cells name the bags of a conflict.

ghost use Rattle.std.specs.Prelude.{◌≡◌, ◌&&◌, ◌++◌, codes, IfOk};
ghost use Rattle.std.specs.Option.{option_copied};
ghost use Rattle.tokens.specs.Pushes.{Pushes};
ghost use Rattle.audit_command.specs.Mentions.{is_bag, is_slot, mention_by, mention_with};
ghost use Rattle.audit_command.specs.Mentions.{how_text, mention_line};

use code_words::push_name;
use fed_types::{BagId, Slot};
use ledger::{LiveCell, read_contents};
use outcomes::read_all;
use records::{Entry, Record};
use std::alloc::{AllocError, Global};
use tokens::push_escaped;

/// The words of a line `conflict OBJ V HEX HEX`.
#[derive(Clone, Copy)]
pub(crate) struct Conflict<'a> {
    pub(crate) object: &'a str,
    pub(crate) version: &'a str,
    pub(crate) one: &'a str,
    pub(crate) other: &'a str,
}

/// What a cell says of a bag of the conflict's version.
#[derive(Clone, Copy)]
struct Mention {
    is_known: bool,
    has_vote: bool,
}

/// Appends what a conflict is, and for each of these cells that names one of its bags a line that
/// says which, and how. The cells are read once more, as they are now.
pub(crate) fn push_names(
    rt: &HostRuntime,
    text: &mut String,
    cells: &[&str],
    conflict: &Conflict<'_>,
) -> Result<(), AllocError> {
    push_name(text, conflict.object)?;
    let version = conflict.version;
    write!(
        text,
        " {version}: two bags; docs/AUDIT.md has what may be the cause"
    )?;
    for path in cells {
        let records = records_at(rt, path)?;
        push_mentions(rt.alloc(), text, path, conflict, records.as_slice())?;
    }
    Ok(())
}

// Appends a line for each of the bags that a cell of these records names.
#[tactic(auto, using(std::proofs::Common::append_assoc))]
fn push_mentions(
    alloc: Global,
    text: &mut String,
    path: &str,
    conflict: &Conflict<'_>,
    records: &[Record],
) -> Result<(), AllocError>
    ensures { Pushes result text.old text.new
        (mention_line path.now (mention_by conflict.now.object.now conflict.now.version.now
        conflict.now.one.now records.now) (codes "first")
        ++ mention_line path.now (mention_by conflict.now.object.now conflict.now.version.now
        conflict.now.other.now records.now) (codes "second")) }
{
    push_named(alloc, text, path, conflict, conflict.one, "first", records)?;
    push_named(
        alloc,
        text,
        path,
        conflict,
        conflict.other,
        "second",
        records,
    )
}

// The line of the bag of these digits, if a cell of these records names it.
fn push_named(
    alloc: Global,
    text: &mut String,
    path: &str,
    conflict: &Conflict<'_>,
    digits: &str,
    which: &str,
    records: &[Record],
) -> Result<(), AllocError>
    ensures { Pushes result text.old text.new
        (mention_line path.now (mention_by conflict.now.object.now conflict.now.version.now
        digits.now records.now) which.now) }
{
    let mention = mention_of(alloc, conflict, digits, records)?;
    push_mention(text, path, mention, which)
}

// The records of the cell of this path; none where it can't be read.
fn records_at(rt: &HostRuntime, path: &str) -> Result<Vec<Record>, AllocError> {
    if let Ok(mut cell) = LiveCell::open(rt, path) {
        if let Ok(bytes) = read_all(rt.alloc(), &mut cell) {
            if let Some(contents) = read_contents(rt.alloc(), bytes.as_slice())? {
                return Ok(contents.records);
            }
        }
    }
    Ok(Vec::new(rt.alloc()))
}

// What these records say of the bag of these digits, as the conflict's version.
fn mention_of(
    alloc: Global,
    conflict: &Conflict<'_>,
    digits: &str,
    records: &[Record],
) -> Result<Mention, AllocError>
    ensures { IfOk result (λ mention. mention ≡ mention_by conflict.now.object.now
        conflict.now.version.now digits.now records.now) }
{
    let mut found = Mention {
        is_known: false,
        has_vote: false,
    };
    for kept in records {
        found = mention_with(alloc, conflict, digits, found, kept)?;
    }
    Ok(found)
}

// The same, and what one more record says of it.
fn mention_with(
    alloc: Global,
    conflict: &Conflict<'_>,
    digits: &str,
    found: Mention,
    kept: &Record,
) -> Result<Mention, AllocError>
    ensures { IfOk result (λ mention. mention ≡ mention_with conflict.now.object.now
        conflict.now.version.now digits.now found kept.now) }
{
    match kept.body {
        Entry::Known(bag) => {
            let is_known = is_named(alloc, conflict, digits, &kept.slot, bag)?;
            Ok(Mention {
                is_known: found.is_known || is_known,
                has_vote: found.has_vote,
            })
        }
        Entry::Vote(vote) => {
            let has_vote = is_named(alloc, conflict, digits, &kept.slot, vote.bag)?;
            Ok(Mention {
                is_known: found.is_known,
                has_vote: found.has_vote || has_vote,
            })
        }
        _ => Ok(found),
    }
}

// Whether a bag of this slot is the bag of these digits, of the conflict's version.
fn is_named(
    alloc: Global,
    conflict: &Conflict<'_>,
    digits: &str,
    slot: &Slot,
    bag: BagId,
) -> Result<bool, AllocError>
    ensures { IfOk result (λ is. is ≡ (is_slot conflict.now.object.now conflict.now.version.now
        slot.now && is_bag digits.now bag)) }
{
    if !is_slot(alloc, conflict, slot)? {
        return Ok(false);
    }
    is_bag(alloc, bag, digits)
}

fn is_bag(alloc: Global, bag: BagId, digits: &str) -> Result<bool, AllocError>
    ensures { IfOk result (λ is. is ≡ is_bag digits.now bag) }
{
    Ok(hex::encode(alloc, bag.0)?.as_str() == digits)
}

fn is_slot(alloc: Global, conflict: &Conflict<'_>, slot: &Slot) -> Result<bool, AllocError>
    ensures { IfOk result (λ is. is ≡ is_slot conflict.now.object.now conflict.now.version.now
        slot.now) }
{
    let number = slot.version();
    let version = format!(in alloc; "{number}")?;
    if version.as_str() != conflict.version {
        return Ok(false);
    }
    let mut object = String::new(alloc);
    push_escaped(&mut object, slot.object())?;
    Ok(object.as_str() == conflict.object)
}

// Appends a line, if the cell names the bag.
#[tactic(auto, using(std::proofs::Common::append_assoc))]
fn push_mention(
    text: &mut String,
    path: &str,
    mention: Mention,
    which: &str,
) -> Result<(), AllocError>
    ensures { Pushes result text.old text.new (mention_line path.now mention which.now) }
{
    let Some(how) = how_text(mention) else {
        return Ok(());
    };
    text.push_str("\n  ")?;
    push_name(text, path)?;
    write!(text, " {how} the {which} bag")
}

// How a cell names a bag, if it does.
fn how_text(mention: Mention) -> Option<&'static str>
    ensures { option_copied result ≡ how_text mention.is_known mention.has_vote }
{
    match (mention.is_known, mention.has_vote) {
        (false, false) => None,
        (false, true) => Some("has a vote for"),
        (true, false) => Some("knows"),
        (true, true) => Some("knows, and has a vote for,"),
    }
}
