ghost use Rattle.std.specs.Prelude.{◌≡◌, ◌↔◌, ◌-◌, IsTrue, IsSome, IsOkUnless, length, take, drop};
ghost use Rattle.fields.specs.Decoders.{Gives};
ghost use Rattle.records.specs.inner.Decoders.{round_at, entry_at, content_at};
ghost use Rattle.records.specs.Layout.{checksum_size};
ghost use Rattle.records.specs.inner.Steps.{unsealed, record_in, record_before};

use crate::entry::Entry;
use crate::layout::*;
use crate::record::Record;
use crate::round::Round;
use fields::{FieldFault, Reader, SlotRef, without_checksum};
use std::alloc::Global;

#[tactic(auto, unfolding(crate::specs::inner::Decoders::round_at))]
fn read_round(reader: &mut Reader) -> Result<Round, FieldFault>
    ensures gives { Gives (λ x. (x, reader.new)) result (round_at reader.old) }
    ensures no_memory { IsOkUnless result FieldFault.Malformed }
{
    match Round::new(reader.u32()?) {
        Some(round) => Ok(round),
        None => Err(FieldFault::Malformed),
    }
}

#[tactic(auto, unfolding(crate::specs::inner::Decoders::entry_at))]
fn read_entry(kind: u8, reader: &mut Reader) -> Result<Entry, FieldFault>
    ensures gives { Gives (λ x. (x, reader.new)) result (entry_at kind reader.old) }
    ensures no_memory { IsOkUnless result FieldFault.Malformed }
{
    match kind {
        DEPOSIT => Ok(Entry::Deposit(reader.bag()?)),
        ROUND => Ok(Entry::Round(read_round(reader)?)),
        PROMISE => Ok(Entry::Promise(reader.ballot()?)),
        VOTE => Ok(Entry::Vote(reader.vote()?)),
        KNOWN => Ok(Entry::Known(reader.bag()?)),
        _ => Err(FieldFault::Malformed),
    }
}

// What the bytes after its length say, as a record's, with its object still among them. It takes no
// memory.
#[tactic(auto, unfolding(crate::specs::inner::Decoders::content_at))]
fn read_content<'a>(bytes: &'a [u8]) -> Result<(SlotRef<'a>, Entry), FieldFault>
    ensures gives { Gives (λ x. record { slot = x.0; body = x.1 }) result (content_at bytes.now) }
    ensures no_memory { IsOkUnless result FieldFault.Malformed }
{
    let mut reader = Reader::new(bytes);
    let kind = reader.byte()?;
    let slot = reader.slot_ref()?;
    let body = read_entry(kind, &mut reader)?;
    if !reader.is_empty() {
        return Err(FieldFault::Malformed);
    }
    Ok((slot, body))
}

// The bytes of a whole record, its checksum left out, if that is right.
fn read_unsealed(layout: Layout, bytes: &[u8]) -> Result<&[u8], FieldFault>
    ensures gives { Gives (λ x. x.now) result (unsealed layout bytes.now) }
    ensures no_memory { IsOkUnless result FieldFault.Malformed }
{
    match layout {
        Layout::First => Ok(bytes),
        Layout::Second => match without_checksum(bytes) {
            Some(front) => Ok(front),
            None => Err(FieldFault::Malformed),
        },
    }
}

// The bytes after a length field.
fn after_length(bytes: &[u8]) -> &[u8]
    ensures { result.now ≡ drop 2 bytes.now }
{
    match bytes {
        [_, _, rest @ ..] => rest,
        _ => &[],
    }
}

// What the bytes of a whole record say, its object still among them. It takes no memory.
#[tactic(auto, unfolding(crate::specs::inner::Steps::record_in))]
fn read_whole<'a>(layout: Layout, bytes: &'a [u8]) -> Result<(SlotRef<'a>, Entry), FieldFault>
    ensures gives { Gives (λ x. record { slot = x.0; body = x.1 }) result
        (record_in layout bytes.now) }
    ensures no_memory { IsOkUnless result FieldFault.Malformed }
{
    let front = read_unsealed(layout, bytes)?;
    read_content(after_length(front))
}

/// Whether these are the bytes of a record. It takes no memory.
pub(crate) fn is_record(layout: Layout, bytes: &[u8]) -> bool
    ensures { IsTrue result ↔ IsSome (record_in layout bytes.now) }
{
    match read_whole(layout, bytes) {
        Ok(_) => true,
        Err(_) => false,
    }
}

// The bytes of a whole record up to its checksum, which isn't compared.
fn before_checksum(layout: Layout, bytes: &[u8]) -> &[u8]
    ensures { result.now ≡ take (length bytes.now - checksum_size layout) bytes.now }
{
    &bytes[..bytes.len().saturating_sub(layout.checksum_size())]
}

/// The record whose bytes these are, a record's: its checksum isn't compared. Memory is taken last.
#[tactic(auto, unfolding(crate::specs::inner::Steps::record_before))]
pub(crate) fn read_record(alloc: Global, layout: Layout, bytes: &[u8]) -> Result<Record, FieldFault>
    ensures { Gives (λ x. x) result (record_before layout bytes.now) }
{
    let front = before_checksum(layout, bytes);
    let (slot, body) = read_content(after_length(front))?;
    Ok(Record {
        slot: slot.to_slot(alloc)?,
        body,
    })
}
