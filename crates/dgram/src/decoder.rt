ghost use Rattle.std.specs.Prelude.{◌↔◌, ◌≤◌, length, Ok, IsTrue, IsSome, IsErrOf};
ghost use Rattle.std.specs.Prelude.{IsOkUnless, IfOk};
ghost use Rattle.fed_types.specs.Faults.{IsOrFault};
ghost use Rattle.fields.specs.Checksums.{without_checksum};
ghost use Rattle.fields.specs.Decoders.{Gives};
ghost use Rattle.dgram.specs.Decoders.{message_at, whole_at, datagram_at};
ghost use Rattle.dgram.specs.Decoded.{IsOurs, IsAnothers, IsDatagramOf, IsDatagram};
ghost use Rattle.dgram.specs.Decoded.{IsMalformed, message_of, Decodes};
ghost use Rattle.dgram.specs.declared.message.Message as declared;

use crate::decode_body::read_last_body;
use crate::fault::DgramFault;
use crate::layout::{FRONT, LAYOUT, MAGIC};
use crate::message::Message;
use fields::{FieldFault, Reader, without_checksum};
use std::alloc::Global;

// Whether the first bytes are those of this layout and federation. That is asked before the
// checksum is computed, so that a site digests nothing that isn't meant for it.
fn is_ours(federation: u64, bytes: &[u8]) -> bool
    requires { FRONT ≤ length bytes.now }
    ensures { IsTrue result ↔ IsOurs federation bytes.now }
{
    let begins = &bytes[..3] == [MAGIC[0], MAGIC[1], LAYOUT].as_slice();
    begins && &bytes[4..FRONT] == federation.to_be_bytes().as_slice()
}

// The message of the kind of this byte, from its sender's byte on. Memory is taken last.
#[tactic(auto, unfolding(crate::specs::Decoders::message_at))]
fn read_message(alloc: Global, kind: u8, bytes: &[u8]) -> Result<Message, FieldFault>
    ensures gives { Gives (λ m. m) result (message_at kind bytes.now) }
    ensures memory { IsErrOf result FieldFault.Memory → IsSome (message_at kind bytes.now) }
{
    let mut reader = Reader::new(bytes);
    let from = reader.byte()?;
    let slot = reader.slot_ref()?;
    let body = read_last_body(alloc, kind, from, &mut reader)?;
    let slot = slot.to_slot(alloc)?;
    Ok(Message { slot, body })
}

// The message of the bytes before a datagram's checksum. Memory is taken last.
fn read_whole(alloc: Global, bytes: &[u8]) -> Result<Message, FieldFault>
    ensures gives { Gives (λ m. m) result (whole_at bytes.now) }
    ensures memory { IsErrOf result FieldFault.Memory → IsSome (whole_at bytes.now) }
{
    if bytes.len() < FRONT {
        return Err(FieldFault::Malformed);
    }
    read_message(alloc, bytes[3], &bytes[FRONT..])
}

// The bytes before a right checksum.
fn read_checksum(bytes: &[u8]) -> Result<&[u8], FieldFault>
    ensures gives { Gives (λ x. x.now) result (without_checksum bytes.now) }
    ensures no_memory { IsOkUnless result FieldFault.Malformed }
{
    match without_checksum(bytes) {
        Some(front) => Ok(front),
        None => Err(FieldFault::Malformed),
    }
}

// The message of a datagram, if its checksum is right. Memory is taken last.
#[tactic(auto, unfolding(crate::specs::Decoders::datagram_at))]
fn read_datagram(alloc: Global, bytes: &[u8]) -> Result<Message, FieldFault>
    ensures gives { Gives (λ m. m) result (datagram_at bytes.now) }
    ensures memory { IsErrOf result FieldFault.Memory → IsSome (datagram_at bytes.now) }
{
    let front = read_checksum(bytes)?;
    read_whole(alloc, front)
}

/// The message whose datagram the bytes are, in the federation. Fewer than 12 bytes are
/// `Malformed`. Else `NotOurs` where they don't begin with magic and layout or name another
/// federation. Else `Malformed` where they are no message's datagram: the checksum is another, or
/// the bytes aren't of the layout. `Memory` only where they are one.
pub fn decode(alloc: Global, federation: u64, bytes: &[u8]) -> Result<Message, DgramFault>
    // The definitions' message of the bytes, unless memory runs out.
    ensures message { Decodes result (message_of federation bytes.now) }
    // What is read has these bytes.
    ensures found { IfOk result (λ m. IsDatagramOf federation bytes.now m) }
    // What has these bytes is read, unless memory runs out.
    ensures only { (m : declared.Message) → IsDatagramOf federation bytes.now m
        → IsOrFault DgramFault.Memory result (Ok m) }
    ensures not_ours { IsErrOf result DgramFault.NotOurs ↔ IsAnothers federation bytes.now }
    ensures malformed { IsErrOf result DgramFault.Malformed ↔ IsMalformed federation bytes.now }
    ensures memory { IsErrOf result DgramFault.Memory → IsDatagram federation bytes.now }
{
    if bytes.len() < FRONT {
        return Err(DgramFault::Malformed);
    }
    if !is_ours(federation, bytes) {
        return Err(DgramFault::NotOurs);
    }
    Ok(read_datagram(alloc, bytes)?)
}
