//! The fields that datagrams and journal records are made of: how each is encoded, and how it is
//! read from left to right.
//!
//! ```
//! let mut reader = Reader::new(bytes);
//! let from = reader.byte()?;
//! let slot = reader.slot_ref()?;
//! let body = read_last_body(alloc, kind, from, &mut reader)?;
//! let slot = slot.to_slot(alloc)?;
//! ```
#![tactic(auto)]

mod checksum;
mod encode;
mod fault;
mod laws;
mod reader;
mod slot_ref;

pub use checksum::{CHECKSUM_BYTES, put_checksum, without_checksum};
pub use encode::{put_bag, put_ballot, put_slot, put_vote};
pub use fault::FieldFault;
pub use laws::checksums_are_exact;
pub use reader::Reader;
pub use slot_ref::SlotRef;
