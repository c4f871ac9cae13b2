//! Tags of datagrams: who doesn't have the key can't make one. A tag is the HMAC of all bytes
//! before it, with SHA-256 (RFC 2104). Messages between sites have another key than clients'
//! datagrams.
//!
//! ```
//! match ring.opened(bytes) {
//!     Some(text) => text.len(),
//!     None => 0,
//! }
//! ```
#![tactic(auto)]

mod equality;
mod key_block;
mod key_ring;
mod law;
mod tag_key;

pub use key_ring::{KeyRing, is_between_sites};
pub use law::seals_law;
pub use tag_key::{TAG_BYTES, TagKey};
