//! The key file: the keys by which a process tags its datagrams.
//!
//! ```
//! match read_keys(rt.alloc(), text) {
//!     Ok(keys) => Ok(keys),
//!     Err(KeyFault::Line(line)) => Err(Stop::KeyLine(line)),
//!     Err(KeyFault::Memory) => Err(Stop::Memory),
//! }
//! ```
#![tactic(auto)]

mod key_fault;
mod key_line;
mod new_keys;
mod read;

pub use key_fault::KeyFault;
pub use key_line::KEY_BYTES;
pub use new_keys::new_key_text;
pub use read::read_keys;
