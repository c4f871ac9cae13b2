//! The texts of a bag: lines, the bag declaration and the manifests (RFC 8493, 2), each read
//! exactly, with the first malformed line where there is one.
//!
//! ```
//! let entries = match manifest(alloc, algorithm, text) {
//!     Ok(entries) => entries,
//!     Err(TextFault::Malformed(_)) => return Err(BagFault::MalformedLine),
//!     Err(TextFault::Memory) => return Err(BagFault::Memory),
//! };
//! ```
#![tactic(auto)]

mod algorithm;
mod bagit_txt;
mod blank;
mod entry;
mod fault;
mod hex_digest;
mod law;
mod line;
mod parse_declaration;
mod parse_entry;
mod parse_manifest;
mod path;

pub use algorithm::Algorithm;
pub use bagit_txt::Declaration;
pub use entry::Entry;
pub use fault::TextFault;
pub use hex_digest::HexDigest;
pub use law::{declaration_law, escape_law, listed_law, manifest_law};
pub use line::lines;
pub use parse_declaration::declaration;
pub use parse_manifest::manifest;
