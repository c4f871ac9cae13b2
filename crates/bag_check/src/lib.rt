//! Whether a tree of files is a valid bag and with which identity, or why it isn't (RFC 8493,
//! within the limits that `BagFault` names).
//!
//! ```
//! match check(alloc, facts) {
//!     Ok(_) => Ok(true),
//!     Err(BagFault::Memory) => Err(AllocError),
//!     Err(_) => Ok(false),
//! }
//! ```
#![tactic(auto)]

mod check_bag;
mod entries;
mod fault;
mod files_by_path;
mod law;
mod listing;
mod manifests;
mod named;
mod read_manifests;
mod tag_files;

pub use check_bag::{check, check_complete};
pub use entries::{is_astray, is_wrong};
pub use fault::BagFault;
pub use files_by_path::FilesByPath;
pub use law::{complete_law, named_law, valid_law};
pub use manifests::Kind;
pub use named::named_by;
pub use tag_files::{is_supported_encoding, is_supported_version, is_unknown};
