//! Trees of files, which files one may have, and what a checker knows of a tree: for each file its
//! path, its digests and, for the texts that describe a bag, its bytes. Digests are by the four
//! algorithms that manifests may use (RFC 8493, 2.4): of bytes at hand, or of bytes that come in
//! pieces.
//!
//! ```
//! tree.add("bagit.txt", DECLARATION.as_bytes())?;
//! tree.add("manifest-sha512.txt", manifest)?;
//! if folder {
//!     tree.add_folder();
//! }
//! Ok(facts_of(alloc, tree)?)
//! ```
#![tactic(auto)]

mod algorithms;
mod digester;
mod digests;
mod facts;
mod fault;
mod fed;
mod file_facts;
mod kept_text;
mod limits;
mod path;
mod places;
mod tree;

pub use algorithms::Algorithms;
pub use digester::Digester;
pub use digests::{Digests, is_digest_of};
pub use facts::{Facts, facts_of};
pub use fault::TreeFault;
pub use file_facts::FileFacts;
pub use limits::limits_hold;
pub use path::{
    DEEPEST_PATH, PAYLOAD_FOLDER, has_unsafe_part, is_payload, is_read_text, is_text_named,
    part_count,
};
pub use tree::{LONGEST_TEXT, MOST_FILES, Tree, TreeFile};
