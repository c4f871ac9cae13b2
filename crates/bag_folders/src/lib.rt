//! What a checker knows of a tree, read from a disk or from memory. On a disk, files are read and
//! hashed in pieces; only the texts that describe a bag are held whole.
//!
//! ```
//! match self.folders.read(path.as_str()) {
//!     Ok(facts) => self.deposit_tree(client, slot, &facts),
//!     Err(fault) => self.refuse_deposit(client, slot, fault),
//! }
//! ```
#![tactic(auto)]

mod bare_folders;
mod disk_folders;
mod failure;
mod first_look;
mod folder_listing;
mod folder_way;
mod folders;
mod hash_listed;
mod hashing;
mod law;
mod list_sum;
mod listed_bytes;
mod look;
mod memory_folders;
mod now;
mod open_bag;
mod open_folder;
mod read_file;
mod read_listed;
mod refusals;
mod refused_bag;
mod remembering_folders;
mod texts_at_hand;
mod watched_file;
mod watcher;
mod weighed;
mod weight;

pub use bare_folders::BareFolders;
pub use disk_folders::DiskFolders;
pub use folders::Folders;
pub use hashing::Hashing;
pub use law::needed_law;
pub use memory_folders::MemoryFolders;
pub use read_file::{MOST_READS, hash_reader, hash_watched};
pub use read_listed::read_folder;
pub use remembering_folders::RememberingFolders;
pub use watcher::{Silent, Watcher};
