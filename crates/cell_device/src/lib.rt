//! Cells: where a site keeps its journal. A cell is a file of bytes that keeps what it has synced;
//! what a crash leaves of the rest, at each moment, is a part of every call's contract.
//!
//! ```
//! Ok(MemoryCell::new(alloc, bytes.to_vec(alloc)?))
//! ```
#![tactic(auto)]

mod cell;
mod cell_file;
mod change;
mod fault;
mod file_cell;
mod fuse;
mod medium;
mod memory_cell;
mod memory_file;
mod trust;

pub use cell::Cell;
pub use cell_file::CellFile;
pub use fault::{CellFault, FileFault};
pub use file_cell::FileCell;
pub use fuse::{Fuse, FuseState, How};
pub use memory_cell::MemoryCell;
pub use memory_file::MemoryFile;
pub use trust::Trust;
