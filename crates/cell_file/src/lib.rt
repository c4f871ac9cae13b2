//! Cells in files of the system: `cell_device::FileCell` over the system's calls. No contract says
//! what a file of the system holds, so this crate does little beside making the calls: it looks at
//! lengths and paths, marks a cell that somebody else has cut, and says beside a cell how many of
//! its bytes are synced.
//!
//! ```
//! match open_cell(rt, path, creation) {
//!     Err(Unopened::InUse) if has_time(rt, &start) => {
//!         thread::sleep(rt, Duration::from_millis(PAUSE));
//!     }
//!     answer => return answer,
//! }
//! ```
#![tactic(auto)]

mod beside;
mod host_file;
mod opening;
mod place;
mod said_length;
mod synced_file;
mod synced_text;
mod text_end;
mod unopened;

pub use beside::path_beside;
use cell_device::FileCell;
pub use host_file::HostFile;
pub use opening::{Creation, open_cell};
pub use said_length::synced_length;
pub use unopened::Unopened;

/// A cell in a file of the system.
pub type DiskCell = FileCell<HostFile>;
