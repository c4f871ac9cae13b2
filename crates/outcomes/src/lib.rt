//! How a command of the program ends: its exit status, and what it wrote. Reading and writing to
//! the end.
//!
//! ```
//! match push_table(&mut text) {
//!     Ok(()) => write_output(&mut output, 0, text.as_str()),
//!     Err(AllocError) => write_output(&mut output, 1, "memory\n"),
//! }
//! ```
#![tactic(auto)]

mod fault;
mod input;
mod output;
mod program_output;

pub use fault::ProgramFault;
pub use input::{MOST_READS, ReadFault, read_all, read_within};
pub use output::{WriteFault, write_all};
pub use program_output::{ProgramOutput, write_bytes, write_output};
