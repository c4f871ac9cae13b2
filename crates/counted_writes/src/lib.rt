//! Writing to the end, with a count of failures, so that a contract can say: a fault of the output
//! is answered only if a write failed.
//!
//! ```
//! let mut output = CountedWriter::new(io::writer(rt));
//! ```
#![tactic(auto)]

mod counted_write;
mod counted_writer;
mod write_text;

pub use counted_write::CountedWrite;
pub use counted_writer::CountedWriter;
pub use write_text::{write_bytes, write_output};
