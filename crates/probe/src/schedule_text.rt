//! A schedule, read and printed.

use crate::fault::Fault;
use schedule::{parse, print};
use std::alloc::Global;

/// The schedule of this text, printed.
pub fn printed_again(alloc: Global, text: &str) -> Result<String, Fault> {
    let schedule = parse(alloc, text.as_bytes())?;
    Ok(print(alloc, &schedule)?)
}
