//! The first line at fault of a text that is no schedule, in words.

use code_words::{push_name, push_schedule_words};
use schedule::{ParseFault, parse};
use std::alloc::AllocError;

/// Says on standard error what is wrong with the first line at fault, if these bytes, of the file
/// of this path or of standard input, are no schedule: `FILE, line 1: ..`. If memory or standard
/// error fails, it says nothing.
pub(crate) fn say_schedule_fault(rt: &HostRuntime, file: Option<&str>, bytes: &[u8]) {
    let say_line = |rt: &HostRuntime, bytes: &[u8], line: usize| say_line_of(rt, file, bytes, line);
    if let Err(ParseFault::Line(line)) = parse(rt.alloc(), bytes) {
        let _ = say_line(rt, bytes, line);
    }
}

fn say_line_of(
    rt: &HostRuntime,
    file: Option<&str>,
    bytes: &[u8],
    line: usize,
) -> Result<(), AllocError> {
    let mut text = String::new(rt.alloc());
    match file {
        Some(path) => push_name(&mut text, path)?,
        None => text.push_str("standard input")?,
    }
    text.push_str(", ")?;
    push_schedule_words(rt.alloc(), &mut text, bytes, line)?;
    let _ = rt.eprintln(text.as_str());
    Ok(())
}
