//! The lines of a text, by their numbers.

ghost use Rattle.std.specs.Prelude.{◌≡◌, ◌+◌, IfOk};
ghost use Rattle.code_words.specs.ScheduleLines.{line_at, has_command_before, is_skipped};

use std::alloc::{AllocError, Global};
use tokens::{first_line, split_words};

/// The line of this number, counted from 1; empty where there is none.
pub(crate) fn line_at(text: &[u8], number: usize) -> &[u8]
    ensures { result.now ≡ line_at text.now number }
{
    line_after(text, number.saturating_sub(1))
}

/// The line after so many others; empty where there is none.
pub(crate) fn line_after(text: &[u8], before: usize) -> &[u8]
    ensures { result.now ≡ line_at text.now (before + 1) }
{
    let mut rest = text;
    let mut left = before;
    while let Some((line, after)) = first_line(rest) {
        if left == 0 {
            return line;
        }
        rest = after;
        left -= 1;
    }
    &[]
}

/// Whether one of the lines before this number is a schedule's command, or is to be one: it isn't
/// blank, and no comment.
pub(crate) fn has_command_before(
    alloc: Global,
    text: &[u8],
    number: usize,
) -> Result<bool, AllocError>
    ensures { IfOk result (λ has. has ≡ has_command_before text.now number) }
{
    let mut rest = text;
    let mut left = number;
    while left > 1 {
        match first_line(rest) {
            Some((line, after)) => {
                if !is_skipped(alloc, line)? {
                    return Ok(true);
                }
                rest = after;
                left -= 1;
            }
            None => return Ok(false),
        }
    }
    Ok(false)
}

fn is_skipped(alloc: Global, line: &[u8]) -> Result<bool, AllocError>
    ensures { IfOk result (λ is. is ≡ is_skipped line.now) }
{
    if line.starts_with(b"#") {
        return Ok(true);
    }
    let words = split_words(alloc, line)?;
    Ok(words.is_empty())
}
