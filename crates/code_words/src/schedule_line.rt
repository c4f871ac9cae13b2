//! What is wrong with a line of a schedule.

ghost use Rattle.std.specs.Prelude.{◌≡◌, ◌++◌, ◌+◌, map, OnOk, IfOk, string_bytes};
ghost use Rattle.tokens.specs.Words.{words_of};
ghost use Rattle.code_words.specs.ScheduleLines.{line_at, has_command_before};
ghost use Rattle.code_words.specs.ScheduleWords.{first_text, command_text, list_text, tab_text};
ghost use Rattle.code_words.specs.ScheduleWords.{names_members, names_site, begins_members};
ghost use Rattle.code_words.specs.ScheduleWords.{words_text, line_text, schedule_text};

use crate::federation_line::push_first_words;
use crate::line_kind::push_list_kind;
use crate::schedule_command::push_command_words;
use crate::text_lines::{has_command_before, line_after, line_at};
use std::alloc::{AllocError, Global};
use tokens::split_words;

/// Appends what is wrong with the line of this number, counted from 1, the first at fault in a text
/// that is no schedule: `line 4: deliver takes the number of one datagram; found ..`.
pub fn push_schedule_words(
    alloc: Global,
    text: &mut String,
    schedule: &[u8],
    number: usize,
) -> Result<(), AllocError>
    ensures { OnOk result (string_bytes text.new
        ≡ string_bytes text.old ++ schedule_text schedule.now number) }
{
    write!(text, "line {number}: ")?;
    push_line_words(alloc, text, schedule, number)
}

// Appends what is wrong with the line of this number.
#[tactic(auto, unfolding(crate::specs::ScheduleWords::line_text))]
fn push_line_words(
    alloc: Global,
    text: &mut String,
    schedule: &[u8],
    number: usize,
) -> Result<(), AllocError>
    ensures { OnOk result (string_bytes text.new
        ≡ string_bytes text.old ++ line_text schedule.now number) }
{
    let line = line_at(schedule, number);
    let words = split_words(alloc, line)?;
    if is_members_file(alloc, schedule, number, words.as_slice())? {
        return text.push_str("this is a members file; a schedule begins with federation F N");
    }
    push_fault(alloc, text, schedule, number, line, words.as_slice())
}

// Appends what is wrong with this line of these words, and that tabs separate no words.
#[tactic(auto, using(std::proofs::Common::append_assoc))]
fn push_fault(
    alloc: Global,
    text: &mut String,
    schedule: &[u8],
    number: usize,
    line: &[u8],
    words: &[&[u8]],
) -> Result<(), AllocError>
    ensures { OnOk result (string_bytes text.new ≡ string_bytes text.old
        ++ (words_text (has_command_before schedule.now number) line.now
        (map (λ word. word.now) words.now) ++ tab_text line.now)) }
{
    push_words_fault(alloc, text, schedule, number, line, words)?;
    push_tab_words(text, line)
}

#[tactic(auto, unfolding(crate::specs::ScheduleWords::words_text))]
fn push_words_fault(
    alloc: Global,
    text: &mut String,
    schedule: &[u8],
    number: usize,
    line: &[u8],
    words: &[&[u8]],
) -> Result<(), AllocError>
    ensures { OnOk result (string_bytes text.new ≡ string_bytes text.old
        ++ words_text (has_command_before schedule.now number) line.now
        (map (λ word. word.now) words.now)) }
{
    match words {
        [] => push_first_fault(alloc, text, line, words),
        [name, arguments @ ..] => {
            if has_command_before(alloc, schedule, number)? {
                push_command_words(alloc, text, name, arguments)
            } else {
                push_first_fault(alloc, text, line, words)
            }
        }
    }
}

// Appends what is wrong with the first command, or that its line is of a list.
#[tactic(auto, using(std::proofs::Common::append_assoc))]
fn push_first_fault(
    alloc: Global,
    text: &mut String,
    line: &[u8],
    words: &[&[u8]],
) -> Result<(), AllocError>
    ensures { OnOk result (string_bytes text.new ≡ string_bytes text.old
        ++ (first_text (map (λ word. word.now) words.now) ++ list_text line.now)) }
{
    push_first_words(alloc, text, words)?;
    push_list_kind(text, line)
}

// Whether a members file begins at the line of this number and these words: it names no number of
// sites, and the next line has the first of them.
#[tactic(auto, unfolding(crate::specs::ScheduleWords::begins_members))]
fn is_members_file(
    alloc: Global,
    text: &[u8],
    number: usize,
    words: &[&[u8]],
) -> Result<bool, AllocError>
    ensures { IfOk result (λ is. is
        ≡ begins_members text.now number (map (λ word. word.now) words.now)) }
{
    if !names_members(words) || has_command_before(alloc, text, number)? {
        return Ok(false);
    }
    names_site(alloc, text, number)
}

fn names_members(words: &[&[u8]]) -> bool
    ensures { result ≡ names_members (map (λ word. word.now) words.now) }
{
    match words {
        [name, _] => *name == b"federation".as_slice(),
        _ => false,
    }
}

// Whether the line after that of this number names a site.
fn names_site(alloc: Global, text: &[u8], number: usize) -> Result<bool, AllocError>
    ensures { IfOk result (λ is. is ≡ names_site (words_of (line_at text.now (number + 1)))) }
{
    let next = split_words(alloc, line_after(text, number))?;
    Ok(is_site(next.as_slice()))
}

fn is_site(words: &[&[u8]]) -> bool
    ensures { result ≡ names_site (map (λ word. word.now) words.now) }
{
    match words {
        [] => false,
        [name, ..] => *name == b"site".as_slice(),
    }
}

/// Appends that tabs separate no words, where the line has one.
pub(crate) fn push_tab_words(text: &mut String, line: &[u8]) -> Result<(), AllocError>
    ensures { OnOk result (string_bytes text.new ≡ string_bytes text.old ++ tab_text line.now) }
{
    if line.contains(&b'\t') {
        return text.push_str("; a tab separates no words: write a space");
    }
    Ok(())
}
