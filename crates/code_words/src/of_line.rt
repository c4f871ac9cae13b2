//! What a printed line says, by its words.

ghost use Rattle.std.specs.Prelude.{◌≡◌, map, option_map, IfOk};
ghost use Rattle.std.specs.Option.{option_copied};
ghost use Rattle.code_words.specs.Rows.{code_of};
ghost use Rattle.code_words.specs.Lines.{code_of_line, words_of, of_words, of_two, of_three};
ghost use Rattle.code_words.specs.Lines.{of_four};
ghost use Rattle.code_words.specs.Lines.{refused, skipped, other};

use crate::bag_codes::{invalid, unread};
use crate::cell_codes::{OPEN, STOPPED};
use crate::code_of_line::number_in;
use crate::meaning::Meaning;
use crate::other_codes::OTHERS;
use crate::refusal_codes::{BEFORE_REFUSED, REFUSED};
use crate::row::{first_ending, first_of, row};
use crate::schedule_codes::SKIPPED;
use std::alloc::{AllocError, Global};

/// In a deposit's `refused S N` a number above this one says that a folder can't be read.
const BEFORE_UNREAD: u8 = 20;

/// Above this one it says that a bag isn't valid.
const BEFORE_INVALID: u8 = 40;

/// The meaning of a line that `check`, `run`, `site` or `send` prints, if it has a code. For a line
/// `refused S 10 N`, or a deposit's `refused S N`, it is what is wrong with the bag or the folder.
pub fn meaning_of_line(alloc: Global, line: &str) -> Result<Option<&'static Meaning>, AllocError>
    ensures { IfOk result (λ meaning. option_map code_of (option_copied meaning) ≡ code_of_line
        line.now) }
{
    let words = words_of(alloc, line)?;
    Ok(of_words(line, words.as_slice()))
}

// The words of a line, between single blanks.
fn words_of(alloc: Global, line: &str) -> Result<Vec<&str>, AllocError>
    ensures { IfOk result (λ words. map (λ word. word.now) words.items ≡ words_of line.now) }
{
    line.split(' ').collect(alloc)
}

// What a line of these words says.
#[tactic(auto, unfolding(crate::specs::Lines::of_words))]
fn of_words(line: &str, words: &[&str]) -> Option<&'static Meaning>
    ensures { option_map code_of (option_copied result) ≡ of_words line.now
        (map (λ word. word.now) words.now) }
{
    match words {
        [] | [_] => other(line),
        [name, last] => of_two(line, name, last),
        [name, _, last] => of_three(line, name, last),
        [name, _, third, last] => of_four(line, name, third, last),
        [_, _, _, _, _, ..] => other(line),
    }
}

#[tactic(auto, unfolding(crate::specs::Lines::of_two))]
fn of_two(line: &str, name: &str, last: &str) -> Option<&'static Meaning>
    ensures { option_map code_of (option_copied result) ≡ of_two line.now name.now last.now }
{
    match name {
        "invalid" => invalid(number_in(last)),
        "unread" => unread(number_in(last)),
        "open" => row(OPEN.as_slice(), number_in(last)),
        "stopped" => row(STOPPED.as_slice(), number_in(last)),
        _ => other(line),
    }
}

#[tactic(auto, unfolding(crate::specs::Lines::of_three))]
fn of_three(line: &str, name: &str, last: &str) -> Option<&'static Meaning>
    ensures { option_map code_of (option_copied result) ≡ of_three line.now name.now last.now }
{
    match name {
        "skip" => skipped(last),
        "refused" => refused(number_in(last)),
        _ => other(line),
    }
}

#[tactic(auto, unfolding(crate::specs::Lines::of_four))]
fn of_four(line: &str, name: &str, third: &str, last: &str) -> Option<&'static Meaning>
    ensures { option_map code_of (option_copied result) ≡ of_four line.now name.now third.now
        last.now }
{
    if name == "refused" && third == "10" {
        invalid(number_in(last))
    } else {
        other(line)
    }
}

#[tactic(auto, unfolding(crate::specs::Lines::refused))]
fn refused(number: u8) -> Option<&'static Meaning>
    ensures { option_map code_of (option_copied result) ≡ refused number }
{
    if number > BEFORE_INVALID {
        invalid(number - BEFORE_INVALID)
    } else if number > BEFORE_UNREAD {
        unread(number - BEFORE_UNREAD)
    } else {
        row(REFUSED.as_slice(), number.saturating_sub(BEFORE_REFUSED))
    }
}

fn skipped(reason: &str) -> Option<&'static Meaning>
    ensures { option_map code_of (option_copied result) ≡ skipped reason.now }
{
    first_ending(SKIPPED.as_slice(), reason)
}

// What a line with a code of another kind says.
fn other(line: &str) -> Option<&'static Meaning>
    ensures { option_map code_of (option_copied result) ≡ other line.now }
{
    first_of(OTHERS.as_slice(), line)
}
