ghost use Rattle.std.specs.Prelude.{◌≡◌, ◌≤◌, ◌<◌, ◌+◌, ◌^◌, length, map, vec_len, Ok, Err, IfOk};
ghost use Rattle.std.specs.Prelude.{IfErr};
ghost use Rattle.std.specs.Str.Lines.{lines};
ghost use Rattle.tokens.specs.Words.{words_of};
ghost use Rattle.schedule.specs.Plans.{is_skipped, later_line, later_lines, plan_of};
ghost use Rattle.schedule.specs.Faults.{IsOrMemory};

use crate::command::Command;
use crate::fault::ParseFault;
use crate::parse_command::parse_command;
use crate::parse_federation::parse_federation;
use crate::plan::Schedule;
use std::alloc::{AllocError, Global};
use tokens::{first_line, split_words};

/// The schedule of a text, or the number of its first line at fault. `Memory` is answered only if
/// an allocation failed.
pub fn parse(alloc: Global, text: &[u8]) -> Result<Schedule, ParseFault>
    ensures { IsOrMemory result (plan_of text.now) }
{
    let mut rest = text;
    let mut skipped = 0;
    while let Some((line, after)) = first_line(rest) {
        let words = split_words(alloc, line)?;
        if !skips(line, &words) {
            let members = parse_federation(&words).ok_or(ParseFault::Line(skipped + 1))?;
            let commands = parse_lines(alloc, after, skipped + 2)?;
            return Ok(Schedule::new(skipped, members, commands));
        }
        skipped += 1;
        rest = after;
    }
    Err(ParseFault::Line(1))
}

// Whether a line of these words is skipped: it has no word, or it is a comment.
fn skips(line: &[u8], words: &[&[u8]]) -> bool
    requires { map (λ word. word.now) words.now ≡ words_of line.now }
    ensures { result ≡ is_skipped line.now }
{
    words.is_empty() || line.first() == Some(&b'#')
}

// What the lines of a text say; the first of them is the line of this number.
fn parse_lines(alloc: Global, text: &[u8], first: usize) -> Result<Vec<Option<Command>>, ParseFault>
    requires { first + length text.now < 2 ^ 64 }
    ensures value { IfOk result
        (λ commands. later_lines first (lines text.now) ≡ Ok commands.items) }
    ensures fault { IfErr result
        (λ fault. IsOrMemory (Err fault) (later_lines first (lines text.now))) }
    ensures bound { IfOk result (λ commands. vec_len commands ≤ length text.now) }
{
    let mut commands = Vec::new(alloc);
    let mut rest = text;
    let mut number = first;
    while let Some((line, after)) = first_line(rest) {
        let said = parse_line(alloc, line)?.ok_or(ParseFault::Line(number))?;
        commands.push(said)?;
        number += 1;
        rest = after;
    }
    Ok(commands)
}

// What one line says: it is skipped, or it is a command, or (`None`) it is neither.
#[tactic(auto, unfolding(crate::specs::Plans::later_line))]
fn parse_line(alloc: Global, line: &[u8]) -> Result<Option<Option<Command>>, AllocError>
    ensures { IfOk result (λ said. said ≡ later_line line.now) }
{
    let words = split_words(alloc, line)?;
    if skips(line, &words) {
        return Ok(Some(None));
    }
    Ok(parse_command(alloc, &words)?.map(Some))
}
