ghost use Rattle.std.specs.Prelude.{◌≡◌, IfOk, Ok, string_bytes};
ghost use Rattle.schedule.specs.Plans.{plan_of};
ghost use Rattle.tokens.specs.Pushes.{Pushes};
ghost use Rattle.schedule.specs.Texts.{printed_line, schedule_text};

use crate::command::Command;
use crate::plan::Schedule;
use crate::print_command::push_command;
use crate::print_federation::push_federation;
use std::alloc::{AllocError, Global};

/// The one text in which a schedule is printed: each command on its line's number, with single
/// spaces, numbers without leading zeros, hex digits in lower case, names and paths escaped, and an
/// empty line for each that is skipped. Parsed again, it is the schedule.
pub fn print(alloc: Global, schedule: &Schedule) -> Result<String, AllocError>
    ensures text { IfOk result (λ text. string_bytes text ≡ schedule_text schedule.now) }
    ensures again { IfOk result (λ text. plan_of (string_bytes text) ≡ Ok schedule.now) }
{
    let mut text = String::new(alloc);
    for _ in 0..schedule.skipped() {
        text.push('\n')?;
    }
    push_federation(&mut text, schedule.members())?;
    for line in schedule.lines() {
        push_line(alloc, &mut text, line)?;
    }
    Ok(text)
}

// Appends the line of a command, or an empty one.
fn push_line(alloc: Global, text: &mut String, line: &Option<Command>) -> Result<(), AllocError>
    ensures { Pushes result text.old text.new (printed_line line.now) }
{
    match line {
        Some(command) => push_command(alloc, text, command),
        None => text.push('\n'),
    }
}
