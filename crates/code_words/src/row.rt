//! The rows of the tables of codes.

ghost use Rattle.std.specs.Prelude.{◌≡◌, ◌≤◌, ◌↔◌, IsSome, length, map, option_map};
ghost use Rattle.std.specs.List.{find};
ghost use Rattle.std.specs.Option.{option_copied};
ghost use Rattle.code_words.specs.Rows.{row, code_of};
ghost use Rattle.code_words.specs.Lines.{ends, has_code};

use crate::code_of_line::{ends, has_code};
use crate::meaning::Meaning;

/// The row of a number that counts from 1, if the table has one.
pub(crate) fn row(table: &'static [Meaning], number: u8) -> Option<&'static Meaning>
    ensures code { option_map code_of (option_copied result)
        ≡ row (map code_of table.entry.now) number }
    ensures is { IsSome result ↔ ((1 ≤ number) × (number ≤ length table.entry.now)) }
{
    table.get(usize::from(number).checked_sub(1)?)
}

/// The first row of a code that the line has.
pub(crate) fn first_of(table: &'static [Meaning], line: &str) -> Option<&'static Meaning>
    ensures { option_copied result
        ≡ find (λ m. has_code line.now (code_of m)) table.entry.now }
{
    table.iter().find(|m| has_code(line, m.code))
}

/// The first row of a code that ends so.
pub(crate) fn first_ending(table: &'static [Meaning], end: &str) -> Option<&'static Meaning>
    ensures { option_copied result
        ≡ find (λ m. ends (code_of m) end.now) table.entry.now }
{
    table.iter().find(|m| ends(m.code, end))
}
