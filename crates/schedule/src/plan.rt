ghost use Rattle.std.specs.Prelude.{◌≡◌, ◌+◌, ◌<◌, ◌^◌, length, vec_len};
ghost use Rattle.schedule.specs.Plans.{plan_with};
ghost use Rattle.schedule.specs.Schedules.{IsPlan};

use crate::command::Command;
use fed_types::Members;
use std::marker::Model;

/// A schedule: a federation's members, and what each line of its text says. A clause sees a `Plan`.
#[derive(Debug, Drop)]
pub struct Schedule {
    skipped: usize,
    members: Members,
    lines: Vec<Option<Command>>,
}

impl Model for Schedule {
    ghost use Rattle.std.specs.Prelude.{◌+◌, ◌<◌, ◌^◌, vec_len};
    ghost use Rattle.schedule.specs.Plans.{Plan, plan_with};
    ghost use Rattle.schedule.specs.Schedules.{IsPlan};

    ghost Value = { Plan };

    ghost view = { λ s. plan_with s.skipped s.members s.lines.items };

    // Each line's number fits, and every part is in its range.
    ghost invariant = { λ s. (s.skipped + 2 + vec_len s.lines < 2 ^ 64)
        × IsPlan (plan_with s.skipped s.members s.lines.items) };
}

impl Schedule {
    /// The schedule of a federation's line, after some lines that are skipped, and of what the
    /// lines after it say.
    pub(crate) fn new(skipped: usize, members: Members, lines: Vec<Option<Command>>) -> Schedule
        requires room { skipped + 2 + vec_len lines < 2 ^ 64 }
        requires in_range { IsPlan (plan_with skipped members lines.items) }
        ensures { result ≡ plan_with skipped members lines.items }
    {
        Schedule {
            skipped,
            members,
            lines,
        }
    }

    /// How many lines are skipped before the line of the federation. That line has the next number.
    pub fn skipped(&self) -> usize
        ensures { result ≡ self.now.skipped }
    {
        self.skipped
    }

    /// The number of the line after the federation's, counted from 1. The numbers of all lines fit.
    pub fn first_line(&self) -> usize
        ensures value { result ≡ self.now.skipped + 2 }
        ensures room { result + length self.now.lines < 2 ^ 64 }
    {
        let _lines = &self.lines;
        self.skipped + 2
    }

    /// The members of the federation.
    pub fn members(&self) -> Members
        ensures { result ≡ self.now.members }
    {
        self.members
    }

    /// Each line after the federation's: its command, or `None` if it is skipped. Every part of
    /// each is in its range.
    pub fn lines(&self) -> &[Option<Command>]
        ensures value { result.now ≡ self.now.lines }
        ensures in_range { IsPlan self.now }
    {
        self.lines.as_slice()
    }
}
