//! A schedule that is run.

ghost use Rattle.std.specs.Prelude.{◌≡◌, IfSome, IfOk, IsOk, string_bytes};
ghost use Rattle.lines.specs.Texts.{text_of};
ghost use Rattle.schedule.specs.Plans.{plan_of};
ghost use Rattle.world_law.specs.Worlds.{run_of};

use lines::Options;
use schedule::parse;
use simulator::{run, text};
use std::alloc::Global;

/// What the sites print in a run of this schedule, exactly as in the reference run; none if the
/// text is no schedule, or if memory runs out.
pub fn printed_run(alloc: Global, schedule: &[u8], options: Options) -> Option<String>
    ensures schedule { IfSome result (λ text. IsOk (plan_of schedule.now)) }
    ensures lines { IfSome result (λ text. IfOk (plan_of schedule.now)
        (λ plan. string_bytes text ≡ text_of options (run_of plan).lines)) }
{
    let schedule = parse(alloc, schedule).ok()?;
    let trace = run(alloc, &schedule).ok()?;
    text(alloc, &trace, options).ok()
}
