ghost use Rattle.std.specs.Prelude.{◌≡◌, IfOk};
ghost use Rattle.world_law.specs.Headline.{LinesAgree, ReportsWereDeposited};
ghost use Rattle.world_law.specs.Worlds.{run_of};

use crate::fault::RunFault;
use crate::federation::Federation;
use crate::trace::Trace;
use schedule::Schedule;
use std::alloc::Global;

/// Runs a schedule: the lines are those of the reference run. No two of them report different bags
/// for one slot. Each bag that a line reports was deposited for the slot by an earlier line of the
/// schedule than the one that prints it, from files that were a valid bag of its identity. The only
/// fault is out of memory, and then there is no trace.
#[tactic(auto, unfolding(world_law::specs::Worlds::run_of))]
pub fn run(alloc: Global, schedule: &Schedule) -> Result<Trace, RunFault>
    ensures lines { IfOk result (λ trace. trace ≡ (run_of schedule.now).lines) }
    ensures agree { IfOk result (λ trace. LinesAgree trace) }
    ensures deposited { IfOk result (λ trace. ReportsWereDeposited schedule.now trace) }
{
    let mut federation = Federation::new(alloc, schedule.members())?;
    let first = schedule.first_line();
    'lines: for (index, line) in schedule.lines().iter().enumerate() {
        federation = federation.run_line(first + index, line)?;
    }
    Ok(Trace::new(federation.into_lines()))
}
