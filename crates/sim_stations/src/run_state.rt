ghost use Rattle.std.specs.Prelude.{[], None};
ghost use Rattle.records.specs.declared.owner.Owner.{Owner};
ghost use Rattle.world_law.specs.Networks.{SiteState, goes_down};
ghost use Rattle.sim_stations.specs.Stations.{Represents};
ghost use Rattle.sim_stations.specs.declared.run_state.RunState.TheVariants.{AtRest};

use cell_device::MemoryCell;
use site::Site;

/// Whether a site runs, or is down and its cell is at rest.
#[derive(Drop)]
pub enum RunState {
    Running(Site<MemoryCell>),
    AtRest(MemoryCell),
}

impl RunState {
    /// The cell, once the site has stopped.
    pub(crate) fn closed(self) -> MemoryCell
        ensures { (owner : Owner) (s : SiteState) → Represents owner self s
            → Represents owner (AtRest result) (goes_down owner.site s None []).site }
    {
        match self {
            RunState::Running(site) => site.close(),
            RunState::AtRest(cell) => cell,
        }
    }
}
