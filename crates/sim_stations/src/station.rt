ghost use Rattle.std.specs.Prelude.{◌≡◌, [], Some, None, length, take, IfOk};
ghost use Rattle.cell_device.specs.declared.memory_cell.MemoryCell.{MemoryCell};
ghost use Rattle.site.specs.Calls.{Input};
ghost use Rattle.site.specs.Sites.{OpenSite};
ghost use Rattle.world_law.specs.Networks.{SiteState, new_site, opened, goes_down};
ghost use Rattle.sim_stations.specs.Calls.{input_of};
ghost use Rattle.sim_stations.specs.Fates.{before_stop};
ghost use Rattle.sim_stations.specs.Modes as modes;
ghost use Rattle.sim_stations.specs.Stations.{Represents, Undergoes, reply_in};
ghost use Rattle.sim_stations.specs.declared.run_state.RunState.TheVariants.{Running};
ghost use Rattle.lines.specs.declared.notice.Notice.TheVariants.{GoesDown};

use crate::fates::undergo;
use crate::opened_site::open;
use crate::run_state::RunState;
use crate::site_call::SiteCall;
use crate::told::{Told, nothing};
use cell_device::MemoryCell;
use fed_types::{SiteNo, Slot};
use lines::Notice;
use records::Owner;
use schedule::Fate;
use site::{Reply, SiteFault};
use std::alloc::{AllocError, Global};
use std::mem;

/// A site of a federation in a simulator: whose it is, and whether it runs.
#[derive(Drop)]
pub struct Station {
    alloc: Global,
    owner: Owner,
    run_state: RunState,
}

impl Station {
    /// A new site, which is up: it has no records. `Err`: out of memory.
    pub fn new(alloc: Global, owner: Owner) -> Result<Station, AllocError>
        ensures whose { IfOk result (λ station. station.owner ≡ owner) }
        ensures is_new { IfOk result (λ station. Represents owner station.run_state new_site) }
    {
        let empty = MemoryCell::new(alloc, Vec::new(alloc));
        let opened = open(alloc, empty, &owner)?;
        Ok(Station {
            alloc,
            owner,
            run_state: RunState::Running(opened),
        })
    }

    /// The site's number.
    pub fn number(&self) -> SiteNo
        ensures { result ≡ self.now.owner.site }
    {
        self.owner.site
    }

    /// Whether it runs.
    pub fn run_state(&self) -> &RunState
        ensures { result.now ≡ self.now.run_state }
    {
        &self.run_state
    }

    /// It isn't running.
    pub fn is_down(&self) -> bool
        ensures { (s : SiteState) → Represents self.now.owner self.now.run_state s
            → result ≡ modes.is_down s.mode }
    {
        matches!(self.run_state, RunState::AtRest(_))
    }

    /// It runs, and its device hasn't failed since it was opened.
    pub fn is_up(&self) -> bool
        ensures { (s : SiteState) → Represents self.now.owner self.now.run_state s
            → result ≡ modes.is_up s.mode }
    {
        match &self.run_state {
            RunState::Running(site) => !site.needs_opening(),
            RunState::AtRest(_) => false,
        }
    }

    /// Moves the station out of its place among others, until it is put back, and leaves an empty
    /// one there: at rest, over a cell with no bytes.
    pub fn take(&mut self) -> Station
        ensures { result ≡ self.old }
    {
        let left = Station {
            alloc: self.alloc,
            owner: self.owner,
            run_state: RunState::AtRest(MemoryCell::new(self.alloc, Vec::new(self.alloc))),
        };
        mem::replace(self, left)
    }

    /// The site is called, under a fate. `Err`: out of memory, and the station is dropped.
    pub fn call(self, call: &SiteCall, fate: Fate) -> Result<(Station, Told), AllocError>
        ensures whose { IfOk result (λ done. done.0.owner ≡ self.owner) }
        ensures comes { IfOk result (λ done. Undergoes self.owner
            (input_of self.owner.members.federation call.now) fate self.run_state done.0.run_state
            done.1) }
    {
        let Station {
            alloc,
            owner,
            run_state,
        } = self;
        match run_state {
            RunState::Running(mut site) => {
                let told = undergo(alloc, &mut site, call, fate)?;
                let run_state = RunState::Running(site);
                let station = Station {
                    alloc,
                    owner,
                    run_state,
                };
                Ok(station.ended(fate, told))
            }
            RunState::AtRest(cell) => {
                let run_state = RunState::AtRest(cell);
                let station = Station {
                    alloc,
                    owner,
                    run_state,
                };
                Ok((station, nothing(alloc)))
            }
        }
    }

    /// What the site knows of the slot, unless it is down.
    pub fn query(&self, slot: &Slot) -> Option<Result<Reply, SiteFault>>
        ensures { (s : SiteState) → Represents self.now.owner self.now.run_state s
            → result ≡ reply_in slot.now s s.mode }
    {
        match &self.run_state {
            RunState::Running(site) => Some(site.query(slot)),
            RunState::AtRest(_) => None,
        }
    }

    /// The site stops between calls.
    pub fn stop(self) -> Station
        ensures whose { result.owner ≡ self.owner }
        ensures stops { (s : SiteState) → Represents self.owner self.run_state s
            → Represents self.owner result.run_state (goes_down self.owner.site s None []).site }
    {
        let Station {
            alloc,
            owner,
            run_state,
        } = self;
        Station {
            alloc,
            owner,
            run_state: RunState::AtRest(run_state.closed()),
        }
    }

    /// The site is opened, with this many records. `Err`: out of memory, and the station is
    /// dropped.
    pub fn start(self) -> Result<(Station, usize), AllocError>
        ensures whose { IfOk result (λ done. done.0.owner ≡ self.owner) }
        ensures starts { IfOk result (λ done. (s : SiteState)
            → Represents self.owner self.run_state s
            → (Represents self.owner done.0.run_state (opened self.owner.site s).site)
            × (done.1 ≡ length s.records)) }
    {
        let Station {
            alloc,
            owner,
            run_state,
        } = self;
        let running = open(alloc, run_state.closed(), &owner)?;
        let count = running.records().len();
        let station = Station {
            alloc,
            owner,
            run_state: RunState::Running(running),
        };
        Ok((station, count))
    }

    // The end of a running site's call: the site stops, where that is its fate.
    fn ended(self, fate: Fate, told: Told) -> (Station, Told)
        ensures whose { result.0.owner ≡ self.owner }
        ensures ends { (input : Input) (site : OpenSite MemoryCell)
            → Undergoes self.owner input (before_stop fate) (Running site) self.run_state told
            → Undergoes self.owner input fate (Running site) result.0.run_state result.1 }
    {
        match fate {
            Fate::Whole | Fate::FailsIn(..) => (self, told),
            Fate::StopsAfter(first) => self.stopped(told, first as usize),
            Fate::StopsIn(..) => self.stopped(told, 0),
        }
    }

    // The site stops, and the first of the datagrams were sent before that.
    fn stopped(self, told: Told, first: usize) -> (Station, Told)
        ensures whose { result.0.owner ≡ self.owner }
        ensures notice { result.1.notice ≡ Some (GoesDown self.owner.site) }
        ensures sends { result.1.sends.items ≡ take first told.sends.items }
        ensures stops { (s : SiteState) → Represents self.owner self.run_state s
            → Represents self.owner result.0.run_state (goes_down self.owner.site s None []).site }
    {
        let station = self.stop();
        let mut sends = told.sends;
        sends.truncate(first);
        let site = station.number().number();
        let told = Told {
            notice: Some(Notice::GoesDown { site }),
            sends,
        };
        (station, told)
    }
}
