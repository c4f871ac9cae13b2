//! Queries, stops and starts.

ghost use Rattle.std.specs.Prelude.{◌≡◌, ◌<◌, ◌+◌, length, OnOk};
ghost use Rattle.world_law.specs.Networks.{Query, Stop};
ghost use Rattle.world_law.specs.Worlds.{World, event_at, mode_of, on_start, after_event};
ghost use Rattle.sim_stations.specs.Stations.{reply_in};
ghost use Rattle.simulator.specs.Federations.{Represents};
ghost use Rattle.std.specs.Prelude.{Some};

use crate::federation::Federation;
use crate::said_lines::{line_said, tell};
use fed_types::Slot;
use lines::{Notice, Reason, reply_notice};
use site::{Reply, SiteFault};
use std::alloc::AllocError;

impl Federation {
    /// A member is asked what it knows of the slot.
    pub(crate) fn query(
        &mut self,
        number: usize,
        place: usize,
        slot: &Slot,
    ) -> Result<(), AllocError>
        requires { place < length self.old.stations.items }
        ensures { OnOk result ((w : World) → Represents self.old w
            → Represents self.new (event_at w number (place + 1) (Query (place + 1) slot.now))) }
    {
        match self.stations[place].query(slot) {
            Some(reply) => self.reply(place, slot, reply),
            None => self.skip(number, Reason::Down),
        }
    }

    // A member replies so.
    fn reply(
        &mut self,
        place: usize,
        slot: &Slot,
        reply: Result<Reply, SiteFault>,
    ) -> Result<(), AllocError>
        requires { place < length self.old.stations.items }
        ensures { OnOk result ((w : World) → Represents self.old w
            → Some reply ≡ reply_in slot.now (w.network.sites (place + 1)) (mode_of w (place + 1))
            → Represents self.new (after_event w (Query (place + 1) slot.now))) }
    {
        let slot = slot.copy(self.alloc)?;
        let notice = reply_notice(self.site_at(place), slot, reply);
        let line = line_said(&self.seen, notice);
        self.say(line)
    }

    /// A member stops between calls.
    pub(crate) fn stop(&mut self, number: usize, place: usize) -> Result<(), AllocError>
        requires { place < length self.old.stations.items }
        ensures { OnOk result ((w : World) → Represents self.old w
            → Represents self.new (event_at w number (place + 1) (Stop (place + 1)))) }
    {
        if self.is_down(place) {
            return self.skip(number, Reason::Down);
        }
        let site = self.site_at(place);
        let station = self.stations[place].take();
        self.stations[place] = station.stop();
        tell(&mut self.lines, &self.seen, Some(Notice::GoesDown { site }))
    }

    /// A member that isn't up is opened.
    pub(crate) fn start(&mut self, number: usize, place: usize) -> Result<(), AllocError>
        requires { place < length self.old.stations.items }
        ensures { OnOk result ((w : World) → Represents self.old w
            → Represents self.new (on_start w number (place + 1) (mode_of w (place + 1)))) }
    {
        if self.is_up(place) {
            return self.skip(number, Reason::Up);
        }
        let site = self.site_at(place);
        let station = self.stations[place].take();
        let (station, records) = station.start()?;
        self.stations[place] = station;
        let notice = Notice::ComesUp { site, records };
        tell(&mut self.lines, &self.seen, Some(notice))
    }
}
