//! A call of a site.

ghost use Rattle.std.specs.Prelude.{◌≡◌, ◌<◌, ◌+◌, length, false, OnOk};
ghost use Rattle.sim_stations.specs.Calls.{input_of};
ghost use Rattle.sim_stations.specs.Modes.{is_down, is_up};
ghost use Rattle.world_law.specs.Networks.{takes, Propose, Recover, Ask};
ghost use Rattle.world_law.specs.Worlds.{World, mode_of, quorums, unless_down, event_at};
ghost use Rattle.simulator.specs.Federations.{Represents, IsSound};
ghost use Rattle.simulator.specs.Inputs.{after_input, place_in};

use crate::federation::Federation;
use crate::said_lines::tell;
use crate::sends::send_all;
use bag_tree::Facts;
use fed_types::{Slot, slots_are_well_formed};
use lines::Reason;
use schedule::Fate;
use sim_stations::{SiteCall, Told};
use std::alloc::AllocError;

impl Federation {
    /// The place of a site's station, where it is a member.
    pub(crate) fn place_of(&self, site: u8) -> Option<usize>
        ensures { result ≡ place_in (length self.now.stations.items) site }
    {
        let place = usize::from(site).checked_sub(1)?;
        if place < self.stations.len() {
            Some(place)
        } else {
            None
        }
    }

    /// The number of the site at this place.
    pub(crate) fn site_at(&self, place: usize) -> u8
        requires { place < length self.now.stations.items }
        ensures { (w : World) → Represents self.now w → result ≡ place + 1 }
    {
        self.stations[place].number().number()
    }

    pub(crate) fn is_down(&self, place: usize) -> bool
        requires { place < length self.now.stations.items }
        ensures { (w : World) → Represents self.now w → result ≡ is_down (mode_of w (place + 1)) }
    {
        self.stations[place].is_down()
    }

    pub(crate) fn is_up(&self, place: usize) -> bool
        requires { place < length self.now.stations.items }
        ensures { (w : World) → Represents self.now w → result ≡ is_up (mode_of w (place + 1)) }
    {
        self.stations[place].is_up()
    }

    /// A call reaches the site, unless it is down.
    pub(crate) fn call(
        &mut self,
        number: usize,
        place: usize,
        call: &SiteCall,
        fate: Fate,
    ) -> Result<(), AllocError>
        requires { place < length self.old.stations.items }
        ensures { OnOk result ((w : World) → Represents self.old w
            → IsSound (quorums w) (takes (quorums w) w.network (place + 1)
            (input_of w.members.federation call.now) fate).network
            → Represents self.new (unless_down w number (mode_of w (place + 1))
            (after_input w (place + 1) (input_of w.members.federation call.now) fate))) }
    {
        if self.is_down(place) {
            return self.skip(number, Reason::Down);
        }
        self.undergo(place, call, fate)
    }

    /// A call reaches the site, which isn't down.
    pub(crate) fn undergo(
        &mut self,
        place: usize,
        call: &SiteCall,
        fate: Fate,
    ) -> Result<(), AllocError>
        requires { place < length self.old.stations.items }
        ensures { OnOk result ((w : World) → Represents self.old w
            → is_down (mode_of w (place + 1)) ≡ false
            → IsSound (quorums w) (takes (quorums w) w.network (place + 1)
            (input_of w.members.federation call.now) fate).network
            → Represents self.new
            (after_input w (place + 1) (input_of w.members.federation call.now) fate)) }
    {
        let station = self.stations[place].take();
        let (station, told) = station.call(call, fate)?;
        self.stations[place] = station;
        let Told { notice, sends } = told;
        tell(&mut self.lines, &self.seen, notice)?;
        send_all(&mut self.lines, &mut self.sent, sends)
    }

    /// A member is called to propose.
    pub(crate) fn propose(
        &mut self,
        number: usize,
        place: usize,
        slot: &Slot,
        fate: Fate,
    ) -> Result<(), AllocError>
        requires { place < length self.old.stations.items }
        ensures { OnOk result ((w : World) → Represents self.old w
            → Represents self.new
            (event_at w number (place + 1) (Propose (place + 1) slot.now fate))) }
    {
        slots_are_well_formed(slot);
        // The checker of borrows has to know each type that a call may hold.
        let _facts: Option<&Facts> = None;
        self.call(number, place, &SiteCall::Propose(slot), fate)
    }

    /// A member is called to recover.
    pub(crate) fn recover(
        &mut self,
        number: usize,
        place: usize,
        slot: &Slot,
        fate: Fate,
    ) -> Result<(), AllocError>
        requires { place < length self.old.stations.items }
        ensures { OnOk result ((w : World) → Represents self.old w
            → Represents self.new
            (event_at w number (place + 1) (Recover (place + 1) slot.now fate))) }
    {
        slots_are_well_formed(slot);
        let _facts: Option<&Facts> = None;
        self.call(number, place, &SiteCall::Recover(slot), fate)
    }

    /// A member is called to ask another.
    pub(crate) fn ask(
        &mut self,
        number: usize,
        place: usize,
        asked: usize,
        slot: &Slot,
        fate: Fate,
    ) -> Result<(), AllocError>
        requires place { place < length self.old.stations.items }
        requires asked { asked < length self.old.stations.items }
        ensures { OnOk result ((w : World) → Represents self.old w
            → Represents self.new
            (event_at w number (place + 1) (Ask (place + 1) (asked + 1) slot.now fate))) }
    {
        slots_are_well_formed(slot);
        let to = self.stations[asked].number();
        let _facts: Option<&Facts> = None;
        self.call(number, place, &SiteCall::Ask(slot, to), fate)
    }
}
