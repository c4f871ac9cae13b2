//! The commands of a schedule.

ghost use Rattle.std.specs.Prelude.{◌<◌, ◌+◌, length, OnOk, IfOk};
ghost use Rattle.world_law.specs.Networks.{Ask};
ghost use Rattle.world_law.specs.Worlds.{World, after_line, after_command, on_call, at_member};
ghost use Rattle.world_law.specs.Worlds.{event_at};
ghost use Rattle.simulator.specs.Federations.{Represents};

use crate::federation::Federation;
use fed_types::Slot;
use lines::Reason;
use schedule::{Call, Command, Fate};
use std::alloc::AllocError;

impl Federation {
    /// Runs the line of this number: its command, if it has one. `Err`: out of memory, and the
    /// federation is dropped.
    pub fn run_line(self, number: usize, line: &Option<Command>) -> Result<Federation, AllocError>
        ensures { IfOk result (λ after. (w : World) → Represents self w
            → Represents after (after_line w number line.now)) }
    {
        let mut federation = self;
        match line {
            Some(command) => federation.run_command(number, command)?,
            None => {}
        }
        Ok(federation)
    }

    fn run_command(&mut self, number: usize, command: &Command) -> Result<(), AllocError>
        ensures { OnOk result ((w : World) → Represents self.old w
            → Represents self.new (after_command w number command.now)) }
    {
        match command {
            Command::Tree { tree } => self.declare_tree(number, *tree),
            Command::Folder { tree } => self.add_folder(number, *tree),
            Command::File {
                tree,
                path,
                content,
            } => self.add_file(number, *tree, path.as_str(), content.as_slice()),
            Command::Call { call, fate } => self.run_call(number, call, *fate),
            Command::Query { site, slot } => match self.place_of(*site) {
                Some(place) => self.query(number, place, slot),
                None => self.skip(number, Reason::Site),
            },
            Command::Raw { site, bytes } => match self.place_of(*site) {
                Some(place) => self.raw(number, place, bytes.as_slice()),
                None => self.skip(number, Reason::Site),
            },
            Command::Pump { turns } => self.pump(number, *turns),
            Command::Stop { site } => match self.place_of(*site) {
                Some(place) => self.stop(number, place),
                None => self.skip(number, Reason::Site),
            },
            Command::Start { site } => match self.place_of(*site) {
                Some(place) => self.start(number, place),
                None => self.skip(number, Reason::Site),
            },
        }
    }

    fn run_call(&mut self, number: usize, call: &Call, fate: Fate) -> Result<(), AllocError>
        ensures { OnOk result ((w : World) → Represents self.old w
            → Represents self.new (on_call w number call.now fate)) }
    {
        match call {
            Call::Deposit { site, tree, slot } => match self.place_of(*site) {
                Some(place) => self.deposit(number, place, *tree, slot, fate),
                None => self.skip(number, Reason::Site),
            },
            Call::Propose { site, slot } => match self.place_of(*site) {
                Some(place) => self.propose(number, place, slot, fate),
                None => self.skip(number, Reason::Site),
            },
            Call::Recover { site, slot } => match self.place_of(*site) {
                Some(place) => self.recover(number, place, slot, fate),
                None => self.skip(number, Reason::Site),
            },
            Call::Deliver { datagram } => self.deliver(number, *datagram as usize, fate),
            Call::Ask { site, to, slot } => match self.place_of(*site) {
                Some(place) => self.ask_site(number, place, *to, slot, fate),
                None => self.skip(number, Reason::Site),
            },
        }
    }

    // A member is called to ask a site.
    fn ask_site(
        &mut self,
        number: usize,
        place: usize,
        to: u8,
        slot: &Slot,
        fate: Fate,
    ) -> Result<(), AllocError>
        requires { place < length self.old.stations.items }
        ensures { OnOk result ((w : World) → Represents self.old w
            → Represents self.new (at_member w number to (event_at w number (place + 1)
            (Ask (place + 1) to slot.now fate)))) }
    {
        match self.place_of(to) {
            Some(asked) => self.ask(number, place, asked, slot, fate),
            None => self.skip(number, Reason::Site),
        }
    }
}
