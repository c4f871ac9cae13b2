//! What a site that serves does in a turn.

ghost use Rattle.std.specs.Prelude.{◌<◌};
ghost use Rattle.udp_site.specs.Traffic.{taken, From};
ghost use Rattle.udp_site.specs.Turns.{turn_of};
ghost use Rattle.udp_site.specs.inner.Servers.{Comes, ComesOfTurn, Keeps, Stays};

use crate::port::Port;
use crate::requests::{Asked, asked_by};
use crate::server::Server;
use crate::turn::Turn;
use addresses::Address;
use bag_folders::Folders;
use cell_device::Cell;
use std::alloc::AllocError;

impl<C: Cell, P: Port, F: Folders> Server<'_, '_, '_, '_, '_, C, P, F> {
    /// Does what a turn asks for: calls the site, hands out its datagrams and then replies, and
    /// adds the lines to write.
    pub(crate) fn handle_turn(&mut self, turn: &Turn) -> Result<(), AllocError>
        requires { self.old.progress.idle < 4294967295 }
        ensures turn { ComesOfTurn P.traffic
            (λ s. turn_of C.device self.old.addresses.now (F.gives self.old.folders.now) s
            (taken turn.now)) self.old self.new result }
        ensures keeps { Keeps P.failures F.gives self.old self.new }
    {
        match turn {
            Turn::Idle => self.idle(),
            Turn::Got(from, bytes) => self.handle_datagram(*from, bytes),
        }
    }

    // A datagram came from this port.
    fn handle_datagram(&mut self, from: Address, bytes: &[u8]) -> Result<(), AllocError>
        ensures comes { Comes P.traffic
            (λ s. turn_of C.device self.old.addresses.now (F.gives self.old.folders.now) s
            (From from bytes.now)) self.old self.new result }
        ensures stays { Stays P.failures F.gives self.old self.new }
    {
        match asked_by(self.alloc, self.site.members().federation(), bytes)? {
            Asked::Hear(message) => self.handle_message(message),
            Asked::Deposit(slot, path) => self.handle_deposit(from, slot, &path),
            Asked::Query(slot) => self.handle_query(from, slot),
            Asked::Recover(slot) => self.handle_recover(&slot),
            Asked::Nothing => self.drop_datagram(),
        }
    }
}
