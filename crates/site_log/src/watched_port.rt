//! A port at which a site is watched.

use crate::watch::Watch;
use addresses::Address;
use udp_site::{Counts, Port, PortFault, Turn};

/// A port that tells a watch what came and what was handed out. Otherwise it delegates to it.
#[derive(Drop)]
pub struct WatchedPort<'a, P> {
    watch: &'a Watch<'a>,
    port: P,
}

impl<'a, P: Port> WatchedPort<'a, P> {
    /// This port, with this watch.
    pub fn new(watch: &'a Watch<'a>, port: P) -> WatchedPort<'a, P> {
        WatchedPort { watch, port }
    }
}

impl<P: Port> Port for WatchedPort<'_, P> {
    ghost use Rattle.cell_device.specs.Calls.{HasCause};
    ghost use Rattle.udp_site.specs.Traffic.{IsReceived, IsTakenIn, IsHanded};

    ghost traffic = { λ p. P.traffic p.port };

    ghost failures = { λ p. P.failures p.port };

    fn receive(&mut self) -> Result<Turn, PortFault> {
        let turn = self.port.receive()?;
        self.watch.begins_with(&turn);
        Ok(turn)
    }

    fn try_receive(&mut self) -> Option<Turn> {
        let turn = self.port.try_receive()?;
        self.watch.takes_in(&turn);
        Some(turn)
    }

    fn send(&mut self, to: Address, bytes: &[u8]) -> Result<(), PortFault> {
        self.watch.hands(bytes);
        self.port.send(to, bytes)
    }

    fn will_say(&mut self, after: &[usize]) {
        self.port.will_say(after);
    }

    fn carries_last(&mut self) {
        self.port.carries_last();
    }

    fn awaits_turns(&mut self, deposits: u32) {
        self.port.awaits_turns(deposits);
    }

    fn wants_counts(&mut self) -> bool {
        self.port.wants_counts()
    }

    fn notes_counts(&mut self, counts: Counts) {
        self.port.notes_counts(counts);
    }
}
