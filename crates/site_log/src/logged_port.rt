//! A port whose datagrams are noted.

use crate::site_log::SiteLog;
use addresses::Address;
use udp_site::{Counts, Port, PortFault, Turn};

/// A port that tells the log what came. Otherwise it delegates to it.
#[derive(Drop)]
pub struct LoggedPort<'a, P> {
    log: &'a SiteLog<'a>,
    port: P,
}

impl<'a, P: Port> LoggedPort<'a, P> {
    /// This port, with this log.
    pub fn new(log: &'a SiteLog<'a>, port: P) -> LoggedPort<'a, P> {
        LoggedPort { log, port }
    }
}

impl<P: Port> Port for LoggedPort<'_, P> {
    ghost use Rattle.cell_device.specs.Calls.{HasCause};
    ghost use Rattle.udp_site.specs.Traffic.{IsReceived, IsTakenIn, IsHanded};

    ghost traffic = { λ p. P.traffic p.port };

    ghost failures = { λ p. P.failures p.port };

    fn receive(&mut self) -> Result<Turn, PortFault> {
        let turn = self.port.receive()?;
        self.log.begins_with(&turn);
        Ok(turn)
    }

    fn try_receive(&mut self) -> Option<Turn> {
        let turn = self.port.try_receive()?;
        self.log.takes_in(&turn);
        Some(turn)
    }

    fn send(&mut self, to: Address, bytes: &[u8]) -> Result<(), PortFault> {
        self.port.send(to, bytes)
    }

    fn will_say(&mut self, after: &[usize]) {
        self.log.will_note(after);
    }

    fn carries_last(&mut self) {
        self.log.carries_last();
    }

    fn awaits_turns(&mut self, deposits: u32) {
        self.port.awaits_turns(deposits);
    }

    fn wants_counts(&mut self) -> bool {
        self.port.wants_counts()
    }

    fn notes_counts(&mut self, counts: Counts) {
        self.port.notes_counts(counts);
    }
}
