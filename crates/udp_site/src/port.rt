ghost use Rattle.std.specs.Prelude.{◌≡◌, ◌≤◌, ℕ, List, Option, None};
ghost use Rattle.cell_device.specs.Calls.{HasCause};
ghost use Rattle.udp_site.specs.Traffic.{Move, IsReceived, IsTakenIn, IsHanded};
ghost use Rattle.udp_site.specs.declared.port_fault.PortFault.TheVariants as faults;

use crate::port_fault::PortFault;
use crate::status::Counts;
use crate::turn::Turn;
use addresses::Address;

/// Where datagrams come in and are handed out.
pub trait Port {
    // All that it took in and was handed, and which receives failed, in order, where that is known.
    ghost traffic: { Self → Option (List Move) } = { λ _. None };

    // How often its device has failed.
    ghost failures: { Self → ℕ };

    /// Waits for a datagram, for as long as the port waits in one turn.
    fn receive(&mut self) -> Result<Turn, PortFault>
        ensures received { IsReceived (traffic self.old) (traffic self.new) result }
        ensures cause { HasCause faults.Device (failures self.old) (failures self.new) result };

    /// Takes in a datagram that is there, and waits for none; or the turn is idle, where that is
    /// due at once. `None`: none is there, or it couldn't be taken in; if that goes on, `receive`
    /// says so.
    fn try_receive(&mut self) -> Option<Turn>
        ensures taken { IsTakenIn (traffic self.old) (traffic self.new) result }
        ensures later { failures self.old ≤ failures self.new };

    /// Sends a datagram to an address. `Device`: it counts as handed out, but is lost. `Memory`: it
    /// wasn't handed out.
    fn send(&mut self, to: Address, bytes: &[u8]) -> Result<(), PortFault>
        ensures handed { IsHanded (traffic self.old) (traffic self.new) (to, bytes.now) result }
        ensures cause { HasCause faults.Device (failures self.old) (failures self.new) result };

    /// What is written next are the lines of a batch: how many there are after each of its turns.
    /// A port that is logged tells its log, which says with each line what came.
    fn will_say(&mut self, _after: &[usize])
        ensures traffic { traffic self.new ≡ traffic self.old }
        ensures failures { failures self.new ≡ failures self.old }
    {}

    /// What it took in last is for the batch after the one that is taken in. A port that is logged
    /// tells its log, which counts it with that batch.
    fn carries_last(&mut self)
        ensures traffic { traffic self.new ≡ traffic self.old }
        ensures failures { failures self.new ≡ failures self.old }
    {}

    /// So many deposits of the site wait that it hasn't proposed yet, as far as they were counted:
    /// before a batch is synced, and after it. A port may have as many turns idle at once as the
    /// site needs to propose them.
    fn awaits_turns(&mut self, _deposits: u32)
        ensures traffic { traffic self.new ≡ traffic self.old }
        ensures failures { failures self.new ≡ failures self.old }
    {}

    /// Whether it is time to say what the site counts. A port that answers how the site stands asks
    /// for that after a batch, but not so often that counting takes long.
    fn wants_counts(&mut self) -> bool
        ensures traffic { traffic self.new ≡ traffic self.old }
        ensures failures { failures self.new ≡ failures self.old }
    {
        false
    }

    /// This is what the site counts.
    fn notes_counts(&mut self, _counts: Counts)
        ensures traffic { traffic self.new ≡ traffic self.old }
        ensures failures { failures self.new ≡ failures self.old }
    {}
}
