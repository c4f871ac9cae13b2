ghost use Rattle.std.specs.Prelude.{◌≡◌, ◌↔◌, true, false, IsErrOf};
ghost use Rattle.cell_device.specs.Memory.{device_of};
ghost use Rattle.proposer.specs.VolatileStates.{VolatileState};
ghost use Rattle.site.specs.Answered.{IsAnswered};
ghost use Rattle.site.specs.Sites.{Represents, effect};
ghost use Rattle.sim_stations.specs.Calls.{input_of};

use bag_tree::Facts;
use cell_device::MemoryCell;
use fed_types::{SiteNo, Slot};
use site::{Answer, Site, SiteFault};

/// What a site is called to do.
#[derive(Clone, Copy)]
pub enum SiteCall<'a> {
    /// To take a tree as the slot's deposit.
    Deposit(&'a Slot, &'a Facts),
    /// To propose the slot's deposit.
    Propose(&'a Slot),
    /// To recover what may be chosen for the slot.
    Recover(&'a Slot),
    /// To ask a member for the bag that it knows.
    Ask(&'a Slot, SiteNo),
    /// To take in what arrived.
    Arrive(&'a [u8]),
}

/// Makes the call.
pub(crate) fn make(site: &mut Site<MemoryCell>, call: &SiteCall) -> Result<Answer, SiteFault>
    ensures answer { site.old.book.needs_opening ≡ false → (volatile : VolatileState)
        → Represents site.old volatile
        → IsAnswered device_of site.old site.new volatile (effect site.old volatile
        (input_of site.old.book.owner.members.federation call.now)) result }
    ensures needs_open { IsErrOf result SiteFault.NeedsOpen
        ↔ (site.old.book.needs_opening ≡ true) }
    ensures untouched { site.old.book.needs_opening ≡ true → site.new ≡ site.old }
{
    match *call {
        SiteCall::Deposit(slot, facts) => site.deposit(slot, facts),
        SiteCall::Propose(slot) => site.propose(slot),
        SiteCall::Recover(slot) => site.recover(slot),
        SiteCall::Ask(slot, to) => site.ask(slot, to),
        SiteCall::Arrive(bytes) => site.arrive(bytes),
    }
}
