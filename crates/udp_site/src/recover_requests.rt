//! Recoveries that clients ask for.

ghost use Rattle.udp_site.specs.Turns.{recovering};
ghost use Rattle.udp_site.specs.inner.Servers.{Comes, Stays};

use crate::port::Port;
use crate::said_lines::push_recovery;
use crate::sends::send_answer;
use crate::server::Server;
use bag_folders::Folders;
use cell_device::Cell;
use fed_types::Slot;
use std::alloc::AllocError;

impl<C: Cell, P: Port, F: Folders> Server<'_, '_, '_, '_, '_, C, P, F> {
    /// A client asks the site to recover what may be chosen for the slot. It has no reply.
    pub(crate) fn handle_recover(&mut self, slot: &Slot) -> Result<(), AllocError>
        ensures comes { Comes P.traffic (λ s. recovering C.device self.old.addresses.now s slot.now)
            self.old self.new result }
        ensures stays { Stays P.failures F.gives self.old self.new }
    {
        let number = self.site.number().number();
        let answer = self.site.recover(slot);
        send_answer(self.port, self.addresses, &answer)?;
        push_recovery(self.lines, number, answer)
    }
}
