//! Messages of sites.

ghost use Rattle.udp_site.specs.Turns.{hears, drops};
ghost use Rattle.udp_site.specs.inner.Servers.{Comes, Stays};

use crate::port::Port;
use crate::said_lines::{push_arrival, push_dropped};
use crate::sends::send_answer;
use crate::server::Server;
use bag_folders::Folders;
use cell_device::Cell;
use dgram::Message;
use std::alloc::AllocError;

impl<C: Cell, P: Port, F: Folders> Server<'_, '_, '_, '_, '_, C, P, F> {
    /// A site's message arrives.
    pub(crate) fn handle_message(&mut self, message: Message) -> Result<(), AllocError>
        ensures comes { Comes P.traffic (λ s. hears C.device self.old.addresses.now s message)
            self.old self.new result }
        ensures stays { Stays P.failures F.gives self.old self.new }
    {
        let number = self.site.number().number();
        let answer = self.site.arrive_message(message);
        send_answer(self.port, self.addresses, &answer)?;
        push_arrival(self.lines, number, answer)
    }

    /// What came is no message for the site: no call is made.
    pub(crate) fn drop_datagram(&mut self) -> Result<(), AllocError>
        ensures comes { Comes P.traffic drops self.old self.new result }
        ensures stays { Stays P.failures F.gives self.old self.new }
    {
        push_dropped(self.lines, self.site.number().number())
    }
}
