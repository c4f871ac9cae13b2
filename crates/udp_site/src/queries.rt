//! Queries of clients.

ghost use Rattle.std.specs.Prelude.{◌≡◌, ◌≤◌, ◌∷◌, [], false, IsOk};
ghost use Rattle.udp_site.specs.Turns.{Serving, IsServing, queries, others, asked};
ghost use Rattle.udp_site.specs.inner.Others.{others_of};
ghost use Rattle.udp_site.specs.inner.Outcomes.{AsksFor};
ghost use Rattle.udp_site.specs.inner.Servers.{Comes, Stays};

use crate::port::Port;
use crate::replies::query_answer;
use crate::said_lines::{push_refused, push_reply};
use crate::sends::{reply, send_all};
use crate::server::Server;
use addresses::Address;
use bag_folders::Folders;
use cell_device::Cell;
use dgram::Body;
use fed_types::{SiteNo, Slot};
use lines::Line;
use site::{Reply, Site, SiteFault};
use std::alloc::AllocError;

impl<C: Cell, P: Port, F: Folders> Server<'_, '_, '_, '_, '_, C, P, F> {
    /// A client asks for the slot's bag. Where the site doesn't know it, it asks the other members
    /// after its reply.
    pub(crate) fn handle_query(&mut self, client: Address, slot: Slot) -> Result<(), AllocError>
        ensures comes { Comes P.traffic (λ s. queries self.old.addresses.now s client slot)
            self.old self.new result }
        ensures stays { Stays P.failures F.gives self.old self.new }
    {
        let from = self.site.number();
        let federation = self.site.members().federation();
        let known = self.site.query(&slot);
        let answer = query_answer(known);
        let body = Body::QueryReply { from, answer };
        let slot = reply(self.alloc, self.port, federation, client, slot, body)?;
        push_reply(self.alloc, self.lines, from.number(), &slot, known)?;
        ask_unless_known(
            self.site,
            self.port,
            self.addresses,
            self.lines,
            &slot,
            known,
        )
    }
}

// Asks the other members, unless the site knows the bag or needs opening.
fn ask_unless_known<C: Cell, P: Port>(
    site: &Site<C>,
    port: &mut P,
    addresses: &[Address],
    lines: &mut Vec<Line>,
    slot: &Slot,
    known: Result<Reply, SiteFault>,
) -> Result<(), AllocError>
    requires { IsOk known → site.now.book.needs_opening ≡ false }
    ensures comes { (old : Serving C) → old.site ≡ site.now → IsServing old
        → AsksFor addresses.now old slot.now (asked old known) (P.traffic port.old)
        (P.traffic port.new)
        lines.old.items lines.new.items result }
    ensures later { P.failures port.old ≤ P.failures port.new }
{
    let Ok(reply) = known else {
        return Ok(());
    };
    match reply {
        Reply::Known(_) => Ok(()),
        Reply::Pending(_) => ask_others(site, port, addresses, lines, slot),
        Reply::Nothing => ask_others(site, port, addresses, lines, slot),
    }
}

// Asks all other members for the slot's bag, in ascending order. Where memory ran out for one, it
// isn't asked, and a line says so.
fn ask_others<C: Cell, P: Port>(
    site: &Site<C>,
    port: &mut P,
    addresses: &[Address],
    lines: &mut Vec<Line>,
    slot: &Slot,
) -> Result<(), AllocError>
    requires { site.now.book.needs_opening ≡ false }
    ensures comes { (old : Serving C) → old.site ≡ site.now → IsServing old
        → AsksFor addresses.now old slot.now (others old) (P.traffic port.old) (P.traffic port.new)
        lines.old.items lines.new.items result }
    ensures later { P.failures port.old ≤ P.failures port.new }
{
    for member in site.members().sites() {
        ask_other(site, port, addresses, lines, slot, member)?;
    }
    Ok(())
}

// Asks a member, unless it is the site itself.
fn ask_other<C: Cell, P: Port>(
    site: &Site<C>,
    port: &mut P,
    addresses: &[Address],
    lines: &mut Vec<Line>,
    slot: &Slot,
    member: SiteNo,
) -> Result<(), AllocError>
    requires { site.now.book.needs_opening ≡ false }
    ensures comes { (old : Serving C) → old.site ≡ site.now → IsServing old
        → AsksFor addresses.now old slot.now (others_of old (member ∷ [])) (P.traffic port.old)
        (P.traffic port.new) lines.old.items lines.new.items result }
    ensures later { P.failures port.old ≤ P.failures port.new }
{
    if member == site.number() {
        return Ok(());
    }
    match site.ask(slot, member) {
        Ok(answer) => send_all(port, addresses, answer.sends.as_slice()),
        Err(_) => { push_refused(lines, site.number().number(), SiteFault::Memory) }
    }
}
