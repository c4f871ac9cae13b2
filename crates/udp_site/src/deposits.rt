//! Folders that clients deposit.

ghost use Rattle.std.specs.Prelude.{◌≤◌, ◌≡◌, Ok, Err, IfOk};
ghost use Rattle.udp_site.specs.Turns.{deposits, deposit_replies, takes_tree};
ghost use Rattle.udp_site.specs.inner.Outcomes.{Hands};
ghost use Rattle.udp_site.specs.inner.Servers.{Comes, Stays};

use crate::port::Port;
use crate::replies::{deposit_answer, tree_answer};
use crate::said_lines::push_deposit;
use crate::sends::reply;
use crate::server::Server;
use addresses::Address;
use bag_folders::Folders;
use bag_tree::{Facts, TreeFault};
use cell_device::Cell;
use dgram::{Body, DepositAnswer, FolderPath};
use fed_types::{SiteNo, Slot};
use site::{Answer, SiteFault};
use std::alloc::{AllocError, Global};

impl<C: Cell, P: Port, F: Folders> Server<'_, '_, '_, '_, '_, C, P, F> {
    /// A client asks to deposit the folder of this path. It is read first.
    pub(crate) fn handle_deposit(
        &mut self,
        client: Address,
        slot: Slot,
        path: &FolderPath,
    ) -> Result<(), AllocError>
        ensures comes { Comes P.traffic
            (λ s. deposits C.device (F.gives self.old.folders.now) s client slot path.now)
            self.old self.new result }
        ensures stays { Stays P.failures F.gives self.old self.new }
    {
        match self.folders.read(path.as_str()) {
            Ok(facts) => self.deposit_tree(client, slot, &facts),
            Err(fault) => self.refuse_deposit(client, slot, fault),
        }
    }

    // A folder was read: its tree is deposited, and the client gets a reply.
    fn deposit_tree(&mut self, client: Address, slot: Slot, facts: &Facts) -> Result<(), AllocError>
        ensures comes { Comes P.traffic (λ s. takes_tree C.device s client slot (Ok facts.now))
            self.old self.new result }
        ensures stays { Stays P.failures F.gives self.old self.new }
    {
        let from = self.site.number();
        let federation = self.site.members().federation();
        let answer = self.site.deposit(&slot, facts);
        note_refusal(self.folders, &answer);
        let said = deposit_answer(&answer);
        let slot = reply_to_deposit(self.alloc, self.port, federation, from, client, slot, said)?;
        push_deposit(self.lines, from.number(), slot, answer)
    }

    // A folder couldn't be read: the client gets a reply.
    fn refuse_deposit(
        &mut self,
        client: Address,
        slot: Slot,
        fault: TreeFault,
    ) -> Result<(), AllocError>
        ensures comes { Comes P.traffic (λ s. takes_tree C.device s client slot (Err fault))
            self.old self.new result }
        ensures stays { Stays P.failures F.gives self.old self.new }
    {
        let from = self.site.number();
        let federation = self.site.members().federation();
        let said = tree_answer(fault);
        reply_to_deposit(self.alloc, self.port, federation, from, client, slot, said)?;
        Ok(())
    }
}

// The folders may remember that their bag was refused.
fn note_refusal<F: Folders>(folders: &mut F, answer: &Result<Answer, SiteFault>)
    ensures { F.gives folders.new ≡ F.gives folders.old }
{
    if let Err(SiteFault::InvalidBag(fault)) = answer {
        folders.refused(*fault);
    }
}

/// Tells a client what became of its deposit, and gives back the slot.
pub(crate) fn reply_to_deposit<P: Port>(
    alloc: Global,
    port: &mut P,
    federation: u64,
    from: SiteNo,
    client: Address,
    slot: Slot,
    said: Option<DepositAnswer>,
) -> Result<Slot, AllocError>
    ensures slot { IfOk result (λ s. s ≡ slot) }
    ensures handed { Hands (P.traffic port.old) (P.traffic port.new)
        (deposit_replies federation from client slot said) result }
    ensures later { P.failures port.old ≤ P.failures port.new }
{
    let Some(answer) = said else {
        return Ok(slot);
    };
    let body = Body::DepositReply { from, answer };
    reply(alloc, port, federation, client, slot, body)
}
