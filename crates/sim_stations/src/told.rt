ghost use Rattle.std.specs.Prelude.{ℕ, ◌≡◌, [], None, IfOk};
ghost use Rattle.lines.specs.Notices.{deposited_in};
ghost use Rattle.sim_stations.specs.Calls.{input_of};
ghost use Rattle.sim_stations.specs.Told.{Tells};

use crate::site_call::SiteCall;
use fed_types::Slot;
use lines::{Notice, notice_of};
use site::{Answer, Outgoing, SiteFault};
use std::alloc::{AllocError, Global};

/// The outcome of an event at a site: what is reported, if anything, and the datagrams that were
/// sent, in order.
#[derive(Debug, Drop)]
pub struct Told {
    pub notice: Option<Notice>,
    pub sends: Vec<Outgoing>,
}

/// What the site of this number answers to a call, as it is reported. `Err`: out of memory.
pub(crate) fn told_of(
    alloc: Global,
    site: u8,
    call: &SiteCall,
    answer: Result<Answer, SiteFault>,
) -> Result<Told, AllocError>
    ensures { IfOk result (λ t. (federation : ℕ)
        → Tells site (input_of federation call.now) answer t) }
{
    let deposited = deposited(alloc, call)?;
    match answer {
        Ok(Answer { line, sends }) => Ok(Told {
            notice: notice_of(site, deposited, Ok(line)),
            sends,
        }),
        Err(SiteFault::Memory) => Err(AllocError),
        Err(fault) => Ok(Told {
            notice: notice_of(site, deposited, Err(fault)),
            sends: Vec::new(alloc),
        }),
    }
}

/// Nothing is said or sent.
pub(crate) fn nothing(alloc: Global) -> Told
    ensures { (result.notice ≡ None) × (result.sends.items ≡ []) }
{
    Told {
        notice: None,
        sends: Vec::new(alloc),
    }
}

// The slot of a call that is a deposit.
fn deposited(alloc: Global, call: &SiteCall) -> Result<Option<Slot>, AllocError>
    ensures { IfOk result (λ slot. (federation : ℕ)
        → deposited_in (input_of federation call.now) ≡ slot) }
{
    match *call {
        SiteCall::Deposit(slot, _) => Ok(Some(slot.copy(alloc)?)),
        SiteCall::Propose(_) | SiteCall::Recover(_) => Ok(None),
        SiteCall::Ask(..) | SiteCall::Arrive(_) => Ok(None),
    }
}
