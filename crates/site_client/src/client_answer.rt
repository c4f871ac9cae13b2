//! What a client is told by a site, as a status and a line.

ghost use Rattle.std.specs.Prelude.{◌≡◌, IfOk};
ghost use Rattle.site_client.specs.Answers.{deposit_outcome, query_outcome, said, refused};
ghost use Rattle.site_client.specs.inner.Written.{outcome_in};

use dgram::{DepositAnswer, QueryAnswer};
use fed_types::{SiteNo, Slot};
use lines::{Notice, Options, line_by_identity, push_line};
use outcomes::ProgramOutput;
use site::{Reply, SiteFault};
use std::alloc::{AllocError, Global};

/// The answer to a deposit.
pub(crate) fn deposit_text(
    alloc: Global,
    to: SiteNo,
    slot: Slot,
    answer: DepositAnswer,
) -> Result<ProgramOutput, AllocError>
    ensures { IfOk result (λ given. outcome_in given ≡ deposit_outcome to slot answer) }
{
    let site = to.number();
    match answer {
        DepositAnswer::Registered(bag) => said(alloc, Notice::Registered { site, slot, bag }),
        DepositAnswer::OtherDeposit(bag) => {
            refused(alloc, site, SiteFault::OtherDeposit(bag).number())
        }
        DepositAnswer::OtherKnown(bag) => {
            refused(alloc, site, SiteFault::OtherKnown(bag).number())
        }
        DepositAnswer::Device => refused(alloc, site, SiteFault::Device.number()),
        DepositAnswer::Memory => refused(alloc, site, SiteFault::Memory.number()),
        DepositAnswer::NeedsOpen => refused(alloc, site, SiteFault::NeedsOpen.number()),
        DepositAnswer::Tree(fault) => refused(alloc, site, 20 + fault.number()),
        DepositAnswer::Bag(fault) => refused(alloc, site, 40 + fault.number()),
    }
}

/// The answer to a query.
pub(crate) fn query_text(
    alloc: Global,
    to: SiteNo,
    slot: Slot,
    answer: QueryAnswer,
) -> Result<ProgramOutput, AllocError>
    ensures { IfOk result (λ given. outcome_in given ≡ query_outcome to slot answer) }
{
    let site = to.number();
    let reply = match answer {
        QueryAnswer::Known(bag) => Reply::Known(bag),
        QueryAnswer::Pending(bag) => Reply::Pending(bag),
        QueryAnswer::Nothing => Reply::Nothing,
        QueryAnswer::NeedsOpen => {
            return refused(alloc, site, SiteFault::NeedsOpen.number());
        }
    };
    said(alloc, Notice::Replied { site, slot, reply })
}

// The line of what the site says.
fn said(alloc: Global, notice: Notice) -> Result<ProgramOutput, AllocError>
    ensures { IfOk result (λ given. outcome_in given ≡ said notice) }
{
    let options = Options {
        sent: false,
        identities: true,
    };
    let mut text = String::new(alloc);
    push_line(alloc, &mut text, options, &line_by_identity(notice))?;
    Ok(ProgramOutput { status: 0, text })
}

// The site refuses, for the reason of this code.
fn refused(alloc: Global, site: u8, code: u8) -> Result<ProgramOutput, AllocError>
    ensures { IfOk result (λ given. outcome_in given ≡ refused site code) }
{
    Ok(ProgramOutput {
        status: 1,
        text: format!(in alloc; "refused {site} {code}\n")?,
    })
}
