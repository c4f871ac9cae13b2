//! What is said of calls: lines, which name bags by their identities.

ghost use Rattle.std.specs.Prelude.{◌≡◌, ◌∷◌, [], Some, Result, OnOk};
ghost use Rattle.bag_check.specs.declared.fault.BagFault.{BagFault};
ghost use Rattle.fed_types.specs.declared.bag_id.BagId as bags;
ghost use Rattle.dgram.specs.declared.message.Message as messages;
ghost use Rattle.site.specs.Calls.{Arrives, Deposits, Proposes, Recovers};
ghost use Rattle.fed_types.specs.Slots as slots;
ghost use Rattle.std.specs.Option.{option_to_list};
ghost use Rattle.lines.specs.declared.notice.Notice.TheVariants.{Refused, Dropped};
ghost use Rattle.lines.specs.Notices.{reply_notice};
ghost use Rattle.udp_site.specs.Turns.{notices_of, proposal_notices, recovery_notices, says_of};
ghost use Rattle.udp_site.specs.inner.Outcomes.{Notes};

use fed_types::Slot;
use lines::{Line, Notice, line_by_identity, notice_of, reply_notice};
use site::{Answer, Line as SiteLine, Reply, SiteFault};
use std::alloc::{AllocError, Global};

/// Says what a site says of what arrived.
pub(crate) fn push_arrival(
    lines: &mut Vec<Line>,
    site: u8,
    answer: Result<Answer, SiteFault>,
) -> Result<(), AllocError>
    ensures { OnOk result ((m : messages.Message)
        → Notes lines.old.items lines.new.items (notices_of site (Arrives (Some m)) answer)) }
{
    push_if_some(lines, notice_of(site, None, says_of(answer)))
}

/// Says what a site says of a deposit for the slot.
pub(crate) fn push_deposit(
    lines: &mut Vec<Line>,
    site: u8,
    slot: Slot,
    answer: Result<Answer, SiteFault>,
) -> Result<(), AllocError>
    ensures { OnOk result ((checked : Result bags.BagId BagFault)
        → Notes lines.old.items lines.new.items (notices_of site (Deposits slot checked) answer)) }
{
    push_if_some(lines, notice_of(site, Some(slot), says_of(answer)))
}

/// Says what an idle site says of its proposal: a refusal, but not that no round is left.
pub(crate) fn push_proposal(
    lines: &mut Vec<Line>,
    site: u8,
    answer: Result<Answer, SiteFault>,
) -> Result<(), AllocError>
    ensures { OnOk result ((slot : slots.SlotName)
        → Notes lines.old.items lines.new.items (proposal_notices site (Proposes slot) answer)) }
{
    match answer {
        Ok(Answer { line, .. }) => push_if_some(lines, notice_of(site, None, Ok(line))),
        Err(SiteFault::RoundsSpent) => Ok(()),
        Err(fault) => push_refused(lines, site, fault),
    }
}

/// Says what a site says of a recovery that a client asked for: a refusal, but neither that a bag
/// is known, nor that there is nothing to recover, nor that no round is left.
pub(crate) fn push_recovery(
    lines: &mut Vec<Line>,
    site: u8,
    answer: Result<Answer, SiteFault>,
) -> Result<(), AllocError>
    ensures { OnOk result ((slot : slots.SlotName)
        → Notes lines.old.items lines.new.items (recovery_notices site (Recovers slot) answer)) }
{
    match answer {
        Ok(Answer { line, .. }) => push_if_some(lines, notice_of(site, None, Ok(line))),
        Err(SiteFault::AlreadyKnown | SiteFault::NothingToRecover | SiteFault::RoundsSpent) => {
            Ok(())
        }
        Err(fault) => push_refused(lines, site, fault),
    }
}

/// Says what a site replies to a query.
pub(crate) fn push_reply(
    alloc: Global,
    lines: &mut Vec<Line>,
    site: u8,
    slot: &Slot,
    reply: Result<Reply, SiteFault>,
) -> Result<(), AllocError>
    ensures { OnOk result
        (Notes lines.old.items lines.new.items (reply_notice site slot.now reply ∷ [])) }
{
    let slot = slot.copy(alloc)?;
    push(lines, reply_notice(site, slot, reply))
}

/// Says that the site refuses.
pub(crate) fn push_refused(
    lines: &mut Vec<Line>,
    site: u8,
    fault: SiteFault,
) -> Result<(), AllocError>
    ensures { OnOk result (Notes lines.old.items lines.new.items (Refused site fault ∷ [])) }
{
    push(lines, Notice::Refused { site, fault })
}

/// Says that the site dropped what arrived.
pub(crate) fn push_dropped(lines: &mut Vec<Line>, site: u8) -> Result<(), AllocError>
    ensures { OnOk result (Notes lines.old.items lines.new.items (Dropped site ∷ [])) }
{
    push(lines, Notice::Dropped { site })
}

// What a site says of a call, without the datagrams.
fn says_of(answer: Result<Answer, SiteFault>) -> Result<Option<SiteLine>, SiteFault>
    ensures { result ≡ says_of answer }
{
    match answer {
        Ok(Answer { line, .. }) => Ok(line),
        Err(fault) => Err(fault),
    }
}

fn push_if_some(lines: &mut Vec<Line>, notice: Option<Notice>) -> Result<(), AllocError>
    ensures { OnOk result (Notes lines.old.items lines.new.items (option_to_list notice)) }
{
    match notice {
        Some(notice) => push(lines, notice),
        None => Ok(()),
    }
}

fn push(lines: &mut Vec<Line>, notice: Notice) -> Result<(), AllocError>
    ensures { OnOk result (Notes lines.old.items lines.new.items (notice ∷ [])) }
{
    lines.push(line_by_identity(notice))?;
    Ok(())
}
