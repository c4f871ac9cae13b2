ghost use Rattle.std.specs.Prelude.{◌≡◌, List, []};
ghost use Rattle.lines.specs.Named.{SeenBag, line_of, named_reply, tree_in, tree_of};
ghost use Rattle.lines.specs.Notices.{bag_in, bag_replied, deposited_in};
ghost use Rattle.lines.specs.Notices.{notice_of, reply_notice};
ghost use Rattle.site.specs.Calls.{Input};

use crate::line::{Line, NamedBag};
use fed_types::{BagId, Slot};
use site::{Line as SiteLine, Reply, SiteFault};

/// What is said of an event at a site, before its bag is named as a line names it.
#[derive(Debug, Drop)]
pub enum Notice {
    /// The site registered the deposit of the bag.
    Registered { site: u8, slot: Slot, bag: BagId },
    /// The site has learned that the bag was chosen.
    Learned { site: u8, slot: Slot, bag: BagId },
    /// The site replied to a query.
    Replied { site: u8, slot: Slot, reply: Reply },
    /// The site refused a call, or its device failed in one.
    Refused { site: u8, fault: SiteFault },
    /// The site dropped what arrived.
    Dropped { site: u8 },
    /// The site has stopped.
    GoesDown { site: u8 },
    /// The site was opened again, with so many records.
    ComesUp { site: u8, records: usize },
}

impl Notice {
    /// The bag that it names, if it names one.
    pub fn bag(&self) -> Option<BagId>
        ensures { result ≡ bag_in self.now }
    {
        match self {
            Notice::Registered { bag, .. } | Notice::Learned { bag, .. } => Some(*bag),
            Notice::Replied { reply, .. } => match reply {
                Reply::Known(bag) | Reply::Pending(bag) => Some(*bag),
                Reply::Nothing => None,
            },
            Notice::Refused { .. }
            | Notice::Dropped { .. }
            | Notice::GoesDown { .. }
            | Notice::ComesUp { .. } => None,
        }
    }
}

/// What is said of a call, by what the site says of it: a line, if any, or a refusal. `deposited`
/// is the slot of a call that is a deposit; any other call has none.
pub fn notice_of(
    site: u8,
    deposited: Option<Slot>,
    says: Result<Option<SiteLine>, SiteFault>,
) -> Option<Notice>
    ensures { (input : Input) → deposited_in input ≡ deposited
        → result ≡ notice_of site input says }
{
    match says {
        Ok(None) => None,
        Ok(Some(SiteLine::Registered(bag))) => match deposited {
            Some(slot) => Some(Notice::Registered { site, slot, bag }),
            None => None,
        },
        Ok(Some(SiteLine::Known(slot, bag))) => Some(Notice::Learned { site, slot, bag }),
        Ok(Some(SiteLine::Dropped)) => Some(Notice::Dropped { site }),
        Err(fault) => Some(Notice::Refused { site, fault }),
    }
}

/// What is said of a query.
pub fn reply_notice(site: u8, slot: Slot, reply: Result<Reply, SiteFault>) -> Notice
    ensures { result ≡ reply_notice site slot reply }
{
    match reply {
        Ok(reply) => Notice::Replied { site, slot, reply },
        Err(fault) => Notice::Refused { site, fault },
    }
}

/// The line of a notice, whose bag was seen first in this tree. 0 is to be given for a bag that was
/// seen in none, and for a notice that names no bag.
pub fn line_of(notice: Notice, tree: u32) -> Line
    ensures { (seen : List SeenBag) → tree ≡ tree_in seen notice → result ≡ line_of seen notice }
{
    match notice {
        Notice::Registered { site, slot, bag } => Line::Registered {
            site,
            slot,
            bag: NamedBag { bag, tree },
        },
        Notice::Learned { site, slot, bag } => Line::Known {
            site,
            slot,
            bag: NamedBag { bag, tree },
        },
        Notice::Replied { site, slot, reply } => Line::Replied {
            site,
            slot,
            reply: named_reply(reply, tree),
        },
        Notice::Refused { site, fault } => Line::Refused { site, fault },
        Notice::Dropped { site } => Line::Dropped { site },
        Notice::GoesDown { site } => Line::Down { site },
        Notice::ComesUp { site, records } => Line::Up { site, records },
    }
}

/// The line of a notice where trees have no numbers: its bag is named by its identity alone.
pub fn line_by_identity(notice: Notice) -> Line
    ensures { result ≡ line_of [] notice }
{
    line_of(notice, 0)
}

// A reply whose bag was seen first in this tree.
fn named_reply(reply: Reply, tree: u32) -> Reply<NamedBag>
    ensures { (seen : List SeenBag) → tree ≡ tree_of seen (bag_replied reply)
        → result ≡ named_reply seen reply }
{
    match reply {
        Reply::Known(bag) => Reply::Known(NamedBag { bag, tree }),
        Reply::Pending(bag) => Reply::Pending(NamedBag { bag, tree }),
        Reply::Nothing => Reply::Nothing,
    }
}
