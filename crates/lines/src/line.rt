use crate::sent_bytes::SentBytes;
use fed_types::{BagId, Slot};
use site::{Reply, SiteFault};

/// A bag as a line names it: by its identity, and by the number of a tree. That is the tree of the
/// earliest deposit so far that wasn't skipped and whose tree was then a valid bag of this
/// identity, whatever the site answered; 0 where there was none.
#[derive(Clone, Copy, Debug)]
pub struct NamedBag {
    pub bag: BagId,
    pub tree: u32,
}

/// Why a command of a schedule was skipped.
#[derive(Clone, Copy, Debug, PartialEq, Eq)]
pub enum Reason {
    /// The site is no member.
    Site,
    /// The tree is declared already, or, for any other command than `tree`, it isn't.
    Tree,
    /// The tree can have no such file.
    Path,
    /// No datagram of this number was sent.
    Datagram,
    /// The bytes are a message.
    Formed,
    /// The site is down.
    Down,
    /// The site is up, and doesn't need opening.
    Up,
}

/// What a run says of one event.
#[derive(Debug, Drop)]
pub enum Line {
    /// The site registered the deposit of the bag.
    Registered {
        site: u8,
        slot: Slot,
        bag: NamedBag,
    },
    /// The site has learned that the bag was chosen.
    Known {
        site: u8,
        slot: Slot,
        bag: NamedBag,
    },
    /// The site replied to a query.
    Replied {
        site: u8,
        slot: Slot,
        reply: Reply<NamedBag>,
    },
    /// The site refused a call, or its device failed in one.
    Refused {
        site: u8,
        fault: SiteFault,
    },
    /// The site dropped what arrived.
    Dropped {
        site: u8,
    },
    /// The event of this line of the schedule couldn't apply.
    Skip {
        line: usize,
        reason: Reason,
    },
    /// The site has stopped.
    Down {
        site: u8,
    },
    /// The site was opened again, with so many records.
    Up {
        site: u8,
        records: usize,
    },
    /// A datagram was sent: its number among all that were ever sent, from 1 on, its sender (0
    /// where it names none), the site that it goes to, and its bytes.
    Sent {
        number: usize,
        from: u8,
        to: u8,
        bytes: SentBytes,
    },
}
