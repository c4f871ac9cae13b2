use fed_types::{BagId, SiteNo, Slot};

/// A datagram, and the member that it goes to.
#[derive(Debug, Drop)]
pub struct Outgoing {
    pub to: SiteNo,
    pub bytes: Vec<u8>,
}

/// What a site says of a call.
#[derive(Debug, Drop)]
pub enum Line {
    /// The bag is the site's deposit.
    Registered(BagId),
    /// The site has learned this bag for the slot, and has it on record.
    Known(Slot, BagId),
    /// What arrived is no message of the federation's protocol from a member: it isn't heard.
    Dropped,
}

/// What a call hands out: what the site says, if it says anything, and the datagrams to send, in
/// order.
#[derive(Debug, Drop)]
pub struct Answer {
    pub line: Option<Line>,
    pub sends: Vec<Outgoing>,
}

/// What a site replies to a query: a bag by its identity, or as a line names it.
#[derive(Clone, Copy, Debug, PartialEq, Eq)]
pub enum Reply<B = BagId> {
    /// This bag is known for the slot.
    Known(B),
    /// No bag is known; this one is the site's own deposit.
    Pending(B),
    /// No bag is known, and the site has no deposit.
    Nothing,
}
