use crate::tree_no::TreeNo;
use fed_types::Slot;

/// A call of a site, or the arrival of a datagram: anything that may end in a fate. A site is named
/// by any number that fits a byte: whether it is a member is checked when the schedule runs.
#[derive(Debug, Drop)]
pub enum Call {
    /// `deposit S T OBJ V` deposits the tree, as it is then, at the site.
    Deposit { site: u8, tree: TreeNo, slot: Slot },
    /// `propose S OBJ V` lets the site propose for the slot.
    Propose { site: u8, slot: Slot },
    /// `recover S OBJ V` lets the site, which has a vote or a deposit, begin a ballot for the slot,
    /// so that a bag that may be chosen becomes known.
    Recover { site: u8, slot: Slot },
    /// `deliver K`: the K-th datagram ever sent, counted from 1, arrives at its addressee. Whether
    /// as many were sent is checked when the schedule runs.
    Deliver { datagram: u32 },
    /// `ask S TO OBJ V` lets the site ask another which bag it knows for the slot.
    Ask { site: u8, to: u8, slot: Slot },
}
