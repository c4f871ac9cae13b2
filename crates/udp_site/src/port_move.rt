use crate::turn::Turn;
use addresses::Address;

/// What a port did.
#[derive(Debug, Drop)]
pub enum PortMove {
    /// It was waited at for one turn, which brought this.
    Took(Turn),
    /// It was waited at for one turn, and the receive failed. The count of failures alone can't say
    /// so, since it counts sends that failed too.
    Failed,
    /// It was handed these bytes for this address.
    Handed(Address, Vec<u8>),
}
