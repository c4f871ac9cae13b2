use addresses::Address;

/// What one turn of waiting at a port brings.
#[derive(Debug, Drop)]
pub enum Turn {
    /// No datagram came.
    Idle,
    /// A datagram came from this address.
    Got(Address, Vec<u8>),
}
