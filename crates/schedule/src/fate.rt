/// The two device calls of a commit. Each may fail, or be the last that a site makes.
#[derive(Clone, Copy, Debug, PartialEq, Eq)]
pub enum DeviceCall {
    /// The first: it adds the record's bytes to the cell.
    Append,
    /// The second: it asks that the bytes outlast a crash.
    Sync,
}

/// What happens to a site within a call, or at its end. A record of a commit is kept if the number
/// beside the device call is at least the record's bytes in the cell, else it is lost.
#[derive(Clone, Copy, Debug, PartialEq, Eq)]
pub enum Fate {
    /// Nothing: the call is done, and all its datagrams are sent.
    Whole,
    /// `stop 1 K`, `stop 2 K`: the site stops in this device call. No datagram is sent.
    StopsIn(DeviceCall, u32),
    /// `stop 3 J`: the call is done, the first J of its datagrams are sent, or all if there are
    /// fewer, and the site stops.
    StopsAfter(u32),
    /// `fail 1 K`, `fail 2 K`: this device call fails, and the site needs opening.
    FailsIn(DeviceCall, u32),
}
