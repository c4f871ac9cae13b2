ghost use Rattle.std.specs.Prelude.{◌≡◌};
ghost use Rattle.cell_device.specs.Fuses.{next_fuse, fires};

/// How a call fails.
#[derive(Clone, Copy, Debug, PartialEq, Eq)]
pub enum How {
    /// This call alone; the cell goes on.
    Fail,
    /// The cell stops: this call and every later one, until it is restarted.
    Stop,
}

/// A failure that is to come. Calls are counted from 1 since the fuse was set, except calls that
/// are refused for memory; a fuse at call 0 never fires.
#[derive(Clone, Copy, Debug, PartialEq, Eq)]
pub struct Fuse {
    /// The call that fails.
    pub call: usize,
    /// Whether the cell then goes on.
    pub how: How,
    /// How many of the bytes that were never synced survive.
    pub kept: usize,
}

/// What becomes of the calls to come.
#[derive(Clone, Copy, Debug, PartialEq, Eq)]
pub enum FuseState {
    /// None fails.
    Clear,
    /// One of them fails.
    Burning(Fuse),
    /// Each fails.
    Stopped,
}

impl FuseState {
    /// The next call fails.
    pub(crate) fn fires(self) -> bool
        ensures { result ≡ fires self }
    {
        match self {
            FuseState::Clear => false,
            FuseState::Burning(fuse) => fuse.call == 1,
            FuseState::Stopped => true,
        }
    }

    /// The state after the next call.
    pub(crate) fn next(self) -> FuseState
        ensures { result ≡ next_fuse self }
    {
        match self {
            FuseState::Clear => FuseState::Clear,
            FuseState::Stopped => FuseState::Stopped,
            FuseState::Burning(fuse) if fuse.call == 1 => match fuse.how {
                How::Fail => FuseState::Clear,
                How::Stop => FuseState::Stopped,
            },
            FuseState::Burning(fuse) => FuseState::Burning(Fuse {
                call: fuse.call.saturating_sub(1),
                ..fuse
            }),
        }
    }
}
