//! How far a cell is synced, while it is read.

ghost use Rattle.std.specs.Prelude.{◌≡◌, ◌≢◌, ◌≤◌, ◌<◌};
ghost use Rattle.audit_command.specs.inner.Marks.{EndsBefore, begins, mark_after, more_synced};

/// How far the bytes of a cell are synced, while they are read and its records are counted.
#[derive(Clone, Copy, Debug)]
pub(crate) enum Mark {
    /// Nothing is said of it.
    Unsaid,
    /// The synced bytes end after this many more.
    Ahead(u64),
    /// All of them were read, and this many of the next records are in them.
    Passed(usize),
}

impl Mark {
    /// Before the first byte, if this many are synced.
    pub(crate) fn new(synced: Option<u64>) -> Mark
        ensures { result ≡ begins synced }
    {
        match synced {
            Some(count) => Mark::Ahead(count),
            None => Mark::Unsaid,
        }
    }

    /// After this many more bytes, and this many more counted records.
    pub(crate) fn after(self, bytes: usize, records: usize) -> Mark
        ensures { result ≡ mark_after bytes records self }
    {
        match self {
            Mark::Unsaid => Mark::Unsaid,
            Mark::Ahead(more) => Mark::Ahead(more.saturating_sub(bytes as u64)),
            Mark::Passed(left) => Mark::Passed(left.saturating_sub(records)),
        }
    }

    /// How many of the next bytes are read at once, of this many at most: the mark isn't passed.
    pub(crate) fn room(self, most: usize) -> usize
        ensures most { result ≤ most }
        ensures before { EndsBefore result self }
        ensures some { 0 < most → self ≢ Mark.Ahead 0 → 0 < result }
    {
        match self {
            Mark::Ahead(more) if more < most as u64 => more as usize,
            _ => most,
        }
    }

    /// How many of the next records are synced.
    pub(crate) fn more_synced(self) -> usize
        ensures { result ≡ more_synced self }
    {
        match self {
            Mark::Unsaid | Mark::Ahead(_) => 0,
            Mark::Passed(left) => left,
        }
    }
}
