/// Whether what the calls on a file say can be believed.
#[derive(Clone, Copy, Debug, PartialEq, Eq)]
pub enum Trust {
    /// Every call has done what it was asked.
    Sound,
    /// A change or a sync has failed. The system says only once that it couldn't write some bytes:
    /// a read may give others in their place, and the next sync may succeed without them.
    Spoilt,
    /// Then it was cut back, and that isn't synced.
    Mending,
}
