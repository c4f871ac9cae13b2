/// How a medium was before one change of it.
#[derive(Drop)]
pub(crate) struct Change {
    /// How many of the first bytes of the buffer were there before.
    pub at: usize,
    /// The bytes after these.
    pub lost: Vec<u8>,
    /// What a crash left at least.
    pub least: usize,
    /// What a crash left at most.
    pub most: usize,
}
