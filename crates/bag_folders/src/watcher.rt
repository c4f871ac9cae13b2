/// Sees how far the reading of a folder is.
pub trait Watcher {
    /// All files of a folder are listed: how many, and how many bytes they have together.
    fn listed(&mut self, files: u64, bytes: u64);

    /// `bytes` more bytes are hashed.
    fn hashed(&mut self, bytes: u64);

    /// A file is hashed to its end.
    fn file_done(&mut self);
}

/// A watcher that does nothing.
#[derive(Clone, Copy, Debug, Drop)]
pub struct Silent;

impl Watcher for Silent {
    fn listed(&mut self, _files: u64, _bytes: u64) {}

    fn hashed(&mut self, _bytes: u64) {}

    fn file_done(&mut self) {}
}
