ghost use Rattle.std.specs.Prelude.{◌≡◌};

use crate::watcher::Watcher;
use std::io;
use std::io::Read;

/// A file that is read, and who sees how far.
#[derive(Drop)]
pub(crate) struct WatchedFile<'a, F: Read, W: Watcher> {
    file: &'a mut F,
    watcher: &'a mut W,
}

impl<'a, F: Read, W: Watcher> WatchedFile<'a, F, W> {
    pub(crate) fn new(file: &'a mut F, watcher: &'a mut W) -> WatchedFile<'a, F, W>
        ensures { result.file.now ≡ file.old }
    {
        WatchedFile { file, watcher }
    }
}

// It has the bytes that the file has.
impl<F: Read, W: Watcher> Read for WatchedFile<'_, F, W> {
    ghost remaining = { λ watched. F.remaining watched.file.now };

    fn read(&mut self, buf: &mut [u8]) -> io::Result<usize> {
        let count = self.file.read(buf)?;
        self.watcher.hashed(count as u64);
        Ok(count)
    }
}
