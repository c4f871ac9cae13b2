use std::io;
use std::io::{ErrorKind, Read};

/// A file that is read up to the length that was listed. If more bytes come, the read fails:
/// otherwise anyone who can write to a file could have it read for ever.
#[derive(Drop)]
pub(crate) struct ListedBytes<'a, F: Read> {
    file: &'a mut F,
    /// How many bytes may come still.
    left: u64,
}

impl<'a, F: Read> ListedBytes<'a, F> {
    pub(crate) fn new(file: &'a mut F, length: u64) -> ListedBytes<'a, F> {
        ListedBytes { file, left: length }
    }
}

// No clause knows which bytes it has.
impl<F: Read> Read for ListedBytes<'_, F> {
    ghost use Rattle.std.specs.Prelude.{None};

    ghost remaining = { λ _. None };

    fn read(&mut self, buf: &mut [u8]) -> io::Result<usize> {
        let count = self.file.read(buf)?;
        match self.left.checked_sub(count as u64) {
            Some(left) => {
                self.left = left;
                Ok(count)
            }
            None => Err(ErrorKind::InvalidData.into()),
        }
    }
}
