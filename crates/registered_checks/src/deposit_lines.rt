//! An output that takes lines of a comparison for a list of deposits.

ghost use Rattle.std.specs.Prelude.{◌≡◌, ◌∷◌, ◌++◌, [], None, ℕ, List, length, IfOk, OnOk};
ghost use Rattle.std.specs.Io.{WritesAtMost};
ghost use Rattle.std.specs.Io.KnownBytes.{Appends, WriteAppends};
ghost use Rattle.registered_checks.specs.Deposits.{IsWithinLine, Outputs, Divides, deposit_line};
ghost use Rattle.registered_checks.specs.Deposits.{listed_by, unlisted_by};

use crate::deposit_line::deposit_of_line;
use std::alloc::{AllocError, Global};
use std::io::{Error, ErrorKind, Result, Write};

/// Has each line that says which version a folder is written to the list, as a deposit, and all
/// others to the errors.
#[derive(Drop)]
pub(crate) struct DepositLines<W, E> {
    alloc: Global,
    list: W,
    errors: E,
    /// The beginning of a line that isn't ended.
    begun: Vec<u8>,
}

impl<W: Write, E: Write> DepositLines<W, E> {
    /// Nothing has been written.
    pub(crate) fn new(alloc: Global, list: W, errors: E) -> DepositLines<W, E>
        ensures list { result.list ≡ list }
        ensures errors { result.errors ≡ errors }
        ensures begun { result.begun.items ≡ [] }
    {
        DepositLines {
            alloc,
            list,
            errors,
            begun: Vec::new(alloc),
        }
    }

    // Takes one byte more.
    fn take(&mut self, byte: u8) -> Result<()>
        ensures { OnOk result ((before : Outputs) → (bytes : List ℕ)
            → Divides before bytes
            (record {
              list = W.contents self.old.list;
              errors = E.contents self.old.errors;
              begun = self.old.begun.items;
            })
            → Divides before (bytes ++ byte ∷ [])
            (record {
              list = W.contents self.new.list;
              errors = E.contents self.new.errors;
              begun = self.new.begun.items;
            })) }
    {
        if byte == b'\n' {
            self.end_line()?;
            return Ok(());
        }
        if self.begun.push(byte).is_err() {
            return self.refuse();
        }
        Ok(())
    }

    // Writes the line that is ended now.
    fn end_line(&mut self) -> Result<()>
        ensures begun { OnOk result (self.new.begun.items ≡ []) }
        ensures list { OnOk result (Appends (W.contents self.old.list) (W.contents self.new.list)
            (listed_by (deposit_line self.old.begun.items))) }
        ensures errors { OnOk result (Appends (E.contents self.old.errors)
            (E.contents self.new.errors)
            (unlisted_by self.old.begun.items (deposit_line self.old.begun.items))) }
    {
        match deposit_of_line(self.alloc, self.begun.as_slice()) {
            Ok(Some(deposit)) => self.list.write_all(deposit.as_slice())?,
            Ok(None) => {
                self.errors.write_all(self.begun.as_slice())?;
                self.errors.write_all(b"\n")?;
            }
            Err(AllocError) => return self.refuse(),
        }
        self.begun.clear();
        Ok(())
    }

    // There is no memory for a line.
    fn refuse(&mut self) -> Result<()>
        ensures { OnOk result ⊥ }
    {
        self.errors.write_all(b"memory\n")?;
        Err(Error::from(ErrorKind::OutOfMemory))
    }
}

impl<W: Write, E: Write> Write for DepositLines<W, E> {
    // All bytes are taken, or it fails.
    fn write(&mut self, buf: &[u8]) -> Result<usize>
        ensures bound { WritesAtMost result buf.now }
        ensures bytes { WriteAppends None None result buf.now }
        ensures all { IfOk result (λ count. count ≡ length buf.now) }
        ensures divides { OnOk result (IsWithinLine self.old.begun.items → Divides
            (record {
              list = W.contents self.old.list;
              errors = E.contents self.old.errors;
              begun = self.old.begun.items;
            })
            buf.now
            (record {
              list = W.contents self.new.list;
              errors = E.contents self.new.errors;
              begun = self.new.begun.items;
            })) }
    {
        'bytes: for byte in buf {
            self.take(*byte)?;
        }
        Ok(buf.len())
    }

    fn flush(&mut self) -> Result<()> {
        self.list.flush()?;
        self.errors.flush()
    }
}
