ghost use Rattle.std.specs.Prelude.{◌≡◌, if◌then◌else◌, [], ◌++◌, length, nat_lt};
ghost use Rattle.std.specs.Prelude.{IfOk, OnOk, OnErr};
ghost use Rattle.bag_tree.specs.Facts.{fact_by};
ghost use Rattle.bag_tree.specs.Fault.{RefusesFor};
ghost use Rattle.bag_tree.specs.Tree.{longest_text, fault_of_text};
ghost use Rattle.bag_folders.specs.Pieces.{hashed_with};

use bag_tree::{Algorithms, Digester, FileFacts, LONGEST_TEXT, TreeFault, is_read_text};
use std::alloc::{AllocError, Global};
use std::marker::Model;

/// A file whose bytes come in pieces: `new`, a `feed` for each piece, and `finish`. A clause sees
/// the file, with the bytes that came so far, and what is wanted of it. Only the bytes of texts
/// that describe a bag are kept.
#[derive(Drop)]
pub struct Hashing {
    path: String,
    wanted: Algorithms,
    contents: Contents,
}

/// What is kept of the bytes that came so far.
#[derive(Drop)]
enum Contents {
    Text(Vec<u8>),
    Hashed(Digester),
}

impl Model for Hashing {
    ghost use Rattle.std.specs.Prelude.{string_bytes};
    ghost use Rattle.bag_folders.specs.Pieces.{Hashed};
    ghost use Rattle.bag_folders.specs.inner.Contents.{bytes_in, AreOfFile};

    ghost Value = { Hashed };

    ghost view = { λ h. record {
      wanted = h.wanted;
      file = record { path = string_bytes h.path; bytes = bytes_in h.contents };
    } };

    ghost invariant = { λ h. AreOfFile (string_bytes h.path) h.wanted h.contents };
}

impl Hashing {
    /// A file of this path. None of its bytes have come yet, and its digests by these algorithms
    /// are wanted.
    pub fn new(alloc: Global, path: &str, wanted: Algorithms) -> Result<Hashing, AllocError>
        ensures { IfOk result (λ hashing. hashing ≡ record {
          wanted = wanted;
          file = record { path = path.now; bytes = [] };
        }) }
    {
        let contents = if is_read_text(path.as_bytes()) {
            Contents::Text(Vec::new(alloc))
        } else {
            Contents::Hashed(Digester::new(wanted))
        };
        Ok(Hashing {
            path: String::from_str(alloc, path)?,
            wanted,
            contents,
        })
    }

    /// Takes the file's next bytes. The refusals, after which nothing has changed, are
    /// `TextTooLong`, if a text that describes the bag would be over `LONGEST_TEXT`, and `Memory`.
    pub fn feed(&mut self, piece: &[u8]) -> Result<(), TreeFault>
        ensures refused { RefusesFor
            (fault_of_text self.old.file.path (self.old.file.bytes ++ piece.now)) result }
        ensures ok { OnOk result (self.new ≡ hashed_with self.old piece.now) }
        ensures err { OnErr result (self.new ≡ self.old) }
    {
        match &mut self.contents {
            Contents::Text(text) => keep(text, piece),
            Contents::Hashed(digester) => {
                digester.feed(piece);
                Ok(())
            }
        }
    }

    /// The facts of the file, which has no further bytes.
    pub fn finish(self) -> FileFacts
        ensures { result ≡ fact_by self.wanted self.file }
    {
        let Hashing {
            path,
            wanted,
            contents,
        } = self;
        match contents {
            Contents::Text(text) => FileFacts::kept(path, wanted, text),
            Contents::Hashed(digester) => FileFacts::hashed(path, digester.finish()),
        }
    }
}

/// Keeps the next bytes of a text.
fn keep(text: &mut Vec<u8>, piece: &[u8]) -> Result<(), TreeFault>
    ensures refused { RefusesFor (if nat_lt longest_text (length (text.old.items ++ piece.now))
        then Some TreeFault.TextTooLong else None) result }
    ensures ok { OnOk result (text.new.items ≡ text.old.items ++ piece.now) }
    ensures err { OnErr result (text.new.items ≡ text.old.items) }
{
    if text.len() + piece.len() > LONGEST_TEXT {
        return Err(TreeFault::TextTooLong);
    }
    text.extend_from_slice(piece)?;
    Ok(())
}
