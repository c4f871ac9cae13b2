//! The files that say what is known: cells, and lists of their versions.

ghost use Rattle.std.specs.Prelude.{◌≡◌, ◌++◌, true, false, map, IfOk, IfErr, IfSome, IsErrAnd};
ghost use Rattle.std.specs.Prelude.{OnOk};
ghost use Rattle.std.specs.Option.{option_to_list};
ghost use Rattle.std.specs.IoError.{error_kind};
ghost use Rattle.known_bags.specs.Sources.{is_cell, known_by, known_of, IsSourceOf, Keeps};
ghost use Rattle.known_bags.specs.Sources.{IsUnread, IsUnopened, IsOfFile, AreOfFiles};
ghost use Rattle.known_bags.specs.inner.Sources.{end_of, AreOfContents};

use crate::known_bag::KnownBag;
use crate::known_lines::{ListFault, push_known_lines};
use crate::source_files::SourceFiles;
use ledger::{Contents, Ending, headless_ending, read_contents};
use outcomes::{ReadFault, read_all};
use records::{Entry, Record};
use std::alloc::{AllocError, Global};
use std::io::{self, ErrorKind, Read};

/// Why a source can't be used.
#[derive(Clone, Copy, Debug)]
pub enum SourceFault {
    /// It can't be read.
    Unread,
    /// From this byte on it is no cell.
    Damaged(usize),
    /// This line of it is none of a ledger's.
    Line(usize),
    Memory,
}

/// Appends the bags that the files of these paths know, in order, up to the first that is no
/// source.
pub fn push_sources<S: SourceFiles>(
    alloc: Global,
    files: &S,
    bags: &mut Vec<KnownBag>,
    paths: &[&str],
) -> Result<(), SourceFault>
    ensures known { AreOfFiles (S.bytes_at files.now) (map (λ path. path.now) paths.now)
        bags.old.items bags.new.items result }
    ensures kept { Keeps bags.old.items bags.new.items }
{
    for path in paths {
        push_source(alloc, files, bags, path)?;
    }
    Ok(())
}

/// Appends the bags that the file of this path knows: a cell, or a list that `ledger` printed.
#[tactic(auto, using(crate::proofs::Kept::keeping))]
pub fn push_source<S: SourceFiles>(
    alloc: Global,
    files: &S,
    bags: &mut Vec<KnownBag>,
    path: &str,
) -> Result<(), SourceFault>
    ensures known { IsOfFile (S.bytes_at files.now path.now) bags.old.items bags.new.items result }
    ensures kept { Keeps bags.old.items bags.new.items }
{
    let bytes = files.source_bytes(path)?;
    push_known(alloc, bags, bytes.as_slice())
}

/// Appends the bags that these bytes know: a cell's, or those of a list that `ledger` printed.
pub fn push_known(alloc: Global, bags: &mut Vec<KnownBag>, bytes: &[u8]) -> Result<(), SourceFault>
    ensures known { IsSourceOf bytes.now bags.old.items bags.new.items result }
    ensures kept { Keeps bags.old.items bags.new.items }
{
    if is_cell(bytes) {
        push_cell(alloc, bags, bytes)
    } else {
        push_list(alloc, bags, bytes)
    }
}

// Whether the bytes are read as a cell.
fn is_cell(bytes: &[u8]) -> bool
    ensures { result ≡ is_cell bytes.now }
{
    bytes.starts_with(b"BPJ")
}

// Appends the bags of a list.
#[tactic(auto, using(crate::proofs::Kept::keeping))]
fn push_list(alloc: Global, bags: &mut Vec<KnownBag>, bytes: &[u8]) -> Result<(), SourceFault>
    ensures known { is_cell bytes.now ≡ false
        → IsSourceOf bytes.now bags.old.items bags.new.items result }
    ensures kept { Keeps bags.old.items bags.new.items }
{
    match push_known_lines(alloc, bags, bytes) {
        Ok(()) => Ok(()),
        Err(ListFault::Line(line)) => Err(SourceFault::Line(line)),
        Err(ListFault::Memory) => Err(SourceFault::Memory),
    }
}

// Appends the bags of a cell, or of bytes that begin with no whole header of one.
#[tactic(auto, using(crate::proofs::Kept::keeping))]
fn push_cell(alloc: Global, bags: &mut Vec<KnownBag>, bytes: &[u8]) -> Result<(), SourceFault>
    ensures known { is_cell bytes.now ≡ true
        → IsSourceOf bytes.now bags.old.items bags.new.items result }
    ensures kept { Keeps bags.old.items bags.new.items }
{
    match read_contents(alloc, bytes) {
        Ok(Some(contents)) => push_contents(alloc, bags, &contents),
        Ok(None) => end_of(headless_ending(bytes)),
        Err(AllocError) => Err(SourceFault::Memory),
    }
}

// Whether a cell that ends so isn't damaged.
fn end_of(ending: Ending) -> Result<(), SourceFault>
    ensures { result ≡ end_of ending }
{
    match ending {
        Ending::Damaged(offset) => Err(SourceFault::Damaged(offset)),
        Ending::Whole | Ending::Torn(_) => Ok(()),
    }
}

// Appends the bags that a cell's records know, unless it is damaged.
#[tactic(auto, using(crate::proofs::Kept::keeping))]
fn push_contents(
    alloc: Global,
    bags: &mut Vec<KnownBag>,
    contents: &Contents,
) -> Result<(), SourceFault>
    ensures known { AreOfContents contents.now bags.old.items bags.new.items result }
    ensures kept { Keeps bags.old.items bags.new.items }
{
    end_of(contents.ending)?;
    match push_records(alloc, bags, &contents.records) {
        Ok(()) => Ok(()),
        Err(AllocError) => Err(SourceFault::Memory),
    }
}

// Appends the bags that records know, in order.
#[tactic(auto, unfolding(crate::specs::Sources::known_of))]
fn push_records(
    alloc: Global,
    bags: &mut Vec<KnownBag>,
    records: &[Record],
) -> Result<(), AllocError>
    ensures known { OnOk result (bags.new.items ≡ bags.old.items ++ known_of records.now) }
    ensures kept { Keeps bags.old.items bags.new.items }
{
    for kept in records {
        push_record(alloc, bags, kept)?;
    }
    Ok(())
}

// Appends the bag of a record, if it knows one.
#[tactic(auto, using(crate::proofs::Kept::keeping))]
fn push_record(alloc: Global, bags: &mut Vec<KnownBag>, kept: &Record) -> Result<(), AllocError>
    ensures known { OnOk result
        (bags.new.items ≡ bags.old.items ++ option_to_list (known_by kept.now)) }
    ensures kept { Keeps bags.old.items bags.new.items }
{
    match kept.body {
        Entry::Known(bag) => {
            let slot = kept.slot.copy(alloc)?;
            bags.push(KnownBag::new(slot, bag))?;
            Ok(())
        }
        _ => Ok(()),
    }
}

/// All bytes of a source that was opened, or why it can't be read.
pub(crate) fn bytes_of<R: Read + Drop>(
    alloc: Global,
    opened: io::Result<R>,
) -> Result<Vec<u8>, SourceFault>
    ensures bytes { IfOk opened (λ source. IfOk result (λ bytes.
        IfSome (R.remaining source) (λ all. bytes.items ≡ all))) }
    ensures unread { IfErr result IsUnread }
    ensures unopened { IfErr opened (λ error. IsErrAnd result (IsUnopened (error_kind error))) }
{
    match opened {
        Ok(source) => {
            let mut source = source;
            match read_all(alloc, &mut source) {
                Ok(bytes) => Ok(bytes),
                Err(ReadFault::Input) => Err(SourceFault::Unread),
                Err(ReadFault::Memory) => Err(SourceFault::Memory),
            }
        }
        Err(error) => Err(fault_of(error.kind())),
    }
}

fn fault_of(kind: ErrorKind) -> SourceFault
    ensures { IsUnopened kind result }
{
    if kind == ErrorKind::OutOfMemory {
        SourceFault::Memory
    } else {
        SourceFault::Unread
    }
}
