//! A list of deposits: a line `OBJ V PATH` for each.

ghost use Rattle.std.specs.Prelude.{◌≡◌, ◌++◌, map, IfOk, true, None};
ghost use Rattle.std.specs.Prelude.{if◌then◌else◌};
ghost use Rattle.std.specs.Option.{option_to_list};
ghost use Rattle.deposit_list.specs.declared.deposit_lines.ListFault.TheVariants.{Memory};
ghost use Rattle.deposit_list.specs.Lists.{has_mark, deposit_in, deposit_of, path_of};
ghost use Rattle.deposit_list.specs.Lists.{may_follow, IsListOf};

use crate::deposit::Deposit;
use crate::listed_deposits::ListedDeposits;
use dgram::FolderPath;
use std::alloc::{AllocError, Global};
use tokens::{first_line, parse_slot, parse_text, split_words};

/// Why a list can't be read.
#[derive(Clone, Copy, Debug)]
pub enum ListFault {
    /// This line, counted from 1, is no deposit, or one of a version that an earlier line has.
    Line(usize),
    Memory,
}

impl From<AllocError> for ListFault {
    ghost from_gives = { λ _ e. e ≡ Memory };

    fn from(_: AllocError) -> ListFault {
        ListFault::Memory
    }
}

/// The deposits of a list's lines `OBJ V PATH`, in which names are percent-encoded as in all texts
/// of the program. Lines without a word are passed over. None begins with a byte order mark, which
/// would become part of a name. A line that is something else is a fault,
/// and so is one of a version that an earlier line has: a site's replies to the two couldn't be
/// told apart. The first fault is named.
pub fn deposits_in(alloc: Global, text: &[u8]) -> Result<Vec<Deposit>, ListFault>
    ensures { IsListOf text.now result }
{
    let mut listed = ListedDeposits::new(alloc);
    let mut rest = text;
    let mut number = 1;
    while let Some((line, after)) = first_line(rest) {
        if !push_line(alloc, &mut listed, line)? {
            return Err(ListFault::Line(number));
        }
        rest = after;
        number += 1;
    }
    Ok(listed.into_vec())
}

// Appends the deposit of a line, if it has one, and gives whether it may stand there in a list.
fn push_line(alloc: Global, listed: &mut ListedDeposits, line: &[u8]) -> Result<bool, AllocError>
    ensures is { IfOk result (λ is. is ≡ may_follow listed.old line.now) }
    ensures pushed { IfOk result (λ is. is ≡ true
        → listed.new ≡ listed.old ++ option_to_list (deposit_of line.now)) }
{
    let words = split_words(alloc, line)?;
    match deposit_at(alloc, line, words.as_slice())? {
        Some(deposit) => listed.push(deposit),
        None => Ok(words.is_empty()),
    }
}

// The deposit of a line of these words, if it has one.
fn deposit_at(alloc: Global, line: &[u8], words: &[&[u8]]) -> Result<Option<Deposit>, AllocError>
    ensures { IfOk result (λ deposit. deposit
        ≡ (if has_mark line.now then None else deposit_in (map (λ word. word.now) words.now))) }
{
    if has_mark(line) {
        return Ok(None);
    }
    deposit_in(alloc, words)
}

// Whether it begins with a byte order mark.
fn has_mark(line: &[u8]) -> bool
    ensures { result ≡ has_mark line.now }
{
    line.starts_with(&[0xef, 0xbb, 0xbf])
}

// The deposit of these words.
#[tactic(auto, unfolding(crate::specs::Lists::deposit_in))]
fn deposit_in(alloc: Global, words: &[&[u8]]) -> Result<Option<Deposit>, AllocError>
    ensures { IfOk result (λ deposit. deposit ≡ deposit_in (map (λ word. word.now) words.now)) }
{
    let [object, version, path] = words else {
        return Ok(None);
    };
    let Some(slot) = parse_slot(alloc, object, version)? else {
        return Ok(None);
    };
    match path_of(alloc, path)? {
        Some(path) => Ok(Some(Deposit { slot, path })),
        None => Ok(None),
    }
}

// The path that a word stands for.
#[tactic(auto, unfolding(crate::specs::Lists::path_of))]
fn path_of(alloc: Global, word: &[u8]) -> Result<Option<FolderPath>, AllocError>
    ensures { IfOk result (λ path. path ≡ path_of word.now) }
{
    match parse_text(alloc, word)? {
        Some(text) => Ok(FolderPath::new(text)),
        None => Ok(None),
    }
}
