//! Known bags, as the command `ledger` lists them.

ghost use Rattle.std.specs.Prelude.{◌≡◌, ◌++◌, map, IfOk};
ghost use Rattle.std.specs.Option.{option_to_list};
ghost use Rattle.known_bags.specs.declared.known_lines.ListFault.TheVariants.{Memory};
ghost use Rattle.known_bags.specs.Lists.{known_in, bag_of, is_passed_over, known_by};
ghost use Rattle.known_bags.specs.Lists.{is_line};
ghost use Rattle.known_bags.specs.Sources.{Keeps};
ghost use Rattle.known_bags.specs.inner.Lists.{IsListOf};

use crate::known_bag::KnownBag;
use fed_types::{BAG_BYTES, BagId};
use std::alloc::{AllocError, Global};
use tokens::{first_line, parse_slot, split_words};

/// Why a list can't be read.
#[derive(Clone, Copy, Debug)]
pub(crate) enum ListFault {
    /// This line, counted from 1, is none of a ledger's.
    Line(usize),
    Memory,
}

impl From<AllocError> for ListFault {
    ghost from_gives = { λ _ e. e ≡ Memory };

    fn from(_: AllocError) -> ListFault {
        ListFault::Memory
    }
}

/// Appends the bags of the lines `known OBJ V HEX`. The other lines of a ledger don't say that a
/// bag is known.
#[tactic(auto, using(crate::proofs::Kept::keeping))]
pub(crate) fn push_known_lines(
    alloc: Global,
    bags: &mut Vec<KnownBag>,
    text: &[u8],
) -> Result<(), ListFault>
    ensures list { IsListOf text.now bags.old.items bags.new.items result }
    ensures kept { Keeps bags.old.items bags.new.items }
{
    let mut rest = text;
    let mut number = 1;
    while let Some((line, after)) = first_line(rest) {
        if !push_line(alloc, bags, line)? {
            return Err(ListFault::Line(number));
        }
        rest = after;
        number += 1;
    }
    Ok(())
}

// Appends the bag of a line, if it knows one, and gives whether it is a ledger's.
#[tactic(auto, using(crate::proofs::Kept::keeping))]
fn push_line(alloc: Global, bags: &mut Vec<KnownBag>, line: &[u8]) -> Result<bool, AllocError>
    ensures is { IfOk result (λ is. is ≡ is_line line.now) }
    ensures known { IfOk result (λ _. bags.new.items
        ≡ bags.old.items ++ option_to_list (known_by line.now)) }
    ensures kept { Keeps bags.old.items bags.new.items }
{
    let words = split_words(alloc, line)?;
    match known_in(alloc, words.as_slice())? {
        Some(known) => {
            bags.push(known)?;
            Ok(true)
        }
        None => Ok(is_passed_over(words.as_slice())),
    }
}

// A line that says of no bag that it is known.
#[tactic(auto, unfolding(crate::specs::Lists::is_passed_over))]
fn is_passed_over(words: &[&[u8]]) -> bool
    ensures { result ≡ is_passed_over (map (λ word. word.now) words.now) }
{
    match words {
        [] => true,
        [first, ..] => {
            *first == b"pending".as_slice()
                || *first == b"voted".as_slice()
                || *first == b"asked".as_slice()
                || *first == b"torn".as_slice()
        }
    }
}

// The known bag of a line `known OBJ V HEX`.
#[tactic(auto, unfolding(crate::specs::Lists::known_in))]
fn known_in(alloc: Global, words: &[&[u8]]) -> Result<Option<KnownBag>, AllocError>
    ensures { IfOk result (λ known. known ≡ known_in (map (λ word. word.now) words.now)) }
{
    let [name, object, version, digits] = words else {
        return Ok(None);
    };
    if *name != b"known".as_slice() {
        return Ok(None);
    }
    let Some(slot) = parse_slot(alloc, object, version)? else {
        return Ok(None);
    };
    match bag_of(digits) {
        Some(bag) => Ok(Some(KnownBag::new(slot, bag))),
        None => Ok(None),
    }
}

#[tactic(auto, unfolding(crate::specs::Lists::bag_of))]
fn bag_of(digits: &[u8]) -> Option<BagId>
    ensures { result ≡ bag_of digits.now }
{
    let mut bytes = [0; BAG_BYTES];
    match hex::decode_to_slice(digits, &mut bytes) {
        Ok(()) => Some(BagId(bytes)),
        Err(_) => None,
    }
}
