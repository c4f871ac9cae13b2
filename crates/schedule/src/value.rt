ghost use Rattle.std.specs.Prelude.{◌≡◌, ◌≤◌, ◌<◌, length, string_bytes, IfOk, IfSome, option_map};
ghost use Rattle.fed_types.specs.Limits.{greatest_weight};
ghost use Rattle.fed_types.specs.Sites.{IsWeight};
ghost use Rattle.tokens.specs.Words.{number_in, text_of, bytes_of};
ghost use Rattle.schedule.specs.Commands.{site_of, tree_of, amount_of};

use crate::file_path::FilePath;
use crate::hex_bytes::HexBytes;
use crate::tree_no::TreeNo;
use fed_types::GREATEST_WEIGHT;
use hex::FromHexError;
use std::alloc::{AllocError, Global};
use tokens::{parse_number, parse_text};

/// The number of a site, a member or not.
pub(crate) fn parse_site(word: &[u8]) -> Option<u8>
    ensures { result ≡ site_of word.now }
{
    Some(parse_number(0, u64::from(u8::MAX), word)? as u8)
}

/// The weight of a member.
pub(crate) fn parse_weight(word: &[u8]) -> Option<u8>
    ensures value { result ≡ number_in 1 greatest_weight word.now }
    ensures in_range { IfSome result IsWeight }
{
    Some(parse_number(1, u64::from(GREATEST_WEIGHT), word)? as u8)
}

/// The number of a tree.
pub(crate) fn parse_tree_no(word: &[u8]) -> Option<TreeNo>
    ensures { result ≡ tree_of word.now }
{
    TreeNo::new(parse_number(1, u64::from(u32::MAX), word)? as u32)
}

/// How many bytes, datagrams or turns, or the number of a datagram.
pub(crate) fn parse_amount(word: &[u8]) -> Option<u32>
    ensures { result ≡ amount_of word.now }
{
    Some(parse_number(0, u64::from(u32::MAX), word)? as u32)
}

/// The path of a file.
pub(crate) fn parse_path(alloc: Global, word: &[u8]) -> Result<Option<FilePath>, AllocError>
    requires { 0 < length word.now }
    ensures { IfOk result (λ path. path ≡ text_of word.now) }
{
    let Some(path) = parse_text(alloc, word)? else {
        return Ok(None);
    };
    Ok(FilePath::new(path))
}

/// Bytes, by their hex digits.
#[tactic(auto, unfolding(tokens::specs::Words::bytes_of))]
pub(crate) fn parse_bytes(alloc: Global, word: &[u8]) -> Result<Option<HexBytes>, AllocError>
    ensures { IfOk result (λ bytes. bytes ≡ bytes_of word.now) }
{
    if word == b"-".as_slice() {
        return Ok(Some(HexBytes::new(Vec::new(alloc))));
    }
    match hex::decode(alloc, word) {
        Ok(bytes) => Ok(Some(HexBytes::new(bytes))),
        Err(FromHexError::OutOfMemory) => Err(AllocError),
        Err(_) => Ok(None),
    }
}
