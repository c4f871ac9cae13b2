ghost use Rattle.std.specs.Prelude.{◌≡◌, ◌≤◌, length};
ghost use Rattle.std.specs.Str.{bytes_eq};
ghost use Rattle.std.specs.Result.{result_ok, result_unwrap_or};
ghost use Rattle.hex.specs.Hex.{decode_of};

use std::marker::Model;

/// How many hex digits the longest digest has, a SHA-512.
const MOST_DIGITS: usize = 128;

/// A digest as a manifest has it: its hex digits, of either case. They are never decoded, since
/// most digests are never asked for, and one that is asked for is compared in hex.
#[derive(Debug, Drop)]
pub struct HexDigest<'a> {
    digits: &'a [u8],
}

impl<'a> Model for HexDigest<'a> {
    ghost use Rattle.std.specs.Prelude.{◌≡◌, ◌≤◌, ℕ, true, List, [], length, is_ok};
    ghost use Rattle.std.specs.Result.{result_unwrap_or};
    ghost use Rattle.hex.specs.Hex.{decode_of};

    ghost Value = { List ℕ };

    ghost view = { λ it. result_unwrap_or (decode_of it.digits.now) [] };

    ghost invariant = { λ it.
        (is_ok (decode_of it.digits.now) ≡ true) × (length it.digits.now ≤ 128) };
}

impl<'a> HexDigest<'a> {
    /// The digest of these digits, if they are the digits of whole bytes.
    pub(crate) fn of(digits: &'a [u8]) -> Option<HexDigest<'a>>
        requires { length digits.now ≤ 128 }
        ensures { result ≡ result_ok (decode_of digits.now) }
    {
        if are_hex(digits) {
            Some(HexDigest { digits })
        } else {
            None
        }
    }

    /// Whether the digest has these bytes.
    pub fn equals(&self, bytes: &[u8]) -> bool
        ensures { result ≡ bytes_eq bytes.now self.now }
    {
        let mut room = [0u8; MOST_DIGITS];
        is_hex_of(self.digits, bytes, &mut room[..self.digits.len()])
    }
}

ghost use Rattle.std.specs.Prelude.{[], true, is_ok};
ghost use Rattle.std.specs.Char.{is_ascii_hexdigit};
ghost use Rattle.std.specs.List.{list_all};

/// Whether these are the digits of the bytes, which are written in hex to the room for that.
fn is_hex_of(digits: &[u8], bytes: &[u8], room: &mut [u8]) -> bool
    requires room { length room.old ≡ length digits.now }
    requires digits { is_ok (decode_of digits.now) ≡ true }
    ensures { result ≡ bytes_eq bytes.now (result_unwrap_or (decode_of digits.now) []) }
{
    match hex::encode_to_slice(bytes, room) {
        Ok(()) => digits.eq_ignore_ascii_case(room),
        // They are more bytes than the digits say, or fewer.
        Err(_) => false,
    }
}

/// Whether these are the digits of whole bytes.
#[tactic(auto, using(crate::proofs::HexLaws::even_digits, crate::proofs::HexLaws::odd_digits))]
fn are_hex(digits: &[u8]) -> bool
    ensures { result ≡ is_ok (decode_of digits.now) }
{
    digits.len() % 2 == 0 && are_hex_digits(digits)
}

// All digits are tested, even after a wrong one: a loop that may end early has jumps at each digit
// that no processor predicts, and takes ten times as long.
fn are_hex_digits(digits: &[u8]) -> bool
    ensures { result ≡ list_all is_ascii_hexdigit digits.now }
{
    let mut all = true;
    for digit in digits {
        all &= digit.is_ascii_hexdigit();
    }
    all
}
