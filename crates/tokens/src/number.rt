ghost use Rattle.std.specs.Prelude.{◌≡◌, ◌≤◌, IfSome};
ghost use Rattle.tokens.specs.Words.{number_in};

/// The number of a word of one or more digits, if it is from `low` to `high`.
pub fn parse_number(low: u64, high: u64, word: &[u8]) -> Option<u64>
    ensures value { result ≡ number_in low high word.now }
    ensures in_range { IfSome result (λ n. (low ≤ n) × (n ≤ high)) }
{
    if word.is_empty() {
        return None;
    }
    let mut value: u64 = 0;
    for byte in word {
        if !byte.is_ascii_digit() {
            return None;
        }
        value = value.checked_mul(10)?.checked_add(u64::from(*byte - b'0'))?;
    }
    if low <= value && value <= high {
        Some(value)
    } else {
        None
    }
}
