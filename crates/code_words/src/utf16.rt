//! Whether bytes are a text in UTF-16.

ghost use Rattle.std.specs.Prelude.{◌≡◌, ◌==◌};
ghost use Rattle.std.specs.List.{list_all, enumerate_from};
ghost use Rattle.code_words.specs.FileKinds.{is_utf16, has_zeros, is_zero_if_due};

/// Whether these bytes are UTF-16: they begin with its mark, in either order, or every second one
/// is zero, and not all are.
#[tactic(auto, unfolding(crate::specs::FileKinds::is_utf16))]
pub(crate) fn is_utf16(bytes: &[u8]) -> bool
    ensures { result ≡ is_utf16 bytes.now }
{
    if bytes.starts_with(b"\xff\xfe") || bytes.starts_with(b"\xfe\xff") {
        return true;
    }
    !is_zero(bytes) && (has_zeros(bytes, 0) || has_zeros(bytes, 1))
}

// Whether all bytes are zero.
fn is_zero(bytes: &[u8]) -> bool
    ensures { result ≡ list_all (λ byte. byte == 0) bytes.now }
{
    bytes.iter().all(|byte| *byte == 0)
}

// Whether every second byte is zero, from this place on.
fn has_zeros(bytes: &[u8], first: usize) -> bool
    ensures { result ≡ has_zeros bytes.now first }
{
    bytes.len() >= 2 && is_zero_from(bytes, first)
}

fn is_zero_from(bytes: &[u8], first: usize) -> bool
    ensures { result ≡ list_all (is_zero_if_due first) (enumerate_from 0 bytes.now) }
{
    bytes
        .iter()
        .enumerate()
        .all(|(place, byte)| is_zero_if_due(first, place, *byte))
}

fn is_zero_if_due(first: usize, place: usize, byte: u8) -> bool
    ensures { result ≡ is_zero_if_due first (place, byte) }
{
    place % 2 != first || byte == 0
}
