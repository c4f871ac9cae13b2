//! Comparison in a time that doesn't tell where two tags differ.

ghost use Rattle.std.specs.Prelude.{◌≡◌, length, bytes_eq};

/// Whether these bytes, as many, are the same. Each pair is looked at, whatever came before it.
pub(crate) fn are_equal(one: &[u8], other: &[u8]) -> bool
    requires { length one.now ≡ length other.now }
    ensures { result ≡ bytes_eq one.now other.now }
{
    let mut same = true;
    for (byte, with) in one.iter().zip(other) {
        same &= *byte == *with;
    }
    same
}
