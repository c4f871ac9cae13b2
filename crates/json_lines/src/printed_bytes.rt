//! Printed bytes, as they become lines of JSON.

ghost use Rattle.std.specs.Prelude.{◌≡◌, ◌++◌, [], ◌≤◌, ◌==◌, ℕ, length, take, position};
ghost use Rattle.std.specs.Prelude.{IfOk, OnOk, OnErr, string_bytes, ◌⊎◌};
ghost use Rattle.std.specs.Io.KnownBytes.{Appends};
ghost use Rattle.json_lines.specs.Lines.{json_of, json_text, begun_after, memory_line, IsCutShort};

use crate::printed_line::json_line;
use outcomes::write_all;
use std::alloc::{AllocError, Global};
use std::io::{Error, ErrorKind, Result, Write};

const MEMORY: &str = "{\"line\":\"memory\"}\n";

/// Takes printed bytes that come after the beginning of a line: up to the end of that line if it is
/// among them, and else all. It gives how many it took. Once the line is ended, its line of JSON is
/// written. Where that fails, or memory runs out, nothing is taken. A line says that memory ran
/// out. No fault is `Interrupted`.
pub fn take_printed<W: Write>(
    alloc: Global,
    begun: &mut Vec<u8>,
    bytes: &[u8],
    output: &mut W,
) -> Result<usize>
    ensures count { IfOk result (λ count. count ≤ length bytes.now) }
    ensures some { IfOk result (λ count. count ≡ 0 → bytes.now ≡ []) }
    ensures written { IfOk result (λ count. Appends (W.contents output.old)
        (W.contents output.new) (json_text begun.old.items (take count bytes.now))) }
    ensures begun { IfOk result (λ count. begun.new.items
        ≡ begun_after begun.old.items (take count bytes.now)) }
    ensures err { OnErr result (IsCutShort (W.contents output.old) (W.contents output.new)
        begun.old.items bytes.now) }
    ensures kept { OnErr result (begun.new.items ≡ begun.old.items) }
{
    match line_end(bytes) {
        Some(end) => match write_line(alloc, begun.as_slice(), &bytes[..end], output) {
            Ok(()) => {
                begun.clear();
                Ok(end + 1)
            }
            Err(error) => Err(error),
        },
        None => match begun.extend_from_slice(bytes) {
            Ok(()) => Ok(bytes.len()),
            Err(AllocError) => Err(no_memory(output)),
        },
    }
}

// Where the first LF is.
fn line_end(bytes: &[u8]) -> Option<usize>
    ensures { result ≡ position (λ b. b == 10) bytes.now }
{
    bytes.iter().position(|b| *b == b'\n')
}

// Writes the line of JSON of a line that begins and ends so.
fn write_line<W: Write>(alloc: Global, begun: &[u8], rest: &[u8], output: &mut W) -> Result<()>
    ensures ok { OnOk result (Appends (W.contents output.old) (W.contents output.new)
        (json_of (begun.now ++ rest.now))) }
    ensures err { OnErr result ((n : ℕ) × (Appends (W.contents output.old)
        (W.contents output.new) (take n (json_of (begun.now ++ rest.now)))
        ⊎ Appends (W.contents output.old) (W.contents output.new) (take n memory_line))) }
{
    match joined(alloc, begun, rest) {
        Ok(text) => match write_all(output, text.as_bytes()) {
            Ok(()) => Ok(()),
            Err(_) => Err(ErrorKind::Other.into()),
        },
        Err(AllocError) => Err(no_memory(output)),
    }
}

// The line of JSON of a line that begins and ends so.
#[tactic(auto, unfolding(crate::specs::Lines::json_of))]
fn joined(alloc: Global, begun: &[u8], rest: &[u8]) -> std::result::Result<String, AllocError>
    ensures { IfOk result (λ text. string_bytes text ≡ json_of (begun.now ++ rest.now)) }
{
    let mut line = Vec::new(alloc);
    line.extend_from_slice(begun)?;
    line.extend_from_slice(rest)?;
    json_line(alloc, line.as_slice())
}

// Writes that memory ran out, as far as that can be written, and gives the fault.
fn no_memory<W: Write>(output: &mut W) -> Error
    ensures { (n : ℕ) × Appends (W.contents output.old) (W.contents output.new)
        (take n memory_line) }
{
    let _ = write_all(output, MEMORY.as_bytes());
    ErrorKind::OutOfMemory.into()
}
