ghost use Rattle.std.specs.Prelude.{◌≡◌, ℕ, List, IfOk, IsErrOf, MatchResult};
ghost use Rattle.bag_text.specs.ListedFile.{ListedFile};
ghost use Rattle.bag_text.specs.Lines.{lines_of};
ghost use Rattle.bag_text.specs.Manifests.{IsManifest, IsFirstMalformed};
ghost use Rattle.bag_text.specs.Readers.{entries_of};
ghost use Rattle.bag_text.specs.Fault.{IsOrMemory};

use crate::algorithm::Algorithm;
use crate::blank::is_blank_line;
use crate::entry::Entry;
use crate::fault::TextFault;
use crate::line::first_line;
use crate::parse_entry::entry_in;
use std::alloc::Global;

/// The entries of a payload or tag manifest of the algorithm, in order (RFC 8493, 2.1.3 and 2.2.1).
/// It is `Malformed` at the first line that is neither blank nor an entry, and `Memory` only where
/// there is no room for the entries.
pub fn manifest(
    alloc: Global,
    algorithm: Algorithm,
    text: &[u8],
) -> Result<Vec<Entry<'_>>, TextFault>
    // What is read is what the text lists.
    ensures found { IfOk result (λ entries. IsManifest algorithm text.now entries.items) }
    // What a text lists is read, unless memory runs out.
    ensures only { (files : List ListedFile) → IsManifest algorithm text.now files
        → MatchResult result (λ entries. entries.items ≡ files)
        (λ fault. fault ≡ TextFault.Memory) }
    // Which line is malformed.
    ensures malformed { (line : ℕ) → IsErrOf result (TextFault.Malformed line)
        → IsFirstMalformed algorithm (lines_of text.now) line }
    // The same as a function.
    ensures exact { IsOrMemory (λ entries. entries.items) result (entries_of algorithm text.now) }
{
    entries_in(alloc, algorithm, text)
}

fn entries_in(alloc: Global, algorithm: Algorithm, text: &[u8]) -> Result<Vec<Entry<'_>>, TextFault>
    ensures { IsOrMemory (λ entries. entries.items) result (entries_of algorithm text.now) }
{
    let mut entries = Vec::new(alloc);
    let mut rest = text;
    let mut number: usize = 0;
    while !rest.is_empty() {
        let (line, after) = first_line(rest);
        rest = after;
        number += 1;
        if is_blank_line(line) {
            continue;
        }
        let Some(entry) = entry_in(alloc, algorithm, line)? else {
            return Err(TextFault::Malformed(number));
        };
        entries.push(entry)?;
    }
    Ok(entries)
}
