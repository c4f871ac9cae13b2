//! A line that says which version a folder is, as one of a list of deposits.

ghost use Rattle.std.specs.Prelude.{◌≡◌, ◌==◌, ◌++◌, ◌∷◌, [], IfOk, map};
ghost use Rattle.std.specs.List.{slice_split};
ghost use Rattle.std.specs.Option.{option_map};
ghost use Rattle.registered_checks.specs.Deposits.{deposit_line, deposit_of};

use std::alloc::{AllocError, Global};

/// `OBJ V FOLDER`, for a line `FOLDER is OBJ V` without its end; none for any other line.
pub fn deposit_of_line(alloc: Global, line: &[u8]) -> Result<Option<Vec<u8>>, AllocError>
    ensures { IfOk result
        (λ deposit. option_map (λ text. text.items) deposit ≡ deposit_line line.now) }
{
    let words = split_at_spaces(alloc, line)?;
    deposit_of(alloc, words.as_slice())
}

// The parts of a line between its spaces.
fn split_at_spaces(alloc: Global, line: &[u8]) -> Result<Vec<&[u8]>, AllocError>
    ensures { IfOk result
        (λ words. map (λ word. word.now) words.items ≡ slice_split (λ b. b == 32) line.now) }
{
    line.split(|byte| *byte == b' ').collect(alloc)
}

// The same for the words of a line.
fn deposit_of(alloc: Global, words: &[&[u8]]) -> Result<Option<Vec<u8>>, AllocError>
    ensures { IfOk result (λ deposit. option_map (λ text. text.items) deposit
        ≡ deposit_of (map (λ word. word.now) words.now)) }
{
    match words {
        [folder, verb, object, version] if *verb == b"is".as_slice() => {
            let text = text_of(alloc, object, version, folder)?;
            Ok(Some(text))
        }
        _ => Ok(None),
    }
}

fn text_of(
    alloc: Global,
    object: &[u8],
    version: &[u8],
    folder: &[u8],
) -> Result<Vec<u8>, AllocError>
    ensures { IfOk result (λ text. text.items
        ≡ object.now ++ (32 ∷ (version.now ++ (32 ∷ (folder.now ++ 10 ∷ []))))) }
{
    let mut text = Vec::new(alloc);
    text.extend_from_slice(object)?;
    text.push(b' ')?;
    text.extend_from_slice(version)?;
    text.push(b' ')?;
    text.extend_from_slice(folder)?;
    text.push(b'\n')?;
    Ok(text)
}
