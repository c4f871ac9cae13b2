ghost use Rattle.std.specs.Prelude.{◌≡◌, ◌⊎◌, ◌≤◌, ℕ, List, length, true, false, Some, IfOk, OnOk};
ghost use Rattle.std.specs.List.{list_any};
ghost use Rattle.std.specs.BTreeMap.{get_by_text};
ghost use Rattle.bag_tree.specs.Path.{is_below};
ghost use Rattle.bag_tree.specs.inner.Places.{FindsEach, is_at, is_too_deep, leads};

use crate::path::{DEEPEST_PATH, lies_below, part_count};
use crate::tree::TreeFile;
use std::alloc::{AllocError, Global};
use std::collections::BTreeMap;

/// Whether a file has this path.
pub(crate) fn has_file(files: &[TreeFile], by_path: &BTreeMap<String, usize>, path: &str) -> bool
    requires { FindsEach is_at files.now by_path.now }
    ensures { result ≡ list_any (λ file. is_at path.now file.path) files.now }
{
    match by_path.get(path) {
        None => false,
        Some(place) => match files.get(*place) {
            None => false,
            Some(file) => file.path() == path,
        },
    }
}

/// Whether a file lies below this folder.
pub(crate) fn has_file_below(
    files: &[TreeFile],
    by_folder: &BTreeMap<String, usize>,
    folder: &str,
) -> bool
    requires { FindsEach is_below files.now by_folder.now }
    ensures { result ≡ list_any (λ file. is_below folder.now file.path) files.now }
{
    match by_folder.get(folder) {
        None => false,
        Some(place) => match files.get(*place) {
            None => false,
            Some(file) => lies_below(folder.as_bytes(), file.path().as_bytes()),
        },
    }
}

/// Whether the path lies below a file. A path of many parts has more folders than files have.
pub(crate) fn lies_below_file(
    files: &[TreeFile],
    by_path: &BTreeMap<String, usize>,
    path: &str,
) -> bool
    requires each { FindsEach is_at files.now by_path.now }
    requires deepest { list_any is_too_deep files.now ≡ false }
    ensures { result ≡ list_any (λ file. is_below file.path path.now) files.now }
{
    let bytes = path.as_bytes();
    for end in 0..bytes.len() {
        if bytes[end] == b'/' {
            let folder = &path[..end];
            if part_count(folder.as_bytes()) > DEEPEST_PATH {
                return false;
            }
            if has_file(files, by_path, folder) {
                return true;
            }
        }
    }
    false
}

/// Makes each folder of the path lead to the place after these files, if it leads to none of them.
pub(crate) fn lead_folders(
    alloc: Global,
    files: &[TreeFile],
    by_folder: &mut BTreeMap<String, usize>,
    path: &str,
) -> Result<(), AllocError>
    requires { FindsEach is_below files.now by_folder.old }
    ensures each { FindsEach is_below files.now by_folder.new }
    ensures added { OnOk result ((folder : List ℕ) → is_below folder path.now ≡ true
        → (get_by_text by_folder.new folder ≡ Some (length files.now))
        ⊎ (list_any (λ file. is_below folder file.path) files.now ≡ true)) }
{
    let bytes = path.as_bytes();
    for end in 0..bytes.len() {
        if bytes[end] == b'/' {
            lead_folder(alloc, files, by_folder, &path[..end])?;
        }
    }
    Ok(())
}

/// Makes a folder lead to the place after these files, if it leads to none of them.
fn lead_folder(
    alloc: Global,
    files: &[TreeFile],
    by_folder: &mut BTreeMap<String, usize>,
    folder: &str,
) -> Result<(), AllocError>
    requires { FindsEach is_below files.now by_folder.old }
    ensures each { FindsEach is_below files.now by_folder.new }
    ensures others { (path : List ℕ)
        → (get_by_text by_folder.new path ≡ Some (length files.now))
        ⊎ (get_by_text by_folder.new path ≡ get_by_text by_folder.old path) }
    ensures added { OnOk result (
        (get_by_text by_folder.new folder.now ≡ Some (length files.now))
        ⊎ (list_any (λ file. is_below folder.now file.path) files.now ≡ true)) }
{
    if !has_file_below(files, by_folder, folder) {
        by_folder.insert(String::from_str(alloc, folder)?, files.len())?;
    }
    Ok(())
}

/// Makes the path lead to the place after these files, none of which has it.
pub(crate) fn lead_path(
    alloc: Global,
    files: &[TreeFile],
    by_path: &mut BTreeMap<String, usize>,
    path: &str,
) -> Result<(), AllocError>
    requires each { FindsEach is_at files.now by_path.old }
    requires new { list_any (λ file. is_at path.now file.path) files.now ≡ false }
    ensures each { FindsEach is_at files.now by_path.new }
    ensures added { OnOk result (get_by_text by_path.new path.now ≡ Some (length files.now)) }
{
    by_path.insert(String::from_str(alloc, path)?, files.len())?;
    Ok(())
}
