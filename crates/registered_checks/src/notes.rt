//! What is noted of folders that are read: their paths, and the bags that they hold.

ghost use Rattle.std.specs.Prelude.{◌≡◌, ◌≢◌, ◌↔◌, ◌++◌, ◌∷◌, [], Err, map, string_bytes};
ghost use Rattle.std.specs.Prelude.{option_map, IfOk, OnOk, IsTrue};
ghost use Rattle.std.specs.Option.{option_to_list};
ghost use Rattle.bag_tree.specs.declared.fault.TreeFault.TheVariants.{Memory};
ghost use Rattle.registered_checks.specs.Held.{bag_in, held_by};

use crate::held_bag::HeldBag;
use bag_check::{BagFault, check};
use bag_tree::{Facts, TreeFault};
use fed_types::BagId;
use std::alloc::{AllocError, Global};

/// Notes the folder of this path, which was read with this result, and the bag that it holds, if it
/// holds one.
pub(crate) fn note(
    alloc: Global,
    paths: &mut Vec<String>,
    held: &mut Vec<HeldBag>,
    path: &str,
    read: &Result<Facts, TreeFault>,
) -> Result<(), AllocError>
    ensures read { OnOk result (read.now ≢ Err Memory) }
    ensures path { OnOk result (map string_bytes paths.new.items
        ≡ map string_bytes paths.old.items ++ path.now ∷ []) }
    ensures bag { OnOk result (held.new.items
        ≡ held.old.items ++ option_to_list (option_map (held_by path.now) (bag_in read.now))) }
{
    let bag = bag_in(alloc, read)?;
    note_bag(alloc, held, path, bag)?;
    note_path(alloc, paths, path)
}

fn note_path(alloc: Global, paths: &mut Vec<String>, path: &str) -> Result<(), AllocError>
    ensures { OnOk result (map string_bytes paths.new.items
        ≡ map string_bytes paths.old.items ++ path.now ∷ []) }
{
    paths.push(String::from_str(alloc, path)?)?;
    Ok(())
}

fn note_bag(
    alloc: Global,
    held: &mut Vec<HeldBag>,
    path: &str,
    bag: Option<BagId>,
) -> Result<(), AllocError>
    ensures { OnOk result (held.new.items
        ≡ held.old.items ++ option_to_list (option_map (held_by path.now) bag)) }
{
    if let Some(bag) = bag {
        held.push(HeldBag::new(alloc, path, bag)?)?;
    }
    Ok(())
}

// The identity of the folder that was read so, if it is a valid bag.
fn bag_in(alloc: Global, read: &Result<Facts, TreeFault>) -> Result<Option<BagId>, AllocError>
    ensures read { OnOk result (read.now ≢ Err Memory) }
    ensures bag { IfOk result (λ bag. bag ≡ bag_in read.now) }
{
    match read {
        Ok(facts) => match check(alloc, facts) {
            Ok(bag) => Ok(Some(bag)),
            Err(BagFault::Memory) => Err(AllocError),
            Err(_) => Ok(None),
        },
        Err(TreeFault::Memory) => Err(AllocError),
        Err(_) => Ok(None),
    }
}

/// Whether these are the noted paths, in order.
pub(crate) fn are_paths(noted: &[String], paths: &[&str]) -> bool
    ensures { IsTrue result
        ↔ (map string_bytes noted.now ≡ map (λ path. path.now) paths.now) }
{
    if noted.len() != paths.len() {
        return false;
    }
    for (i, path) in paths.iter().enumerate() {
        if noted[i].as_str() != *path {
            return false;
        }
    }
    true
}
