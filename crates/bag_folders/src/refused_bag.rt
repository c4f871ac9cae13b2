//! Bags that take the place of a bag that was refused.

ghost use Rattle.std.specs.Prelude.{◌≡◌, Err, IfOk, IfSome};
ghost use Rattle.bag_check.specs.Check.{check_of};

use bag_check::{BagFault, check};
use bag_tree::{Facts, Tree, TreeFault, facts_of};
use std::alloc::{AllocError, Global};

/// The declaration of a bag that has none of the first four faults.
const DECLARATION: &str = "BagIt-Version: 1.0\nTag-File-Character-Encoding: UTF-8\n";

/// The facts of a small bag that a check refuses for this fault, and for none before it. There is
/// none for `Memory`.
pub(crate) fn bag_refused_for(alloc: Global, fault: BagFault) -> Result<Option<Facts>, AllocError>
    ensures { IfOk result (λ found. IfSome found (λ facts. check_of facts ≡ Err fault)) }
{
    let Ok(tree) = tree_refused_for(alloc, fault) else {
        return Err(AllocError);
    };
    let facts = facts_of(alloc, &tree)?;
    match check(alloc, &facts) {
        Err(BagFault::Memory) => Err(AllocError),
        Err(found) if found == fault => Ok(Some(facts)),
        _ => Ok(None),
    }
}

/// Its tree.
fn tree_refused_for(alloc: Global, fault: BagFault) -> Result<Tree, TreeFault> {
    let mut tree = Tree::new(alloc);
    if let Some(declaration) = declaration_with(fault) {
        tree.add("bagit.txt", declaration.as_bytes())?;
    }
    if fault == BagFault::HasFetch {
        tree.add("fetch.txt", b"")?;
    }
    if fault != BagFault::NoPayloadFolder {
        tree.add("data/file", b"")?;
    }
    if fault == BagFault::UnknownAlgorithm {
        tree.add("manifest-x.txt", b"")?;
    }
    if fault != BagFault::NoSha512Manifest {
        let manifest = manifest_with(alloc, fault)?;
        tree.add("manifest-sha512.txt", manifest.as_bytes())?;
    }
    Ok(tree)
}

/// A declaration with this fault, or with none of its own.
fn declaration_with(fault: BagFault) -> Option<&'static str> {
    match fault {
        BagFault::NoDeclaration => None,
        BagFault::BadDeclaration => Some(""),
        BagFault::UnsupportedVersion => {
            Some("BagIt-Version: 2.0\nTag-File-Character-Encoding: UTF-8\n")
        }
        BagFault::UnsupportedEncoding => {
            Some("BagIt-Version: 1.0\nTag-File-Character-Encoding: UTF-16\n")
        }
        _ => Some(DECLARATION),
    }
}

/// A manifest with this fault, or with a wrong digest.
fn manifest_with(alloc: Global, fault: BagFault) -> Result<String, AllocError> {
    let zeros = "0".repeat(alloc, 128)?;
    let zeros = zeros.as_str();
    match fault {
        BagFault::MalformedLine => String::from_str(alloc, "x\n"),
        BagFault::UnsafePath => format!(in alloc; "{zeros}  /file\n"),
        BagFault::DuplicateEntry => format!(in alloc; "{zeros}  data/file\n{zeros}  data/file\n"),
        BagFault::MissingFile => format!(in alloc; "{zeros}  data/other\n"),
        BagFault::UnlistedFile => String::from_str(alloc, ""),
        _ => format!(in alloc; "{zeros}  data/file\n"),
    }
}
