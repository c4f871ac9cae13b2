use crate::fault::ToolFault;
use bag_tree::{Facts, Tree, facts_of};
use std::alloc::Global;

const DECLARATION: &str = "BagIt-Version: 1.0\nTag-File-Character-Encoding: UTF-8\n";

/// A bag without payload, whose SHA-512 manifest has these bytes; without its folder it is no bag.
pub(crate) fn tree(alloc: Global, folder: bool, manifest: &[u8]) -> Result<Facts, ToolFault> {
    let mut tree = Tree::new(alloc);
    let facts = filled(alloc, &mut tree, folder, manifest);
    drop(tree);
    facts
}

/// The facts of the tree, with its files.
fn filled(
    alloc: Global,
    tree: &mut Tree,
    folder: bool,
    manifest: &[u8],
) -> Result<Facts, ToolFault> {
    tree.add("bagit.txt", DECLARATION.as_bytes())?;
    tree.add("manifest-sha512.txt", manifest)?;
    if folder {
        tree.add_folder();
    }
    Ok(facts_of(alloc, tree)?)
}
