ghost use Rattle.std.specs.Prelude.{◌≡◌, IfOk, string_bytes};
ghost use Rattle.bag_explain.specs.Findings.{explanation_of, gap_explanation_of};

use crate::entries::{push_gaps, push_listings};
use crate::read_manifests::listings;
use crate::tag_files::push_tag_files;
use bag_check::FilesByPath;
use bag_tree::Facts;
use std::alloc::{AllocError, Global};

/// All that is wrong with a tree of files that is to be a bag: a line for each fault at each place
/// where it holds, in the order of the faults' numbers; no line if it is a valid bag. The only
/// refusal is that memory ran out.
pub fn explain(alloc: Global, facts: &Facts) -> Result<String, AllocError>
    ensures { IfOk result (λ text. string_bytes text ≡ explanation_of facts.now) }
{
    let files = FilesByPath::new(alloc, facts.files())?;
    let listings = listings(alloc, &files)?;
    let mut text = String::new(alloc);
    push_tag_files(&mut text, &files, facts.payload_exists())?;
    push_listings(alloc, &mut text, &files, listings.as_slice())?;
    Ok(text)
}

/// The same but for wrong digests: all that keeps the tree from being a complete bag.
pub fn explain_gaps(alloc: Global, facts: &Facts) -> Result<String, AllocError>
    ensures { IfOk result (λ text. string_bytes text ≡ gap_explanation_of facts.now) }
{
    let files = FilesByPath::new(alloc, facts.files())?;
    let listings = listings(alloc, &files)?;
    let mut text = String::new(alloc);
    push_tag_files(&mut text, &files, facts.payload_exists())?;
    push_gaps(alloc, &mut text, &files, listings.as_slice())?;
    Ok(text)
}
