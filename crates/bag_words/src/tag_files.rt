//! What tag manifests list.

use crate::bag::{ALGORITHMS, Bag};
use crate::counts::Counts;
use bag_check::Kind;
use bag_text::manifest;
use bag_tree::is_payload;
use code_words::push_name;
use std::alloc::AllocError;
use std::collections::BTreeSet;

/// Appends a warning for each file beside the payload that no tag manifest lists, if there is a tag
/// manifest; and for what RFC 8493 requires of tag manifests and isn't required here.
pub(crate) fn push_tag_files(
    text: &mut String,
    bag: &Bag<'_, '_>,
    counts: &mut Counts,
) -> Result<(), AllocError> {
    let Some(listed) = listed_by_tags(bag)? else {
        return Ok(());
    };
    for file in bag.facts.files() {
        let path = file.path();
        if is_payload(path.as_bytes()) || path.starts_with("tagmanifest-") {
            continue;
        }
        if !listed.contains(path) {
            counts.warn(text)?;
            text.push_str("no tag manifest lists ")?;
            push_name(text, path)?;
            text.push_str(", so a change to it would go unnoticed\n")?;
        }
    }
    Ok(())
}

/// The paths that tag manifests list; none where there is no tag manifest, or nobody knows what one
/// lists.
fn listed_by_tags(bag: &Bag<'_, '_>) -> Result<Option<BTreeSet<String>>, AllocError> {
    let alloc = bag.rt.alloc();
    let mut listed = BTreeSet::new(alloc);
    let mut is_there = false;
    for algorithm in ALGORITHMS {
        let Some(text) = bag.files.text_at(Kind::Tag.manifest_name(algorithm)) else {
            continue;
        };
        is_there = true;
        let Ok(entries) = manifest(alloc, algorithm, text) else {
            return Ok(None);
        };
        for entry in entries {
            listed.insert(String::from_str(alloc, entry.path())?)?;
        }
    }
    Ok(if is_there { Some(listed) } else { None })
}
