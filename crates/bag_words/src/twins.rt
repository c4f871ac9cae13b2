//! Files whose names differ only by their Unicode form.

use crate::bag::Bag;
use crate::counts::Counts;
use code_words::push_name;
use std::alloc::AllocError;
use std::collections::BTreeMap;
use unicode_normalization::to_nfc;

/// Appends a warning for each file whose name is the name of another in another Unicode form.
pub(crate) fn push_twins(
    text: &mut String,
    bag: &Bag<'_, '_>,
    counts: &mut Counts,
) -> Result<(), AllocError> {
    let alloc = bag.rt.alloc();
    let mut seen: BTreeMap<String, &str> = BTreeMap::new(alloc);
    for file in bag.facts.files() {
        let path = file.path();
        // Names of ASCII have one form.
        if path.is_ascii() {
            continue;
        }
        if let Some(twin) = seen.insert(to_nfc(alloc, path)?, path)? {
            counts.warn(text)?;
            push_name(text, twin)?;
            text.push_str(" and ")?;
            push_name(text, path)?;
            text.push_str(" differ only by Unicode form: on many disks they are one file\n")?;
        }
    }
    Ok(())
}
