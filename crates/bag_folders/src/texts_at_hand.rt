use bag_tree::{Facts, FileFacts};
use std::alloc::{AllocError, Global};

/// The texts that describe a bag, as the first look has read them, so that none is read twice.
#[derive(Drop)]
pub(crate) struct TextsAtHand {
    /// In the order of the list of the bag's files, the last first.
    left: Vec<FileFacts>,
}

impl TextsAtHand {
    /// No text.
    pub(crate) fn none(alloc: Global) -> TextsAtHand {
        TextsAtHand {
            left: Vec::new(alloc),
        }
    }

    /// The texts of these facts. One without bytes is left out: it may not have been read.
    pub(crate) fn of(alloc: Global, facts: Facts) -> Result<TextsAtHand, AllocError> {
        let mut left = Vec::new(alloc);
        for file in facts.into_files() {
            if file.text().is_some_and(|bytes| !bytes.is_empty()) {
                left.push(file)?;
            }
        }
        left.reverse();
        Ok(TextsAtHand { left })
    }

    /// The bytes of the text of this path, if it is the next one in the list.
    pub(crate) fn take(&mut self, path: &str) -> Option<Vec<u8>> {
        if self.left.last()?.path() != path {
            return None;
        }
        self.left.pop()?.into_text()
    }
}
