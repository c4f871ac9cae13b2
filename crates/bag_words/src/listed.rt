//! Lines of the texts that describe a bag.

use crate::bag::Bag;
use crate::finding::Finding;
use bag_text::lines;
use std::alloc::AllocError;

/// The lines of the text that was asked for last.
#[derive(Drop)]
pub(crate) struct TextLines<'a> {
    name: String,
    lines: Vec<&'a [u8]>,
}

impl<'a> TextLines<'a> {
    /// The lines of no text yet.
    pub(crate) fn new(bag: &Bag<'a, '_>) -> TextLines<'a> {
        TextLines {
            name: String::new(bag.rt.alloc()),
            lines: Vec::new(bag.rt.alloc()),
        }
    }

    /// The line where a fault was found; empty where there is none.
    pub(crate) fn line_at(
        &mut self,
        bag: &Bag<'a, '_>,
        finding: &Finding<'_>,
    ) -> Result<&'a [u8], AllocError> {
        let name = finding.name;
        if self.name.as_str() != name {
            self.lines = lines_of(bag, name)?;
            self.name.clear();
            self.name.push_str(name)?;
        }
        // Lines are counted from 1.
        let index = finding.line.saturating_sub(1);
        Ok(match self.lines.as_slice().get(index) {
            Some(line) => *line,
            None => &[],
        })
    }
}

fn lines_of<'a>(bag: &Bag<'a, '_>, name: &str) -> Result<Vec<&'a [u8]>, AllocError> {
    let alloc = bag.rt.alloc();
    let Some(text) = bag.files.text_at(name) else {
        return Ok(Vec::new(alloc));
    };
    match lines(alloc, text) {
        Ok(found) => Ok(found),
        Err(_) => Err(AllocError),
    }
}
