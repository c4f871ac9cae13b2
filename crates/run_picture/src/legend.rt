//! What marks, lines and colours mean.

use crate::marks::{DEPOSIT, KNOWN, PROMISE, ROUND, START, VOTE};
use crate::paint::{Colour, PLAIN, of_tree};
use crate::shape::push_shape;
use run_story::Story;
use std::alloc::{AllocError, Global};

/// How wide and how high an entry of the legend is.
const WIDE: usize = 150;

const HIGH: usize = 24;

const LOST: &str = "<path class='a b sp' d='M$0 $1m-14 0h14'/>
<path class='x sp' d='M$0 $1m-2 -4l8 8m0 -8l-8 8'/>\n";

const STOP: &str = "<path class='x sr' d='M$0 $1m-4 -4l8 8m0 -8l-8 8'/>\n";

const BAG: &str = "<path class='f$c' d='M$0 $1m-9 -4h18v8h-18z'/>\n";

const WORDS: &str = "<text class='g' x='$0' y='$1' dx='16' dy='4'>";

const MARKS: [(&str, &str); 8] = [
    (DEPOSIT, "deposit recorded"),
    (ROUND, "round recorded"),
    (PROMISE, "promise recorded"),
    (VOTE, "vote recorded"),
    (KNOWN, "known, recorded"),
    (STOP, "stops, or fails"),
    (START, "starts again"),
    (LOST, "never delivered"),
];

/// Where the legend is.
#[derive(Clone, Copy)]
pub(crate) struct Legend {
    /// How many entries are side by side.
    in_a_row: usize,
    top: usize,
}

impl Legend {
    /// The legend at this height of a picture of this width.
    pub(crate) fn new(width: usize, top: usize) -> Legend {
        Legend {
            in_a_row: (width.saturating_sub(40) / WIDE).max(1),
            top,
        }
    }

    // The place of an entry.
    fn place(&self, entry: usize) -> [usize; 2] {
        let row = entry.checked_div(self.in_a_row).unwrap_or(0);
        let before = entry.saturating_sub(row.saturating_mul(self.in_a_row));
        [
            before.saturating_mul(WIDE).saturating_add(34),
            row.saturating_mul(HIGH).saturating_add(self.top),
        ]
    }

    /// Where it ends, with this many trees.
    pub(crate) fn bottom(&self, trees: usize) -> usize {
        let [_, y] = self.place((MARKS.len() - 1).saturating_add(trees));
        y.saturating_add(HIGH)
    }

    /// Appends the marks and the bags of these trees.
    pub(crate) fn push(&self, text: &mut String, trees: &[u32]) -> Result<(), AllocError> {
        for (entry, (mark, words)) in MARKS.iter().enumerate() {
            self.push_entry(text, entry, mark, PLAIN)?;
            write!(text, "{words}</text>\n")?;
        }
        for (before, tree) in trees.iter().enumerate() {
            self.push_entry(
                text,
                MARKS.len().saturating_add(before),
                BAG,
                of_tree(*tree),
            )?;
            write!(text, "bag {tree}</text>\n")?;
        }
        Ok(())
    }

    fn push_entry(
        &self,
        text: &mut String,
        entry: usize,
        shape: &str,
        colour: Colour,
    ) -> Result<(), AllocError> {
        let place = self.place(entry);
        push_shape(text, shape, colour, &place)?;
        push_shape(text, WORDS, PLAIN, &place)
    }
}

/// The trees whose bags the picture names, in the order in which they come.
pub(crate) fn trees_of(alloc: Global, story: &Story) -> Result<Vec<u32>, AllocError> {
    let mut trees = Vec::new(alloc);
    for event in story.events.iter() {
        if event.tree != 0 && !trees.as_slice().contains(&event.tree) {
            trees.push(event.tree)?;
        }
    }
    Ok(trees)
}
