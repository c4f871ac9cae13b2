use crate::layout::Layout;
use crate::marks::{outcome_mark, record_mark};
use crate::paint::{PLAIN, of_event, of_tree};
use crate::seen_words::{push_box, push_seen};
use crate::shape::push_shape;
use crate::sides::{Side, beside, side_of};
use run_story::{Deed, Event, Story};
use std::alloc::{AllocError, Global};

/// What is drawn, and where.
#[derive(Clone, Copy)]
pub(crate) struct Canvas<'a> {
    pub(crate) alloc: Global,
    pub(crate) story: &'a Story,
    pub(crate) layout: &'a Layout,
}

impl Canvas<'_> {
    /// Appends the marks of all events.
    pub(crate) fn push_marks(&self, text: &mut String) -> Result<(), AllocError> {
        for (place, event) in self.story.events.iter().enumerate() {
            let row = self.layout.row(place);
            if row != 0 {
                self.push_mark(text, event, row)?;
            }
        }
        Ok(())
    }

    // A record that shows only when the site starts is put below the start.
    fn push_mark(&self, text: &mut String, event: &Event, row: usize) -> Result<(), AllocError> {
        let x = self.layout.column(event.site);
        let lower = match event.deed {
            Deed::Start => row.saturating_add(14),
            _ => row,
        };
        push_shape(text, record_mark(event), of_tree(event.tree), &[x, lower])?;
        push_shape(text, outcome_mark(event), PLAIN, &[x, row])
    }

    /// Appends the words beside all events, and the numbers of lines.
    pub(crate) fn push_labels(
        &self,
        text: &mut String,
        labels: &[String],
    ) -> Result<(), AllocError> {
        let mut line: usize = 0;
        for (place, event) in self.story.events.iter().enumerate() {
            let row = self.layout.row(place);
            if row != 0 && event.line != line {
                line = event.line;
                push_shape(text, NUMBER, PLAIN, &[row, line])?;
            }
            if let Some(label) = labels.get(place) {
                self.push_label(text, event, row, label.as_str())?;
            }
        }
        Ok(())
    }

    fn push_label(
        &self,
        text: &mut String,
        event: &Event,
        row: usize,
        label: &str,
    ) -> Result<(), AllocError> {
        if row == 0 {
            return Ok(());
        }
        let side = side_of(self.story, event);
        let shape = match side {
            Side::Left => "<text class='l f$c' x='$0' y='$1' dx='-13' dy='-5'>",
            Side::Right => "<text class='f$c' x='$0' y='$1' dx='13' dy='-5'>",
        };
        let x = self.layout.column(event.site);
        push_box(
            text,
            label,
            beside(x, 13, side),
            row.saturating_sub(5),
            side,
        )?;
        push_shape(text, shape, of_event(self.story, event), &[x, row])?;
        push_seen(text, label)?;
        text.push_str("</text>\n")
    }
}

const NUMBER: &str = "<text class='n' x='14' y='$0' dy='4'>line $1</text>\n";
