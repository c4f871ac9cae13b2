//! The columns: the names of the sites, where each is up, down or failed, and which bag it knows.

use crate::canvas::Canvas;
use crate::paint::{PLAIN, of_tree};
use crate::shape::push_shape;
use fed_types::SiteNo;
use records::Entry;
use run_story::{Event, Outcome};
use std::alloc::AllocError;

const COLUMN: &str = "<path class='up' d='M$0 56V$1'/>\n";

const KNOWS: &str = "<path class='knows s$c' d='M$0 $1V$2'/>\n";

const DOWN: &str = "<path class='gap' d='M$0 $1V$2'/><path class='down' d='M$0 $1V$2'/>\n";

const FAILED: &str = "<path class='gap' d='M$0 $1V$2'/><path class='failed' d='M$0 $1V$2'/>\n";

const NAME: &str = "<rect class='site' x='$0' y='$1' width='124' height='28' rx='14'
transform='translate(-62 0)'/><text class='name' x='$0' y='$1' dy='19'>site $2";

impl Canvas<'_> {
    /// Appends all columns, down to this height.
    pub(crate) fn push_columns(&self, text: &mut String, end: usize) -> Result<(), AllocError> {
        for before in 0..self.story.members.count() {
            let x = self.layout.column(before.saturating_add(1));
            push_shape(text, COLUMN, PLAIN, &[x, end])?;
        }
        self.push_knowledge(text, end)?;
        self.push_gaps(text, end)
    }

    // If there are several slots, no colour says what a site knows.
    fn push_knowledge(&self, text: &mut String, end: usize) -> Result<(), AllocError> {
        if self.story.has_many_slots() {
            return Ok(());
        }
        for (place, event) in self.story.events.iter().enumerate() {
            if let Some(Entry::Known(_)) = &event.record {
                let x = self.layout.column(event.site);
                let row = self.layout.row(place);
                push_shape(text, KNOWS, of_tree(event.tree), &[x, row, end])?;
            }
        }
        Ok(())
    }

    fn push_gaps(&self, text: &mut String, end: usize) -> Result<(), AllocError> {
        for (place, event) in self.story.events.iter().enumerate() {
            let gap = gap(event);
            if !gap.is_empty() {
                let x = self.layout.column(event.site);
                let row = self.layout.row(place);
                push_shape(
                    text,
                    gap,
                    PLAIN,
                    &[x, row, self.end_of_gap(place, event.site, end)],
                )?;
            }
        }
        Ok(())
    }

    // The row in which the site starts after this place, if it does.
    fn end_of_gap(&self, place: usize, site: u8, end: usize) -> usize {
        for (later, event) in self.story.events.iter().enumerate() {
            if place < later && event.site == site && matches!(event.outcome, Outcome::Up) {
                return self.layout.row(later);
            }
        }
        end
    }

    /// Appends the names of the sites at this height.
    pub(crate) fn push_names(&self, text: &mut String, y: usize) -> Result<(), AllocError> {
        for before in 0..self.story.members.count() {
            let site = before.saturating_add(1);
            let x = self.layout.column(site);
            push_shape(text, NAME, PLAIN, &[x, y, usize::from(site)])?;
            self.push_weight(text, site)?;
            text.push_str("</text>\n")?;
        }
        Ok(())
    }

    // The weight of a site, where not all are 1.
    fn push_weight(&self, text: &mut String, site: u8) -> Result<(), AllocError> {
        match SiteNo::new(site) {
            Ok(number) if self.story.has_weights() => {
                let weight = self.story.members.weight(number);
                write!(text, ", weight {weight}")
            }
            _ => Ok(()),
        }
    }
}

// How the column is after the event, where that is another than before.
fn gap(event: &Event) -> &'static str {
    match event.outcome {
        Outcome::Down => DOWN,
        Outcome::Failed => FAILED,
        _ => "",
    }
}
