//! Where everything is, in units of the picture.

use crate::labels::message_of;
use crate::seen_words::width_of;
use crate::sides::{Side, side_of, side_to};
use lines::Reason;
use run_story::{Datagram, Deed, Event, Outcome, Passage, Story};
use std::alloc::{AllocError, Global};

/// The height above the first row, in which the sites are named.
const TOP: usize = 84;
/// The height of an event.
const ROW: usize = 26;
/// The height of a datagram that was never delivered, below the event that sent it.
const STUB: usize = 18;
/// The height of the sites' names between rows, and after how much they are named again.
const NAMES: usize = 46;

const SCREENFUL: usize = 25 * ROW;
/// Room for the numbers of the schedule's lines.
const GUTTER: usize = 56;
/// How far columns are apart at least, and how wide the margins are.
const LEAST_SPACING: usize = 250;

const LEAST_MARGIN: usize = 84;
/// How far from its column the words of an arrow are that breaks off.
pub(crate) const BEYOND: usize = 74;

/// Where everything is.
#[derive(Drop)]
pub(crate) struct Layout {
    // How wide the margins are, and how far columns are apart.
    left: usize,
    spacing: usize,
    right: usize,
    // The row of each event, 0 where it isn't drawn.
    rows: Vec<usize>,
    // For each datagram, where it ends if it was never delivered.
    stubs: Vec<usize>,
    // Where the sites are named again.
    names: Vec<usize>,
    // Where they were named last.
    named: usize,
    /// The last row.
    pub(crate) bottom: usize,
}

impl Layout {
    /// The layout of a story, whose events have these words beside them.
    pub(crate) fn of(
        alloc: Global,
        story: &Story,
        labels: &[String],
    ) -> Result<Layout, AllocError> {
        let mut layout = Layout {
            left: GUTTER + LEAST_MARGIN,
            spacing: LEAST_SPACING,
            right: LEAST_MARGIN,
            rows: Vec::new(alloc),
            stubs: Vec::new(alloc),
            names: Vec::new(alloc),
            named: TOP,
            bottom: TOP,
        };
        for (event, label) in story.events.iter().zip(labels.iter()) {
            layout.add_row(event)?;
            layout.add_stubs(alloc, story, event)?;
            layout.allow(story, event, room_for(label.as_str()));
        }
        Ok(layout)
    }

    // The row of the next event.
    fn add_row(&mut self, event: &Event) -> Result<(), AllocError> {
        if !is_drawn(event) {
            self.rows.push(0)?;
            return Ok(());
        }
        self.add_names()?;
        self.bottom = self.bottom.saturating_add(ROW);
        self.rows.push(self.bottom)?;
        Ok(())
    }

    // Names the sites again, if that was a screenful ago.
    fn add_names(&mut self) -> Result<(), AllocError> {
        if self.bottom.saturating_sub(self.named) < SCREENFUL {
            return Ok(());
        }
        self.names.push(self.bottom.saturating_add(16))?;
        self.bottom = self.bottom.saturating_add(NAMES);
        self.named = self.bottom;
        Ok(())
    }

    // Adds where the datagrams that it sent break off.
    fn add_stubs(&mut self, alloc: Global, story: &Story, event: &Event) -> Result<(), AllocError> {
        for before in event.sent_before..event.sent_after {
            if let Some(Passage::Never) = story.passages.get(before) {
                self.bottom = self.bottom.saturating_add(STUB);
                let number = before.saturating_add(1);
                if let Some(datagram) = story.datagram(number) {
                    let words = message_of(alloc, story, number, datagram)?;
                    self.allow_stub(story, datagram, room_beyond(words.as_str()));
                }
            }
            self.stubs.push(self.bottom)?;
        }
        Ok(())
    }

    // Leaves this much room beside a datagram that breaks off: to the right of the last column
    // there may be one that its site has sent to itself.
    fn allow_stub(&mut self, story: &Story, datagram: &Datagram, room: usize) {
        match side_to(datagram.from, datagram.to) {
            Side::Right if datagram.from == story.members.count() => {
                self.right = self.right.max(LEAST_SPACING).max(room);
            }
            _ => self.spacing = self.spacing.max(room),
        }
    }

    // Leaves this much room beside an event.
    fn allow(&mut self, story: &Story, event: &Event, room: usize) {
        let last = story.members.count();
        match side_of(story, event) {
            Side::Left if event.site == 1 => self.left = self.left.max(room.saturating_add(GUTTER)),
            Side::Right if event.site == last => self.right = self.right.max(room),
            _ => self.spacing = self.spacing.max(room),
        }
    }

    /// The column of a site.
    pub(crate) fn column(&self, site: u8) -> usize {
        let before = usize::from(site.saturating_sub(1));
        self.left
            .saturating_add(before.saturating_mul(self.spacing))
    }

    /// How wide the picture of this many sites is.
    pub(crate) fn width(&self, sites: u8) -> usize {
        self.column(sites).saturating_add(self.right)
    }

    /// The row of the event at this place, 0 where it isn't drawn.
    pub(crate) fn row(&self, place: usize) -> usize {
        self.rows.get(place).copied().unwrap_or(0)
    }

    /// Where the sites are named between rows.
    pub(crate) fn names(&self) -> &[usize] {
        self.names.as_slice()
    }

    /// The rows of all events.
    pub(crate) fn into_rows(self) -> Vec<usize> {
        let Layout { rows, .. } = self;
        rows
    }

    /// Where the datagram of this number breaks off, if it does.
    pub(crate) fn stub(&self, number: usize) -> usize {
        self.stubs.get(number.wrapping_sub(1)).copied().unwrap_or(0)
    }
}

// Whether an event has a row: it happened at a site, or a datagram came while the site was down.
fn is_drawn(event: &Event) -> bool {
    match (event.deed, event.outcome) {
        (Deed::Tree | Deed::Folder | Deed::File, _) => false,
        (Deed::Deliver, Outcome::Skipped(Reason::Down)) => true,
        (_, Outcome::Skipped(_)) => false,
        _ => true,
    }
}

// How much room words take beside their column.
fn room_for(words: &str) -> usize {
    width_of(words).saturating_add(36)
}

// The same beyond an arrow that breaks off.
fn room_beyond(words: &str) -> usize {
    width_of(words).saturating_add(BEYOND + 10)
}
