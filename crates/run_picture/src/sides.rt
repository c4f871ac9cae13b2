//! Left and right of a column.

use run_story::{Event, Story};

/// The side of a place on which something is put.
#[derive(Clone, Copy)]
pub(crate) enum Side {
    Left,
    Right,
}

/// The side of its column on which the words of an event are. An arrow comes from the other side;
/// an arrow from a site to itself comes from the right.
pub(crate) fn side_of(story: &Story, event: &Event) -> Side {
    match story.delivered(event) {
        Some(datagram) if datagram.from < datagram.to => Side::Right,
        Some(_) => Side::Left,
        None if event.site != 1 && event.site == story.members.count() => Side::Right,
        None => Side::Left,
    }
}

/// On which side of a site another is; itself on the right.
pub(crate) fn side_to(from: u8, to: u8) -> Side {
    if to < from { Side::Left } else { Side::Right }
}

/// The place this far from another.
pub(crate) fn beside(x: usize, far: usize, side: Side) -> usize {
    match side {
        Side::Left => x.saturating_sub(far),
        Side::Right => x.saturating_add(far),
    }
}
