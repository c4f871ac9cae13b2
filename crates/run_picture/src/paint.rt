//! Colours: of bags, by the numbers of their trees, and of what names none.

use crate::shape::push_shape;
use run_story::{Datagram, Event, Kind, Story};
use std::alloc::AllocError;

/// A colour, in a picture by the letter or the number at the end of a class.
#[derive(Clone, Copy)]
pub(crate) enum Colour {
    /// Of what names no bag.
    Plain,
    Refusal,
    /// Of the bag of the tree of this number.
    Bag(u32),
}

pub(crate) const PLAIN: Colour = Colour::Plain;

/// On what a picture is seen.
#[derive(Clone, Copy)]
pub(crate) enum Sheet {
    Light,
    Dark,
}

/// The colours of the first bags, on a light sheet and on a dark one. Those of others are made.
const BAGS: [(&str, &str); 8] = [
    ("#2f6fb5", "#6ea8e8"),
    ("#d9792b", "#f0a05c"),
    ("#3a9a62", "#5fc48a"),
    ("#8d5cb4", "#bb90e0"),
    ("#c0446a", "#ee7fa0"),
    ("#1d8c99", "#4fc3d0"),
    ("#8a6f3c", "#c9ab70"),
    ("#5f6fc4", "#93a1f0"),
];

/// The colour of the bag of a tree, if there is one.
pub(crate) fn of_tree(tree: u32) -> Colour {
    match tree {
        0 => Colour::Plain,
        _ => Colour::Bag(tree),
    }
}

/// The colour of a datagram.
pub(crate) fn of_datagram(datagram: &Datagram) -> Colour {
    match datagram.kind {
        Kind::Refused => Colour::Refusal,
        Kind::Promise => Colour::Plain,
        _ => of_tree(datagram.tree),
    }
}

/// The colour of the words of an event.
pub(crate) fn of_event(story: &Story, event: &Event) -> Colour {
    match story.delivered(event) {
        Some(datagram) => of_datagram(datagram),
        None => of_tree(event.tree),
    }
}

/// Appends what a class ends in that has this colour.
pub(crate) fn push_colour(text: &mut String, colour: Colour) -> Result<(), AllocError> {
    match colour {
        Colour::Plain => text.push('p'),
        Colour::Refusal => text.push('r'),
        Colour::Bag(tree) => write!(text, "{tree}"),
    }
}

/// Appends the classes of the colours that a picture with the bags of these trees has: `s` for
/// strokes and `f` for what is filled.
pub(crate) fn push_classes(
    text: &mut String,
    trees: &[u32],
    sheet: Sheet,
) -> Result<(), AllocError> {
    push_class(text, Colour::Plain, sheet)?;
    push_class(text, Colour::Refusal, sheet)?;
    for tree in trees.iter() {
        push_class(text, Colour::Bag(*tree), sheet)?;
    }
    Ok(())
}

fn push_class(text: &mut String, colour: Colour, sheet: Sheet) -> Result<(), AllocError> {
    push_shape(text, ".s$c{stroke:", colour, &[])?;
    push_shade(text, colour, sheet)?;
    push_shape(text, "}.f$c{fill:", colour, &[])?;
    push_shade(text, colour, sheet)?;
    text.push_str(";color:")?;
    push_shade(text, colour, sheet)?;
    text.push_str("}\n")
}

fn push_shade(text: &mut String, colour: Colour, sheet: Sheet) -> Result<(), AllocError> {
    match (colour, sheet) {
        (Colour::Plain, Sheet::Light) => text.push_str("#64748b"),
        (Colour::Plain, Sheet::Dark) => text.push_str("#94a3b8"),
        (Colour::Refusal, Sheet::Light) => text.push_str("#b4483c"),
        (Colour::Refusal, Sheet::Dark) => text.push_str("#ef7d6f"),
        (Colour::Bag(tree), _) => push_bag_shade(text, tree, sheet),
    }
}

// The hues of 320,000 trees that follow each other are different, and none is that of refusals. Of
// three that follow each other each is lighter than the one before.
fn push_bag_shade(text: &mut String, tree: u32, sheet: Sheet) -> Result<(), AllocError> {
    match BAGS.get((tree.wrapping_sub(1)) as usize) {
        Some((light, dark)) => text.push_str(match sheet {
            Sheet::Light => light,
            Sheet::Dark => dark,
        }),
        None => {
            let hue = (u64::from(tree).wrapping_mul(137_507) % 320_000).wrapping_add(20_000);
            let whole = hue / 1000;
            let rest = hue % 1000;
            let lighter = (tree % 3).wrapping_mul(8);
            let lightness = match sheet {
                Sheet::Light => lighter.wrapping_add(36),
                Sheet::Dark => lighter.wrapping_add(60),
            };
            write!(text, "hsl({whole}.{rest:03},52%,{lightness}%)")
        }
    }
}

/// Appends an arrowhead of each of these colours.
pub(crate) fn push_heads(text: &mut String, trees: &[u32]) -> Result<(), AllocError> {
    push_shape(text, HEAD, Colour::Plain, &[])?;
    push_shape(text, HEAD, Colour::Refusal, &[])?;
    for tree in trees.iter() {
        push_shape(text, HEAD, Colour::Bag(*tree), &[])?;
    }
    Ok(())
}

const HEAD: &str = "<marker id='h$c' viewBox='0 0 10 10' refX='9' refY='5'
markerWidth='8' markerHeight='8' markerUnits='userSpaceOnUse' orient='auto'>
<path class='f$c' d='M0 1L10 5L0 9z'/></marker>\n";
