//! The lines of an event.

ghost use Rattle.std.specs.Prelude.{◌≡◌, ◌++◌, List, OnOk};
ghost use Rattle.lines.specs.Named.{SeenBag, line_of, tree_of};
ghost use Rattle.world_law.specs.Worlds.{World, own_lines, with_line, skips};
ghost use Rattle.sim_stations.specs.Firsts as firsts;
ghost use Rattle.simulator.specs.Federations.{Represents};

use crate::federation::Federation;
use fed_types::BagId;
use lines::{Line, Notice, Reason, line_of};
use sim_stations::SeenBags;
use std::alloc::AllocError;

impl Federation {
    /// Adds a line.
    pub(crate) fn say(&mut self, line: Line) -> Result<(), AllocError>
        ensures { OnOk result ((w : World) → Represents self.old w
            → Represents self.new (with_line w line)) }
    {
        self.lines.push(line)?;
        Ok(())
    }

    /// Says why the command on the line of this number can't apply.
    pub(crate) fn skip(&mut self, number: usize, reason: Reason) -> Result<(), AllocError>
        ensures { OnOk result ((w : World) → Represents self.old w
            → Represents self.new (skips w number reason)) }
    {
        self.say(Line::Skip {
            line: number,
            reason,
        })
    }
}

/// Adds the line of a notice, if there is one.
pub(crate) fn tell(
    lines: &mut Vec<Line>,
    seen: &SeenBags,
    notice: Option<Notice>,
) -> Result<(), AllocError>
    ensures { OnOk result ((bags : List SeenBag) → firsts.Represents seen.now bags
        → lines.new.items ≡ lines.old.items ++ own_lines bags notice) }
{
    match notice {
        Some(notice) => lines.push(line_said(seen, notice))?,
        None => {}
    }
    Ok(())
}

/// The line of a notice: its bag is named by the tree in which it was seen first.
pub(crate) fn line_said(seen: &SeenBags, notice: Notice) -> Line
    ensures { (bags : List SeenBag) → firsts.Represents seen.now bags
        → result ≡ line_of bags notice }
{
    let tree = first_tree(seen, notice.bag());
    line_of(notice, tree)
}

// The number of the tree in which a bag was seen first, or 0 if there is no bag.
fn first_tree(seen: &SeenBags, bag: Option<BagId>) -> u32
    ensures { (bags : List SeenBag) → firsts.Represents seen.now bags → result ≡ tree_of bags bag }
{
    match bag {
        Some(bag) => seen.first_tree(bag),
        None => 0,
    }
}
