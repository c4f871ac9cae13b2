//! A site that serves, and what it serves by.

use crate::idle_turns::IdleProgress;
use crate::port::Port;
use addresses::Address;
use bag_folders::Folders;
use cell_device::Cell;
use lines::Line;
use site::Site;
use std::alloc::Global;

/// A site that serves: what is lent to it, each for a lifetime of its own, and what it notes.
///
/// The lines are lent too: of a value that owns memory a caller isn't told what it gives back.
#[derive(Drop)]
pub(crate) struct Server<'s, 'p, 'f, 'b, 'l, C: Cell, P: Port, F: Folders> {
    pub(crate) alloc: Global,
    pub(crate) site: &'s mut Site<C>,
    pub(crate) port: &'p mut P,
    pub(crate) folders: &'f mut F,
    /// The sites' addresses, that of site 1 first.
    pub(crate) addresses: &'b [Address],
    pub(crate) progress: IdleProgress,
    /// The lines to write.
    pub(crate) lines: &'l mut Vec<Line>,
}
