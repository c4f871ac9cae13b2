//! A port that holds what is handed to it.

ghost use Rattle.std.specs.Prelude.{◌≡◌, ◌≤◌, ◌∷◌, []};
ghost use Rattle.std.specs.List.{flat_map};
ghost use Rattle.udp_site.specs.inner.HeldPosts.{posts_held, post_of};
ghost use Rattle.udp_site.specs.inner.Outcomes.{Hands};

use crate::line_marks::LineMarks;
use crate::port::Port;
use crate::port_fault::PortFault;
use crate::sends::send;
use crate::turn::Turn;
use addresses::Address;
use site::Synced;
use std::alloc::{AllocError, Global};

/// A datagram that is held.
#[derive(Drop)]
struct HeldPost {
    to: Address,
    bytes: Vec<u8>,
}

/// A port that keeps what is handed to it, until the records that it may tell of are synced.
/// Nothing comes here.
#[derive(Drop)]
pub(crate) struct HeldPort {
    alloc: Global,
    posts: Vec<HeldPost>,
}

impl HeldPort {
    /// A port that holds nothing.
    pub(crate) fn new(alloc: Global) -> HeldPort
        ensures { posts_held result ≡ [] }
    {
        HeldPort {
            alloc,
            posts: Vec::new(alloc),
        }
    }

    /// Hands out all that it holds at this port, in order, since the records are synced; and tells
    /// the port which lines are to come, and how many deposits wait for a turn.
    pub(crate) fn release<P: Port>(
        &mut self,
        _synced: Synced,
        port: &mut P,
        marks: &LineMarks,
        untried: u32,
    ) -> Result<(), AllocError>
        ensures hands { Hands (P.traffic port.old) (P.traffic port.new) (posts_held self.old)
            result }
        ensures later { P.failures port.old ≤ P.failures port.new }
        ensures empty { posts_held self.new ≡ [] }
    {
        let handed = send_held(port, &self.posts);
        self.posts.clear();
        port.will_say(marks.after());
        port.awaits_turns(untried);
        handed
    }
}

// Hands out these datagrams, in order.
fn send_held<P: Port>(port: &mut P, posts: &[HeldPost]) -> Result<(), AllocError>
    ensures hands { Hands (P.traffic port.old) (P.traffic port.new)
        (flat_map (λ post. post_of post ∷ []) posts.now) result }
    ensures later { P.failures port.old ≤ P.failures port.new }
{
    for post in posts {
        send(port, post.to, &post.bytes)?;
    }
    Ok(())
}

impl Port for HeldPort {
    ghost use Rattle.std.specs.Prelude.{Some};
    ghost use Rattle.cell_device.specs.Calls.{HasCause};
    ghost use Rattle.udp_site.specs.Traffic.{IsReceived, IsTakenIn, IsHanded, all_handed};
    ghost use Rattle.udp_site.specs.inner.HeldPosts.{posts_held};

    ghost traffic = { λ port. Some (all_handed (posts_held port)) };

    ghost failures = { λ port. 0 };

    // Nobody waits here: the turns of a batch come from the port at which it is released.
    fn receive(&mut self) -> Result<Turn, PortFault> {
        Err(PortFault::Memory)
    }

    fn try_receive(&mut self) -> Option<Turn> {
        None
    }

    fn send(&mut self, to: Address, bytes: &[u8]) -> Result<(), PortFault> {
        let bytes = bytes.to_vec(self.alloc)?;
        self.posts.reserve(1)?;
        self.posts.push_reserved(HeldPost { to, bytes });
        Ok(())
    }
}
