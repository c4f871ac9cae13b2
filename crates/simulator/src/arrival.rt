//! What arrives at a site: a datagram that was sent, by its number, or bytes that no site sent.

ghost use Rattle.std.specs.Prelude.{ℕ, ◌≡◌, ◌<◌, ◌+◌, length, is_some, slice_get, Some, OnOk, IfOk};
ghost use Rattle.std.specs.Option.{option_copied};
ghost use Rattle.dgram.specs.Decoded.{message_of};
ghost use Rattle.site.specs.Datagrams.{datagram};
ghost use Rattle.site.specs.Effects.{Send};
ghost use Rattle.world_law.specs.Networks.{Deliver, datagram_at};
ghost use Rattle.world_law.specs.Worlds.{World, on_deliver, on_raw, event_at, pumped};
ghost use Rattle.simulator.specs.Federations.{Represents};
ghost use Rattle.simulator.specs.Sent.{IsArrival, arriving, sent_by};

use crate::federation::Federation;
use bag_tree::Facts;
use dgram::{DgramFault, decode};
use fed_types::Slot;
use lines::{Line, Reason};
use schedule::Fate;
use sim_stations::SiteCall;
use std::alloc::{AllocError, Global};

/// A datagram that arrives: the site that it goes to, and its bytes.
#[derive(Drop)]
pub(crate) struct Arrival {
    pub(crate) to: u8,
    pub(crate) bytes: Vec<u8>,
}

impl Federation {
    /// Names the number, and the datagram of this number, if it was sent, arrives.
    pub(crate) fn deliver(
        &mut self,
        number: usize,
        datagram: usize,
        fate: Fate,
    ) -> Result<(), AllocError>
        ensures { OnOk result ((w : World) → Represents self.old w
            → Represents self.new (on_deliver w number datagram fate)) }
    {
        self.sent.name(datagram)?;
        match self.sent_as(datagram)? {
            Some(Arrival { to, bytes }) => self.arrive(number, to, &bytes, fate),
            None => self.skip(number, Reason::Datagram),
        }
    }

    /// `turns` turns. Each delivers the datagram with the least number that nothing has named. When
    /// every number is named the pump ends.
    pub(crate) fn pump(&mut self, number: usize, turns: u32) -> Result<(), AllocError>
        ensures { OnOk result ((w : World) → Represents self.old w
            → Represents self.new (pumped w number turns)) }
    {
        'turns: for _ in 0..turns {
            let Some(datagram) = self.sent.next_unnamed() else {
                return Ok(());
            };
            self.deliver(number, datagram, Fate::Whole)?;
        }
        Ok(())
    }

    /// Bytes that no site sent arrive at a member, unless they are a message.
    pub(crate) fn raw(
        &mut self,
        number: usize,
        place: usize,
        bytes: &[u8],
    ) -> Result<(), AllocError>
        requires { place < length self.old.stations.items }
        ensures { OnOk result ((w : World) → Represents self.old w
            → Represents self.new (on_raw w number (place + 1)
            (message_of w.members.federation bytes.now))) }
    {
        if is_message(self.alloc, self.members.federation(), bytes)? {
            return self.skip(number, Reason::Formed);
        }
        let (_slot, _facts): (Option<&Slot>, Option<&Facts>) = (None, None);
        self.call(number, place, &SiteCall::Arrive(bytes), Fate::Whole)
    }

    // The datagram of this number, from its line.
    fn sent_as(&self, datagram: usize) -> Result<Option<Arrival>, AllocError>
        ensures { IfOk result (λ arrival. (w : World) → Represents self.now w
            → IsArrival w.members.federation arrival (datagram_at datagram w.network.sent)) }
    {
        match self.sent.get(datagram) {
            Some(place) => arrival_at(self.alloc, &self.lines, *place),
            None => Ok(None),
        }
    }

    // A datagram arrives at a site. A datagram to a site that is no member would reach nobody.
    fn arrive(&mut self, number: usize, to: u8, bytes: &[u8], fate: Fate) -> Result<(), AllocError>
        ensures { OnOk result ((w : World) (k : ℕ) (d : Send) → Represents self.old w
            → datagram_at k w.network.sent ≡ Some d
            → (to, bytes.now) ≡ datagram w.members.federation d
            → Represents self.new (event_at w number d.to (Deliver k fate))) }
    {
        match self.place_of(to) {
            Some(place) => {
                // The checker of borrows has to know each type that a call may hold.
                let (_slot, _facts): (Option<&Slot>, Option<&Facts>) = (None, None);
                self.call(number, place, &SiteCall::Arrive(bytes), fate)
            }
            None => Ok(()),
        }
    }
}

// What arrives is what the line at a place says was sent. A datagram is kept once, in that line.
fn arrival_at(alloc: Global, lines: &[Line], place: usize) -> Result<Option<Arrival>, AllocError>
    ensures { IfOk result (λ arrival. arriving arrival ≡ sent_by (slice_get lines.now place)) }
{
    match line_at(lines, place) {
        Some(line) => arrival_of(alloc, line),
        None => Ok(None),
    }
}

fn line_at(lines: &[Line], place: usize) -> Option<&Line>
    ensures { option_copied result ≡ slice_get lines.now place }
{
    lines.get(place)
}

fn arrival_of(alloc: Global, line: &Line) -> Result<Option<Arrival>, AllocError>
    ensures { IfOk result (λ arrival. arriving arrival ≡ sent_by (Some line.now)) }
{
    match line {
        Line::Sent { to, bytes, .. } => Ok(Some(Arrival {
            to: *to,
            bytes: bytes.as_slice().to_vec(alloc)?,
        })),
        _ => Ok(None),
    }
}

// Whether the bytes are a message of the federation.
fn is_message(alloc: Global, federation: u64, bytes: &[u8]) -> Result<bool, AllocError>
    ensures { IfOk result (λ is. is ≡ is_some (message_of federation bytes.now)) }
{
    match decode(alloc, federation, bytes) {
        Ok(_) => Ok(true),
        Err(DgramFault::NotOurs | DgramFault::Malformed) => Ok(false),
        Err(DgramFault::Memory) => Err(AllocError),
    }
}
