//! What sites answer.

ghost use Rattle.std.specs.Prelude.{◌≡◌, map, OnOk};
ghost use Rattle.std.specs.Option.{option_map};
ghost use Rattle.standings.specs.Rounds.{hears};
ghost use Rattle.standings.specs.inner.{IsNext, HaveListened, datagram_taken};
ghost use Rattle.udp_site.specs.Traffic.{taken};

use crate::answer::standing_in;
use crate::asking::is_open;
use crate::polled::{Heard, Polled};
use crate::stopwatch::Stopwatch;
use addresses::Address;
use std::alloc::{AllocError, Global};
use std::time::Clock;
use udp_site::{Port, Turn};

/// How many datagrams are taken in at most, of which each may be an answer: so strangers who send
/// without end cost answers, not time without end.
const MOST_DATAGRAMS: u32 = 1024;

/// Listens until all sites have answered, or nothing has come for as long as the port waits.
pub(crate) fn listen<P: Port, C: Clock>(
    alloc: Global,
    watch: &Stopwatch<'_, C>,
    port: &mut P,
    federation: u64,
    sites: &mut [Polled],
) -> Result<(), AllocError>
    ensures { OnOk result (HaveListened federation (P.traffic port.old) (P.traffic port.new)
        sites.old sites.new) }
{
    for _ in 0..MOST_DATAGRAMS {
        if have_all_answered(sites) {
            return Ok(());
        }
        let Some(datagram) = next_datagram(port) else {
            return Ok(());
        };
        let (from, bytes) = &datagram;
        hear(
            alloc,
            federation,
            sites,
            *from,
            bytes.as_slice(),
            watch.millis(),
        )?;
    }
    Ok(())
}

// The next datagram, and the address that it came from, if one comes before the turn is over.
fn next_datagram<P: Port>(port: &mut P) -> Option<(Address, Vec<u8>)>
    ensures { IsNext (P.traffic port.old) (P.traffic port.new)
        (option_map (λ datagram. (datagram.0, datagram.1.items)) result) }
{
    match port.receive() {
        Ok(turn) => datagram_in(turn),
        Err(_) => None,
    }
}

// The datagram that a turn has brought, if it has brought one.
fn datagram_in(turn: Turn) -> Option<(Address, Vec<u8>)>
    ensures { option_map (λ datagram. (datagram.0, datagram.1.items)) result
        ≡ datagram_taken (taken turn) }
{
    match turn {
        Turn::Got(from, bytes) => Some((from, bytes)),
        Turn::Idle => None,
    }
}

fn have_all_answered(sites: &[Polled]) -> bool {
    sites.iter().all(|polled| polled.heard.is_some())
}

// What came from this address after so many milliseconds may be the answer of a site.
fn hear(
    alloc: Global,
    federation: u64,
    sites: &mut [Polled],
    from: Address,
    bytes: &[u8],
    millis: u64,
) -> Result<(), AllocError>
    ensures { OnOk result
        (sites.new ≡ map (hears federation from bytes.now millis) sites.old) }
{
    for polled in sites.iter_mut() {
        hear_one(alloc, federation, polled, from, bytes, millis)?;
    }
    Ok(())
}

// The same of one site.
fn hear_one(
    alloc: Global,
    federation: u64,
    polled: &mut Polled,
    from: Address,
    bytes: &[u8],
    millis: u64,
) -> Result<(), AllocError>
    ensures { OnOk result (polled.new ≡ hears federation from bytes.now millis polled.old) }
{
    if !is_open(polled.heard) || polled.address != from {
        return Ok(());
    }
    if let Some(standing) = standing_in(alloc, federation, polled.site, bytes)? {
        polled.heard = Some(Heard { millis, standing });
    }
    Ok(())
}
