//! Sites that are asked how they stand.

ghost use Rattle.std.specs.Prelude.{◌≡◌, ℕ, [], ◌∷◌, OnOk};
ghost use Rattle.udp_site.specs.Traffic.{Handed, Grows};
ghost use Rattle.udp_site.specs.Status.{status_question};
ghost use Rattle.standings.specs.Rounds.{is_open, asked};
ghost use Rattle.standings.specs.inner.{HasRound, HaveAsked};

use crate::listening::listen;
use crate::polled::{Heard, Polled};
use crate::stopwatch::Stopwatch;
use std::alloc::{AllocError, Global};
use std::time::Clock;
use udp_site::{Port, PortFault, status_question};

/// Asks the sites in three rounds, in each those that haven't answered yet. A round ends when all
/// have, or nothing has come for as long as the port waits.
pub(crate) fn ask_all<P: Port, C: Clock>(
    alloc: Global,
    watch: &Stopwatch<'_, C>,
    port: &mut P,
    federation: u64,
    sites: &mut [Polled],
) -> Result<(), AllocError>
    ensures { OnOk result (HaveAsked federation (P.traffic port.old) (P.traffic port.new)
        sites.old sites.new) }
{
    ask_round(alloc, watch, port, federation, sites)?;
    ask_round(alloc, watch, port, federation, sites)?;
    ask_round(alloc, watch, port, federation, sites)
}

fn ask_round<P: Port, C: Clock>(
    alloc: Global,
    watch: &Stopwatch<'_, C>,
    port: &mut P,
    federation: u64,
    sites: &mut [Polled],
) -> Result<(), AllocError>
    ensures { OnOk result (HasRound federation (P.traffic port.old) (P.traffic port.new)
        sites.old sites.new) }
{
    hand_all(alloc, port, federation, sites)?;
    listen(alloc, watch, port, federation, sites)
}

// Hands out the question to each site that hasn't answered.
fn hand_all<P: Port>(
    alloc: Global,
    port: &mut P,
    federation: u64,
    sites: &[Polled],
) -> Result<(), AllocError>
    ensures { OnOk result
        (Grows (P.traffic port.old) (P.traffic port.new) (asked federation sites.now)) }
{
    let question = status_question(alloc, federation)?;
    for polled in sites {
        hand_if_open(port, polled, question.as_slice())?;
    }
    Ok(())
}

// Hands out the question to this site, if it hasn't answered.
fn hand_if_open<P: Port>(port: &mut P, polled: &Polled, question: &[u8]) -> Result<(), AllocError>
    ensures { OnOk result ((federation : ℕ) → question.now ≡ status_question federation
        → Grows (P.traffic port.old) (P.traffic port.new)
        (asked federation (polled.now ∷ []))) }
{
    if !is_open(polled.heard) {
        return Ok(());
    }
    hand(port, polled, question)
}

// Hands out the question to this site. One that the device loses was handed out as well.
fn hand<P: Port>(port: &mut P, polled: &Polled, question: &[u8]) -> Result<(), AllocError>
    ensures { OnOk result (Grows (P.traffic port.old) (P.traffic port.new)
        (Handed (polled.now.address, question.now) ∷ [])) }
{
    match port.send(polled.address, question) {
        Ok(()) => Ok(()),
        Err(PortFault::Device) => Ok(()),
        Err(PortFault::Memory) => Err(AllocError),
    }
}

/// Whether a site hasn't answered yet.
pub(crate) fn is_open(heard: Option<Heard>) -> bool
    ensures { result ≡ is_open heard }
{
    heard.is_none()
}
