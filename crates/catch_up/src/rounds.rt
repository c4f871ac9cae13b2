//! A site that is asked for each version, until it knows them.

ghost use Rattle.std.specs.Prelude.{◌≡◌, if◌then◌else◌, [], ◌∷◌, OnOk, OnErr};
ghost use Rattle.std.specs.Io.KnownBytes.{Appends};
ghost use Rattle.cell_device.specs.Calls.{HasCause};
ghost use Rattle.fed_types.specs.Bags.{same_bag};
ghost use Rattle.catch_up.specs.Rounds.{bag_by, open_of, in_round, next_round};
ghost use Rattle.catch_up.specs.Reports.{open_lines, IsCaughtUp};
ghost use Rattle.catch_up.specs.inner.Progress.{AppendsPart, IsAskedFor, IsAskedOnce, IsRound};
ghost use Rattle.catch_up.specs.inner.Progress.{AreAsked, AreReported};
ghost use Rattle.catch_up.specs.declared.said_answers.AskFault.TheVariants.{Output};

use crate::next_round::awaits_round;
use crate::progress::{known_line, open_line};
use crate::said_answers::{AskFault, say, write_count};
use crate::timer::Timer;
use addresses::Address;
use counted_writes::{CountedWrite, write_output};
use dgram::QueryAnswer;
use fed_types::{BagId, SiteNo};
use known_bags::KnownBag;
use outcomes::ProgramFault;
use site_client::{Request, ask_for_bag};
use std::alloc::{AllocError, Global};
use udp_site::Port;

/// The site that is asked.
#[derive(Clone, Copy)]
pub struct Target<'a> {
    pub federation: u64,
    pub to: SiteNo,
    /// Its port.
    pub target: Address,
    /// The addresses of all sites, that of site 1 first.
    pub addresses: &'a [Address],
    /// In how many rounds it was asked before.
    pub round: u32,
}

impl<'a> Target<'a> {
    /// The same in this round.
    pub fn at(&self, round: u32) -> Target<'a>
        ensures { result ≡ in_round self.now round }
    {
        Target {
            federation: self.federation,
            to: self.to,
            target: self.target,
            addresses: self.addresses,
            round,
        }
    }

    // The next round.
    fn next(&self) -> Target<'a>
        ensures { result ≡ next_round self.now }
    {
        self.at(self.round.saturating_add(1))
    }
}

/// Asks for each version, again and again until the site knows all or so many seconds have passed,
/// and writes a line for each as soon as the site knows it; then one for each that is left, and how
/// many of how many it knows as the sources do. Between two rounds there is a pause: 2 ms, then
/// twice as long each time, and a second at most. From the tenth question about a version on a
/// site is asked to recover it after each: first the same site, and then the others in turn. The
/// status is 0 where the site knows all. Where memory runs out, the line `memory` follows what was
/// written, and the status is 1.
pub fn catch_up_on<P: Port, T: Timer, W: CountedWrite>(
    alloc: Global,
    timer: &mut T,
    port: &mut P,
    asked: &Target<'_>,
    versions: &mut [KnownBag],
    seconds: u32,
    output: &mut W,
) -> Result<u8, ProgramFault>
    ensures told { IsCaughtUp seconds asked.now versions.old (T.beats timer.old)
        (T.beats timer.new) (P.traffic port.old) (P.traffic port.new) (W.contents output.old)
        (W.contents output.new) result }
    ensures cause { HasCause ProgramFault.Output (W.failures output.old) (W.failures output.new)
        result }
{
    match report_on(alloc, timer, port, asked, versions, seconds, output) {
        Ok(status) => Ok(status),
        Err(AskFault::Memory) => write_output(output, 1, "memory\n"),
        Err(AskFault::Output) => Err(ProgramFault::Output),
    }
}

// Asks, and writes the lines.
fn report_on<P: Port, T: Timer, W: CountedWrite>(
    alloc: Global,
    timer: &mut T,
    port: &mut P,
    asked: &Target<'_>,
    versions: &mut [KnownBag],
    seconds: u32,
    output: &mut W,
) -> Result<u8, AskFault>
    ensures asked { AreReported seconds asked.now versions.old (T.beats timer.old)
        (T.beats timer.new) (P.traffic port.old) (P.traffic port.new) (W.contents output.old)
        (W.contents output.new) result }
    ensures cause { HasCause Output (W.failures output.old) (W.failures output.new) result }
{
    let same = ask_rounds(alloc, timer, port, asked, versions, seconds, output)?;
    write_open(alloc, versions, output)?;
    write_count(alloc, same, versions.len(), output)
}

// Asks in rounds, and gives how many the site knows as the sources do.
fn ask_rounds<P: Port, T: Timer, W: CountedWrite>(
    alloc: Global,
    timer: &mut T,
    port: &mut P,
    asked: &Target<'_>,
    versions: &mut [KnownBag],
    seconds: u32,
    output: &mut W,
) -> Result<usize, AskFault>
    ensures asked { AreAsked seconds asked.now versions.old versions.new (T.beats timer.old)
        (T.beats timer.new) (P.traffic port.old) (P.traffic port.new) (W.contents output.old)
        (W.contents output.new) result }
    ensures cause { HasCause Output (W.failures output.old) (W.failures output.new) result }
{
    let mut same = 0usize;
    let mut round = asked.at(asked.round);
    for count in 0..u32::MAX {
        if !awaits_round(timer, versions, seconds, count) {
            return Ok(same);
        }
        same += ask_round(alloc, port, &round, versions, output)?;
        round = round.next();
    }
    Ok(same)
}

// Asks once for each that isn't known, and gives how many the site now knows as the sources do.
fn ask_round<P: Port, W: CountedWrite>(
    alloc: Global,
    port: &mut P,
    asked: &Target<'_>,
    versions: &mut [KnownBag],
    output: &mut W,
) -> Result<usize, AskFault>
    ensures asked { IsRound asked.now versions.old versions.new (P.traffic port.old)
        (P.traffic port.new) (W.contents output.old) (W.contents output.new) result }
    ensures cause { HasCause Output (W.failures output.old) (W.failures output.new) result }
{
    let mut same = 0usize;
    for version in versions.iter_mut() {
        same += ask_unless_known(alloc, port, asked, version, output)?;
    }
    Ok(same)
}

// The same of one version.
fn ask_unless_known<P: Port, W: CountedWrite>(
    alloc: Global,
    port: &mut P,
    asked: &Target<'_>,
    version: &mut KnownBag,
    output: &mut W,
) -> Result<usize, AskFault>
    ensures asked { IsRound asked.now (version.old ∷ []) (version.new ∷ []) (P.traffic port.old)
        (P.traffic port.new) (W.contents output.old) (W.contents output.new) result }
    ensures cause { HasCause Output (W.failures output.old) (W.failures output.new) result }
{
    if version.is_found {
        return Ok(0);
    }
    ask_version(alloc, port, asked, version, output)
}

// Asks for a version that isn't known, and writes its line if it is now. Gives 1 where it is known
// as its source knows it.
fn ask_version<P: Port, W: CountedWrite>(
    alloc: Global,
    port: &mut P,
    asked: &Target<'_>,
    version: &mut KnownBag,
    output: &mut W,
) -> Result<usize, AskFault>
    ensures asked { IsAskedOnce asked.now version.old version.new (P.traffic port.old)
        (P.traffic port.new) (W.contents output.old) (W.contents output.new) result }
    ensures cause { HasCause Output (W.failures output.old) (W.failures output.new) result }
{
    let Some(bag) = known_bag(alloc, port, asked, version)? else {
        return Ok(0);
    };
    version.is_found = true;
    let line = known_line(alloc, &version.slot, bag, version.bag)?;
    say(output, line.as_str())?;
    Ok(one_if_same(bag, version.bag))
}

fn one_if_same(bag: BagId, wanted: BagId) -> usize
    ensures { result ≡ (if same_bag bag wanted then 1 else 0) }
{
    if bag == wanted { 1 } else { 0 }
}

// The bag that the site knows for the version, if it answers that.
fn known_bag<P: Port>(
    alloc: Global,
    port: &mut P,
    asked: &Target<'_>,
    version: &KnownBag,
) -> Result<Option<BagId>, AllocError>
    ensures { IsAskedFor asked.now version.now.slot (P.traffic port.old) (P.traffic port.new)
        result }
{
    let request = Request {
        federation: asked.federation,
        to: asked.to,
        target: asked.target,
        slot: &version.slot,
        addresses: asked.addresses,
        asked: asked.round,
    };
    match ask_for_bag(alloc, port, &request)? {
        Some(answer) => Ok(bag_by(answer)),
        None => Ok(None),
    }
}

fn bag_by(answer: QueryAnswer) -> Option<BagId>
    ensures { result ≡ bag_by answer }
{
    match answer {
        QueryAnswer::Known(bag) => Some(bag),
        _ => None,
    }
}

// A line for each version that is left.
fn write_open<W: CountedWrite>(
    alloc: Global,
    versions: &[KnownBag],
    output: &mut W,
) -> Result<(), AskFault>
    ensures ok { OnOk result (Appends (W.contents output.old) (W.contents output.new)
        (open_lines (open_of versions.now))) }
    ensures err { OnErr result (AppendsPart (W.contents output.old) (W.contents output.new)
        (open_lines (open_of versions.now))) }
    ensures cause { HasCause Output (W.failures output.old) (W.failures output.new) result }
{
    for version in versions {
        write_unless_known(alloc, version, output)?;
    }
    Ok(())
}

// The same of one version.
fn write_unless_known<W: CountedWrite>(
    alloc: Global,
    known: &KnownBag,
    output: &mut W,
) -> Result<(), AskFault>
    ensures ok { OnOk result (Appends (W.contents output.old) (W.contents output.new)
        (open_lines (open_of (known.now ∷ [])))) }
    ensures err { OnErr result (AppendsPart (W.contents output.old) (W.contents output.new)
        (open_lines (open_of (known.now ∷ [])))) }
    ensures cause { HasCause Output (W.failures output.old) (W.failures output.new) result }
{
    if known.is_found {
        return Ok(());
    }
    let line = open_line(alloc, &known.slot)?;
    say(output, line.as_str())
}
