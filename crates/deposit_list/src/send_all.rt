//! All deposits of a list, window by window.

ghost use Rattle.std.specs.Prelude.{◌≡◌, OnOk, OnErr};
ghost use Rattle.std.specs.Io.KnownBytes.{Appends};
ghost use Rattle.cell_device.specs.Calls.{HasCause};
ghost use Rattle.catch_up.specs.inner.Progress.{AppendsPart};
ghost use Rattle.deposit_list.specs.Windows.{window_size};
ghost use Rattle.deposit_list.specs.Reports.{reached_in, entry_lines, AreSent};
ghost use Rattle.deposit_list.specs.inner.Progress.{AreReported};
ghost use Rattle.catch_up.specs.declared.said_answers.AskFault.TheVariants.{Output};

use crate::aim::Aim;
use crate::deposit::Deposit;
use crate::entry::Entry;
use crate::entry_text::entry_line;
use crate::rounds::ask_window;
use crate::watch::Watch;
use catch_up::{AskFault, Target, Timer, say, write_count};
use counted_writes::{CountedWrite, write_output};
use fed_types::SiteNo;
use outcomes::ProgramFault;
use std::alloc::Global;
use udp_site::Port;

/// How many deposits are under way at most where their bags are to be known.
const WINDOW: usize = 32;

/// Sends these deposits to a site, and writes a line for each, in their order; then of how many of
/// them has come what was to come. The status is 0 where that is all. If it is that the site
/// registers them, each is sent once. If it is that the site knows their bags, they are sent in
/// windows of 32, and the site is asked for those of a window until it knows all of them, or so
/// many seconds have passed since the window began. Where memory runs out, the line `memory`
/// follows what was written, and the status is 1.
pub fn send_all_on<P: Port, T: Timer, V: Watch, W: CountedWrite>(
    alloc: Global,
    timer: &mut T,
    port: &mut P,
    asked: &Target<'_>,
    aim: Aim,
    deposits: &[Deposit],
    watch: &mut V,
    output: &mut W,
) -> Result<u8, ProgramFault>
    ensures sent { AreSent aim asked.now deposits.now (T.beats timer.old) (T.beats timer.new)
        (P.traffic port.old) (P.traffic port.new) (W.contents output.old)
        (W.contents output.new) result }
    ensures cause { HasCause ProgramFault.Output (W.failures output.old) (W.failures output.new)
        result }
{
    match send_watched(alloc, timer, port, asked, aim, deposits, watch, output) {
        Ok(status) => Ok(status),
        Err(AskFault::Memory) => write_output(output, 1, "memory\n"),
        Err(AskFault::Output) => Err(ProgramFault::Output),
    }
}

// The same, up to a fault, of which it writes nothing. Then the watch is told that it is over.
fn send_watched<P: Port, T: Timer, V: Watch, W: CountedWrite>(
    alloc: Global,
    timer: &mut T,
    port: &mut P,
    asked: &Target<'_>,
    aim: Aim,
    deposits: &[Deposit],
    watch: &mut V,
    output: &mut W,
) -> Result<u8, AskFault>
    ensures sent { AreReported aim asked.now deposits.now (T.beats timer.old) (T.beats timer.new)
        (P.traffic port.old) (P.traffic port.new) (W.contents output.old)
        (W.contents output.new) result }
    ensures cause { HasCause Output (W.failures output.old) (W.failures output.new) result }
{
    let answer = send_windows(alloc, timer, port, asked, aim, deposits, watch, output);
    watch.end();
    answer
}

fn send_windows<P: Port, T: Timer, V: Watch, W: CountedWrite>(
    alloc: Global,
    timer: &mut T,
    port: &mut P,
    asked: &Target<'_>,
    aim: Aim,
    deposits: &[Deposit],
    watch: &mut V,
    output: &mut W,
) -> Result<u8, AskFault>
    ensures sent { AreReported aim asked.now deposits.now (T.beats timer.old) (T.beats timer.new)
        (P.traffic port.old) (P.traffic port.new) (W.contents output.old)
        (W.contents output.new) result }
    ensures cause { HasCause Output (W.failures output.old) (W.failures output.new) result }
{
    let size = window_size(aim);
    let mut rest = deposits;
    let mut reached = 0usize;
    while !rest.is_empty() {
        let (window, after) = rest.split_at(size.min(rest.len()));
        let entries = ask_window(alloc, timer, port, asked, aim, window)?;
        write_lines(alloc, asked.to, entries.as_slice(), output)?;
        reached += reached_in(aim, entries.as_slice());
        rest = after;
        watch.done(deposits.len() - rest.len(), deposits.len());
    }
    write_count(alloc, reached, deposits.len(), output)
}

// How many deposits are under way at most.
fn window_size(aim: Aim) -> usize
    ensures { result ≡ window_size aim }
{
    match aim {
        Aim::Registered => 1,
        Aim::Known(_) => WINDOW,
    }
}

// Of how many of these has come what was to come.
fn reached_in(aim: Aim, entries: &[Entry<'_>]) -> usize
    ensures { result ≡ reached_in aim entries.now }
{
    let mut reached = 0usize;
    for entry in entries {
        if entry.standing.reaches(aim) {
            reached += 1;
        }
    }
    reached
}

fn write_lines<W: CountedWrite>(
    alloc: Global,
    to: SiteNo,
    entries: &[Entry<'_>],
    output: &mut W,
) -> Result<(), AskFault>
    ensures ok { OnOk result (Appends (W.contents output.old) (W.contents output.new)
        (entry_lines to entries.now)) }
    ensures err { OnErr result (AppendsPart (W.contents output.old) (W.contents output.new)
        (entry_lines to entries.now)) }
    ensures cause { HasCause Output (W.failures output.old) (W.failures output.new) result }
{
    for entry in entries {
        let line = entry_line(alloc, to, entry)?;
        say(output, line.as_str())?;
    }
    Ok(())
}
