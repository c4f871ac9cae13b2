//! A window of deposits: they are sent in turn, and asked for until the site knows their bags.

ghost use Rattle.std.specs.Prelude.{◌≡◌, IfOk, [], ◌∷◌, ℕ, Option};
ghost use Rattle.catch_up.specs.Times.{Read, Beats};
ghost use Rattle.deposit_list.specs.Windows.{AreFresh, path_to_send, deadline_by, are_settled};
ghost use Rattle.deposit_list.specs.inner.Progress.{IsStepped, IsAsked, IsNext, AreAsked};
ghost use Rattle.deposit_list.specs.inner.Progress.{IsWindowAsked};

use crate::aim::Aim;
use crate::deposit::Deposit;
use crate::entry::Entry;
use crate::standing::Standing;
use catch_up::{Target, Timer, waits_for_round};
use dgram::FolderPath;
use site_client::{Request, ask_about};
use std::alloc::{AllocError, Global};
use udp_site::Port;

/// Sends these deposits in turn. If their bags are to be known, the site is asked again and again
/// for those that it doesn't know, until the time is over. Between two rounds of questions there
/// are the pauses of `catch-up`.
pub(crate) fn ask_window<'a, P: Port, T: Timer>(
    alloc: Global,
    timer: &mut T,
    port: &mut P,
    asked: &Target<'_>,
    aim: Aim,
    window: &'a [Deposit],
) -> Result<Vec<Entry<'a>>, AllocError>
    ensures { IsWindowAsked aim asked.now window.now (T.beats timer.old) (T.beats timer.new)
        (P.traffic port.old) (P.traffic port.new) result }
{
    let mut entries = fresh(alloc, window)?;
    match aim {
        Aim::Registered => {
            ask_round(alloc, port, &asked.at(0), entries.as_mut_slice())?;
            Ok(entries)
        }
        Aim::Known(seconds) => {
            let deadline = deadline_after(timer, seconds);
            ask_rounds(alloc, timer, port, asked, deadline, entries.as_mut_slice())?;
            Ok(entries)
        }
    }
}

// These deposits, of which none was sent.
fn fresh<'a>(alloc: Global, window: &'a [Deposit]) -> Result<Vec<Entry<'a>>, AllocError>
    ensures { IfOk result (λ entries. AreFresh window.now entries.items) }
{
    let mut entries = Vec::new(alloc);
    for deposit in window {
        entries.push(Entry {
            deposit,
            standing: Standing::Unsent,
        })?;
    }
    Ok(entries)
}

// When so many seconds will have passed; at once where the time can't be read.
fn deadline_after<T: Timer>(timer: &mut T, seconds: u32) -> u64
    ensures { (time : Option ℕ)
        × Beats (T.beats timer.old) (T.beats timer.new) (Read time ∷ [])
        × (result ≡ deadline_by seconds time) }
{
    match timer.seconds() {
        Some(passed) => passed.saturating_add(u64::from(seconds)),
        None => 0,
    }
}

// Asks in rounds, until nothing is left or the time is over.
fn ask_rounds<P: Port, T: Timer>(
    alloc: Global,
    timer: &mut T,
    port: &mut P,
    asked: &Target<'_>,
    deadline: u64,
    entries: &mut [Entry<'_>],
) -> Result<(), AllocError>
    ensures { AreAsked deadline asked.now entries.old entries.new (T.beats timer.old)
        (T.beats timer.new) (P.traffic port.old) (P.traffic port.new) result }
{
    for rounds in 0..u32::MAX {
        if !awaits_round(timer, entries, deadline, rounds) {
            return Ok(());
        }
        ask_round(alloc, port, &asked.at(rounds), entries)?;
    }
    Ok(())
}

// Whether there is another round after so many. It waits for any but the first.
fn awaits_round<T: Timer>(timer: &mut T, entries: &[Entry<'_>], deadline: u64, rounds: u32) -> bool
    ensures { IsNext deadline rounds entries.now (T.beats timer.old) (T.beats timer.new) result }
{
    if rounds == 0 {
        return true;
    }
    if are_settled(entries) {
        return false;
    }
    waits_for_round(timer, deadline, rounds - 1)
}

// Whether nothing else is to be waited for.
fn are_settled(entries: &[Entry<'_>]) -> bool
    ensures { result ≡ are_settled entries.now }
{
    entries.iter().all(|entry| entry.standing.is_settled())
}

// Asks once for each of which something is to be waited for.
fn ask_round<P: Port>(
    alloc: Global,
    port: &mut P,
    asked: &Target<'_>,
    entries: &mut [Entry<'_>],
) -> Result<(), AllocError>
    ensures { IsAsked asked.now entries.old entries.new (P.traffic port.old)
        (P.traffic port.new) result }
{
    for entry in entries.iter_mut() {
        ask_entry(alloc, port, asked, entry)?;
    }
    Ok(())
}

// The same of one.
fn ask_entry<P: Port>(
    alloc: Global,
    port: &mut P,
    asked: &Target<'_>,
    entry: &mut Entry<'_>,
) -> Result<(), AllocError>
    ensures { IsStepped asked.now entry.old entry.new (P.traffic port.old)
        (P.traffic port.new) result }
{
    if entry.standing.is_settled() {
        return Ok(());
    }
    let request = Request {
        federation: asked.federation,
        to: asked.to,
        target: asked.target,
        slot: &entry.deposit.slot,
        addresses: asked.addresses,
        asked: asked.round,
    };
    let path = path_to_send(alloc, entry)?;
    let reply = ask_about(alloc, port, &request, path)?;
    entry.standing = entry.standing.after(reply);
    Ok(())
}

// The folder's path, if it has to be sent.
fn path_to_send(alloc: Global, entry: &Entry<'_>) -> Result<Option<FolderPath>, AllocError>
    ensures { IfOk result (λ path. path ≡ path_to_send entry.now) }
{
    match entry.standing {
        Standing::Unsent => Ok(Some(copied(alloc, &entry.deposit.path)?)),
        _ => Ok(None),
    }
}

fn copied(alloc: Global, path: &FolderPath) -> Result<FolderPath, AllocError>
    ensures { IfOk result (λ copy. copy ≡ path.now) }
{
    let text = String::from_str(alloc, path.as_str())?;
    FolderPath::new(text).ok_or(AllocError)
}
