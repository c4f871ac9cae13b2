//! What a batch takes in.

ghost use Rattle.std.specs.Prelude.{◌≡◌, ◌≤◌, ◌+◌, length, min, None, vec_capacity};
ghost use Rattle.std.specs.Prelude.{OnOk, IfOk, IfErr};
ghost use Rattle.std.specs.Option.{option_to_list};
ghost use Rattle.udp_site.specs.Failures.{OnlyByFailing};
ghost use Rattle.udp_site.specs.inner.Batched.{TakesIn, TakesFirst, TakesNone, JoinsMore};
ghost use Rattle.udp_site.specs.inner.Batched.{carried_of};

use crate::fault::ServeFault;
use crate::movement::is_deposit;
use crate::port::Port;
use crate::requests::{Asked, asked_by};
use crate::serve_loop::receive;
use crate::turn::Turn;
use bag_folders::Folders;
use std::alloc::{AllocError, Global};

/// The most turns of a batch.
pub(crate) const MOST_TURNS: u32 = 64;

/// How many bytes of bags are read at most while the records of a batch wait for their sync.
const MOST_READ: u64 = 1_048_576;

/// Takes in the turns of a batch, at least one and no more than are left. What was carried is the
/// first. A deposit joins others if its bag is small; else it is carried to the next batch, so that
/// nothing waits for a sync while much is read.
pub(crate) fn take_in<P: Port, F: Folders>(
    alloc: Global,
    federation: u64,
    port: &mut P,
    folders: &F,
    carried: &mut Option<Turn>,
    left: u32,
) -> Result<Vec<Turn>, ServeFault>
    requires some { 1 ≤ left }
    ensures taken { IfOk result (λ batch. TakesIn (P.traffic port.old) (P.traffic port.new)
        carried.old carried.new batch.items) }
    ensures none { IfErr result (λ fault. TakesNone (P.traffic port.old) (P.traffic port.new)
        carried.old carried.new fault) }
    // Nothing is taken in beyond what is left.
    ensures count { IfOk result (λ batch. length batch.items
        + length (option_to_list (carried_of carried.new)) ≤ min left 64) }
    // More may join it.
    ensures room { IfOk result (λ batch. min left 64 ≤ vec_capacity batch) }
    ensures port { OnlyByFailing ServeFault.Port (P.failures port.old) (P.failures port.new)
        result }
{
    let most = left.min(MOST_TURNS);
    let mut batch = Vec::with_capacity(alloc, most as usize)?;
    let first = take_first(port, carried)?;
    batch.push_reserved(first);
    *carried = take_more(
        alloc, federation, port, folders, &mut batch, most, MOST_READ,
    );
    Ok(batch)
}

// Takes what was carried, or receives once.
fn take_first<P: Port>(port: &mut P, carried: &mut Option<Turn>) -> Result<Turn, ServeFault>
    ensures first { IfOk result (λ turn. TakesFirst (P.traffic port.old) (P.traffic port.new)
        carried.old turn) }
    ensures none { OnOk result (carried.new ≡ None) }
    ensures refused { IfErr result (λ fault. TakesNone (P.traffic port.old) (P.traffic port.new)
        carried.old carried.new fault) }
    ensures port { OnlyByFailing ServeFault.Port (P.failures port.old) (P.failures port.new)
        result }
{
    match carried.take() {
        Some(turn) => Ok(turn),
        None => receive(port),
    }
}

/// Takes in what is there after the first turns of a batch, up to so many turns in all. Of bags no
/// more than so many bytes are read. The answer is a deposit that came, which begins the next
/// batch.
pub(crate) fn take_more<P: Port, F: Folders>(
    alloc: Global,
    federation: u64,
    port: &mut P,
    folders: &F,
    batch: &mut Vec<Turn>,
    most: u32,
    most_read: u64,
) -> Option<Turn>
    requires first { length batch.old.items ≤ most }
    requires room { most ≤ vec_capacity batch.old }
    ensures joined { JoinsMore (P.traffic port.old) (P.traffic port.new) batch.old.items
        batch.new.items result }
    ensures count { length batch.new.items + length (option_to_list (carried_of result)) ≤ most }
    ensures room { most ≤ vec_capacity batch.new }
    ensures later { P.failures port.old ≤ P.failures port.new }
{
    let mut left = most_read;
    'datagrams: for _ in batch.len()..most as usize {
        let turn = port.try_receive()?;
        match bytes_to_read(alloc, federation, folders, &turn, left) {
            Some(bytes) => left = left.saturating_sub(bytes),
            None => {
                port.carries_last();
                return Some(turn);
            }
        }
        batch.push_reserved(turn);
    }
    None
}

// How many bytes are read for a turn, if they are few: none, but those of the bag that a deposit
// names.
fn bytes_to_read<F: Folders>(
    alloc: Global,
    federation: u64,
    folders: &F,
    turn: &Turn,
    most: u64,
) -> Option<u64> {
    let Turn::Got(_, bytes) = turn else {
        return Some(0);
    };
    if !is_deposit(bytes) {
        return Some(0);
    }
    if most == 0 {
        return None;
    }
    match asked_by(alloc, federation, bytes) {
        Ok(Asked::Deposit(_, path)) => folders.weighs(path.as_str(), most),
        Ok(_) => Some(0),
        Err(AllocError) => None,
    }
}
