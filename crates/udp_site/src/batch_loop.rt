//! A site that serves in batches: one sync for all turns of a batch.

ghost use Rattle.std.specs.Prelude.{◌≡◌, ◌≤◌, ◌+◌, ◌-◌, false, List, Option, [], map, take, length};
ghost use Rattle.std.specs.Prelude.{OnOk, IfOk, vec_capacity};
ghost use Rattle.std.specs.List.{flat_map};
ghost use Rattle.std.specs.Option.{option_to_list};
ghost use Rattle.book.specs.Batches.{HoldsFirst};
ghost use Rattle.proposer.specs.VolatileStates.{VolatileState};
ghost use Rattle.site.specs.Batches.{no_cell};
ghost use Rattle.udp_site.specs.BatchTurns.{Batch, Batching, ServesBatches, begins_with};
ghost use Rattle.udp_site.specs.BatchTurns.{refusals, refused_deposit, refusal_text};
ghost use Rattle.udp_site.specs.Failures.{OnlyByFailing};
ghost use Rattle.udp_site.specs.Served.{outside};
ghost use Rattle.udp_site.specs.Requests.{request_of};
ghost use Rattle.udp_site.specs.Traffic.{From, Move, all_handed, taken};
ghost use Rattle.udp_site.specs.Turns.{Serving, IsServing, begins, turn_of};
ghost use Rattle.udp_site.specs.inner.Batched.{TakesAll, TakesTurns, ServesBatch, JoinsLater};
ghost use Rattle.udp_site.specs.inner.Batched.{GrowsPart, AppendsPart};
ghost use Rattle.udp_site.specs.inner.Batched.{carried_of, refused_turn};
ghost use Rattle.udp_site.specs.inner.HeldPosts.{posts_held};
ghost use Rattle.udp_site.specs.inner.OneBatch.{OneBatch, batching};
ghost use Rattle.udp_site.specs.inner.Outcomes.{Hands};
ghost use Rattle.udp_site.specs.inner.Servers.{Keeps, Stands};
ghost use Rattle.udp_site.specs.inner.SlotRecords.{AreSettled};

use crate::batch_intake::{MOST_TURNS, take_in, take_more};
use crate::counts::tell_counts;
use crate::deposits::reply_to_deposit;
use crate::fault::ServeFault;
use crate::held_port::HeldPort;
use crate::idle_turns::IdleProgress;
use crate::line_marks::LineMarks;
use crate::port::Port;
use crate::replies::deposit_answer;
use crate::requests::{Asked, asked_by};
use crate::said_lines::push_refused;
use crate::serve_loop::write_lines;
use crate::server::Server;
use crate::turn::Turn;
use addresses::Address;
use bag_folders::Folders;
use book::{CommitFault, SyncedCell, Waiting};
use cell_device::Cell;
use lines::Line;
use site::{Site, SiteFault};
use std::alloc::{AllocError, Global};
use std::io::Write;

/// Serves `turns` turns, in batches. A batch receives once, and then takes in what is there, up to
/// 64 turns in all: datagrams that have come, and turns that are idle at once. Each sees the
/// records of those before it, as in `serve`. Where deposits wait then, the turns in which the site
/// proposes them may join the batch. Then the records of all are appended and synced together, in
/// the cell from which the site was parted. Then all their datagrams are handed out, and their
/// lines are written. The deposit of a large bag is the first of its batch, so that nothing waits
/// while its folder is read.
///
/// `Cell`: the sync failed, and the site has to be opened again, from its cell. Nothing of the
/// batch is handed out or written. But a line says that it failed, and so does a reply to the
/// client of its deposit, if its first turn is one.
pub fn serve_batches<C: Cell, P: Port, F: Folders, W: Write>(
    alloc: Global,
    site: &mut Site<Waiting>,
    held: &mut SyncedCell<C>,
    port: &mut P,
    folders: &mut F,
    addresses: &[Address],
    turns: u32,
    output: &mut W,
) -> Result<(), ServeFault>
    requires held { HoldsFirst C.device held.old site.old.book }
    requires waits { site.old.book.needs_opening ≡ false }
    ensures served { (volatile : VolatileState) → IsServing (begins site.old volatile)
        → (end : Batching C) × (whole : List Batch)
        × (end.serving.site ≡ site.new) × (end.held ≡ held.new)
        × ServesBatches C.device (turn_of no_cell addresses.now (F.gives folders.old))
        (outside (P.traffic port.old) (W.contents output.old))
        (outside (P.traffic port.new) (W.contents output.new))
        (begins_with site.old held.old volatile) end turns whole result }
    ensures held { HoldsFirst C.device held.new site.new.book }
    ensures waits { site.new.book.needs_opening ≡ false }
    ensures port { OnlyByFailing ServeFault.Port (P.failures port.old) (P.failures port.new)
        result }
    ensures kept { F.gives folders.new ≡ F.gives folders.old }
{
    site.represents_some();
    let mut posts = HeldPort::new(alloc);
    let mut lines = Vec::new(alloc);
    let mut server = Server {
        alloc,
        site,
        port: &mut posts,
        folders,
        addresses,
        progress: IdleProgress {
            idle: 0,
            tried: 0,
            settled: 0,
        },
        lines: &mut lines,
    };
    let mut carried = None;
    let mut done = 0;
    'batches: for _ in 0..turns {
        if done == turns {
            return Ok(());
        }
        done += server.one_batch(held, port, &mut carried, turns - done, output)?;
    }
    Ok(())
}

impl<F: Folders> Server<'_, '_, '_, '_, '_, Waiting, HeldPort, F> {
    // One batch, of no more turns than are left. The answer is how many they were.
    fn one_batch<C: Cell, P: Port, W: Write>(
        &mut self,
        held: &mut SyncedCell<C>,
        port: &mut P,
        carried: &mut Option<Turn>,
        left: u32,
        output: &mut W,
    ) -> Result<u32, ServeFault>
        requires some { 1 ≤ left }
        requires idle { self.old.progress.idle + left ≤ 4294967295 }
        requires empty { posts_held self.old.port.now ≡ [] }
        requires held { HoldsFirst C.device held.old self.old.site.now.book }
        requires waits { self.old.site.now.book.needs_opening ≡ false }
        requires stands { (s : Serving Waiting) × Stands s self.old.site.now self.old.progress }
        ensures keeps { Keeps (λ port. 0) F.gives self.old self.new }
        ensures serves { (s : Serving Waiting) → Stands s self.old.site.now self.old.progress
            → OneBatch C.device
            (turn_of no_cell self.old.addresses.now (F.gives self.old.folders.now))
            (outside (P.traffic port.old) (W.contents output.old))
            (outside (P.traffic port.new) (W.contents output.new))
            (batching held.old (carried_of carried.old) s) left
            self.new.site.now held.new (carried_of carried.new)
            self.new.progress.idle self.new.progress.tried result }
        ensures some { IfOk result (λ count. 1 ≤ count) }
        ensures count { IfOk result (λ count.
            count + length (option_to_list (carried_of carried.new)) ≤ left) }
        ensures idle { IfOk result (λ count.
            self.new.progress.idle ≤ self.old.progress.idle + count) }
        ensures settled { OnOk result ((s : Serving Waiting)
            → Stands s self.old.site.now self.old.progress
            → AreSettled self.new.site.now.book.records self.new.progress.settled) }
        ensures empty { OnOk result (posts_held self.new.port.now ≡ []) }
        ensures held { HoldsFirst C.device held.new self.new.site.now.book }
        ensures waits { self.new.site.now.book.needs_opening ≡ false }
        ensures port { OnlyByFailing ServeFault.Port (P.failures port.old) (P.failures port.new)
            result }
    {
        let federation = self.site.members().federation();
        let mut batch = take_in(self.alloc, federation, port, self.folders, carried, left)?;
        let most = left.min(MOST_TURNS);
        self.serve_batch(held, port, &mut batch, carried, most, output)?;
        Ok(batch.len() as u32)
    }

    // A batch of so many turns at most: its turns, one sync, and then what they hand out and say.
    fn serve_batch<C: Cell, P: Port, W: Write>(
        &mut self,
        held: &mut SyncedCell<C>,
        port: &mut P,
        batch: &mut Vec<Turn>,
        carried: &mut Option<Turn>,
        most: u32,
        output: &mut W,
    ) -> Result<(), ServeFault>
        requires idle { self.old.progress.idle + most ≤ 4294967295 }
        requires count { length batch.old.items
            + length (option_to_list (carried_of carried.old)) ≤ most }
        requires room { most ≤ vec_capacity batch.old }
        requires empty { posts_held self.old.port.now ≡ [] }
        requires held { HoldsFirst C.device held.old self.old.site.now.book }
        requires waits { self.old.site.now.book.needs_opening ≡ false }
        requires stands { (s : Serving Waiting) × Stands s self.old.site.now self.old.progress }
        ensures keeps { Keeps (λ port. 0) F.gives self.old self.new }
        ensures serves { (s : Serving Waiting) → Stands s self.old.site.now self.old.progress
            → (joined : Option (List Move))
            × JoinsLater (P.traffic port.old) joined carried.old carried.new batch.old.items
            batch.new.items
            × ServesBatch C.device
            (turn_of no_cell self.old.addresses.now (F.gives self.old.folders.now))
            (map taken batch.new.items)
            (outside joined (W.contents output.old))
            (outside (P.traffic port.new) (W.contents output.new))
            s held.old held.new self.new.site.now self.new.progress.idle self.new.progress.tried
            result }
        ensures count { length batch.new.items
            + length (option_to_list (carried_of carried.new)) ≤ most }
        ensures idle { self.new.progress.idle ≤ self.old.progress.idle + length batch.new.items }
        ensures settled { OnOk result ((s : Serving Waiting)
            → Stands s self.old.site.now self.old.progress
            → AreSettled self.new.site.now.book.records self.new.progress.settled) }
        ensures empty { OnOk result (posts_held self.new.port.now ≡ []) }
        ensures held { HoldsFirst C.device held.new self.new.site.now.book }
        ensures waits { self.new.site.now.book.needs_opening ≡ false }
        ensures later { P.failures port.old ≤ P.failures port.new }
    {
        let mut marks = LineMarks::new();
        self.handle_batch(port, batch, carried, most, &mut marks)?;
        match self.site.sync(held) {
            Ok(synced) => {
                let untried = self.untried();
                self.port.release(synced, port, &marks, untried)?;
                tell_counts(self.site, port);
                write_lines(self.alloc, self.lines, output)
            }
            Err(CommitFault::Memory) => Err(ServeFault::Memory),
            Err(CommitFault::Device) => {
                Err(self.tell_unsynced(SiteFault::Device, port, batch, output))
            }
            Err(CommitFault::NeedsOpen) => {
                Err(self.tell_unsynced(SiteFault::NeedsOpen, port, batch, output))
            }
        }
    }

    // Takes the turns of a batch. Where deposits wait then, the port may have turns that are idle
    // at once: these join the batch, and so does what else is there, but no deposit. So a deposit
    // and its proposal are synced together.
    fn handle_batch<P: Port>(
        &mut self,
        port: &mut P,
        batch: &mut Vec<Turn>,
        carried: &mut Option<Turn>,
        most: u32,
        marks: &mut LineMarks,
    ) -> Result<(), AllocError>
        requires idle { self.old.progress.idle + most ≤ 4294967295 }
        requires count { length batch.old.items
            + length (option_to_list (carried_of carried.old)) ≤ most }
        requires room { most ≤ vec_capacity batch.old }
        requires empty { posts_held self.old.port.now ≡ [] }
        ensures keeps { Keeps (λ port. 0) F.gives self.old self.new }
        ensures joins { JoinsLater (P.traffic port.old) (P.traffic port.new) carried.old
            carried.new batch.old.items batch.new.items }
        ensures takes { (s : Serving Waiting) → Stands s self.old.site.now self.old.progress
            → TakesTurns (turn_of no_cell self.old.addresses.now
            (F.gives self.old.folders.now)) (map taken batch.new.items) s self.new.site.now
            (posts_held self.new.port.now) self.new.lines.now.items
            self.new.progress.idle self.new.progress.tried result }
        ensures count { length batch.new.items
            + length (option_to_list (carried_of carried.new)) ≤ most }
        ensures idle { self.new.progress.idle ≤ self.old.progress.idle + length batch.new.items }
        ensures settled { OnOk result ((s : Serving Waiting)
            → Stands s self.old.site.now self.old.progress
            → AreSettled self.new.site.now.book.records self.new.progress.settled) }
        ensures later { P.failures port.old ≤ P.failures port.new }
    {
        self.lines.clear();
        self.handle_turns(batch, 0, marks)?;
        if carried.is_some() {
            return Ok(());
        }
        // Where more has come, deposits that come a moment later are better proposed with it.
        if batch.len() > 1 {
            return Ok(());
        }
        let untried = self.untried();
        if untried == 0 {
            return Ok(());
        }
        port.awaits_turns(untried);
        let so_far = batch.len();
        let federation = self.site.members().federation();
        *carried = take_more(self.alloc, federation, port, self.folders, batch, most, 0);
        self.handle_turns(batch, so_far, marks)
    }

    // Takes the turns of a batch from this one on: what they hand out is held, and what they say
    // are lines, which are marked.
    fn handle_turns(
        &mut self,
        batch: &[Turn],
        from: usize,
        marks: &mut LineMarks,
    ) -> Result<(), AllocError>
        requires idle { self.old.progress.idle + (length batch.now - from) ≤ 4294967295 }
        ensures keeps { Keeps (λ port. 0) F.gives self.old self.new }
        ensures takes { (s : Serving Waiting)
            → TakesAll (turn_of no_cell self.old.addresses.now (F.gives self.old.folders.now))
            (map taken (take from batch.now)) s self.old.site.now (posts_held self.old.port.now)
            self.old.lines.now.items self.old.progress.idle self.old.progress.tried
            → AreSettled self.old.site.now.book.records self.old.progress.settled
            → TakesTurns (turn_of no_cell self.old.addresses.now
            (F.gives self.old.folders.now)) (map taken batch.now) s self.new.site.now
            (posts_held self.new.port.now) self.new.lines.now.items
            self.new.progress.idle self.new.progress.tried result }
        ensures count { self.new.progress.idle
            ≤ self.old.progress.idle + (length batch.now - from) }
        ensures settled { OnOk result ((s : Serving Waiting)
            → TakesAll (turn_of no_cell self.old.addresses.now (F.gives self.old.folders.now))
            (map taken (take from batch.now)) s self.old.site.now (posts_held self.old.port.now)
            self.old.lines.now.items self.old.progress.idle self.old.progress.tried
            → AreSettled self.old.site.now.book.records self.old.progress.settled
            → AreSettled self.new.site.now.book.records self.new.progress.settled) }
    {
        for place in from..batch.len() {
            self.handle_turn(&batch[place])?;
            marks.turn_ends(self.lines.len());
        }
        Ok(())
    }

    // The sync failed: nothing of the batch is told. But the clients of its deposits are told that,
    // and a line says so, as far as there is memory. The answer is that the cell failed, whether or
    // not that could be told.
    fn tell_unsynced<P: Port, W: Write>(
        &mut self,
        fault: SiteFault,
        port: &mut P,
        batch: &[Turn],
        output: &mut W,
    ) -> ServeFault
        ensures keeps { Keeps (λ port. 0) F.gives self.old self.new }
        ensures progress { self.new.progress ≡ self.old.progress }
        ensures site { self.new.site.now ≡ self.old.site.now }
        ensures fault { result ≡ ServeFault.Cell }
        ensures handed { GrowsPart (P.traffic port.old) (P.traffic port.new)
            (all_handed (refusals self.old.site.now fault (map taken batch.now))) }
        ensures written { AppendsPart (W.contents output.old) (W.contents output.new)
            (refusal_text self.old.site.now fault) }
        ensures later { P.failures port.old ≤ P.failures port.new }
    {
        let _ = self.refuse_deposits(fault, port, batch);
        let _ = write_refusal(self.alloc, self.lines, self.site, fault, output);
        ServeFault::Cell
    }

    // The clients of the batch's deposits are told of the fault.
    fn refuse_deposits<P: Port>(
        &self,
        fault: SiteFault,
        port: &mut P,
        batch: &[Turn],
    ) -> Result<(), AllocError>
        ensures handed { Hands (P.traffic port.old) (P.traffic port.new)
            (flat_map (refused_turn self.now.site.now fault) batch.now) result }
        ensures later { P.failures port.old ≤ P.failures port.new }
    {
        for turn in batch {
            self.refuse_deposit_by(fault, port, turn)?;
        }
        Ok(())
    }

    // If the turn is a deposit, its client is told of the fault.
    fn refuse_deposit_by<P: Port>(
        &self,
        fault: SiteFault,
        port: &mut P,
        turn: &Turn,
    ) -> Result<(), AllocError>
        ensures handed { Hands (P.traffic port.old) (P.traffic port.new)
            (refused_turn self.now.site.now fault turn.now) result }
        ensures later { P.failures port.old ≤ P.failures port.new }
    {
        match turn {
            Turn::Got(client, bytes) => {
                refuse_datagram(self.alloc, self.site, fault, port, *client, bytes)
            }
            Turn::Idle => Ok(()),
        }
    }
}

// If the datagram is a deposit, its client is told of the fault.
fn refuse_datagram<P: Port>(
    alloc: Global,
    site: &Site<Waiting>,
    fault: SiteFault,
    port: &mut P,
    client: Address,
    bytes: &[u8],
) -> Result<(), AllocError>
    ensures handed { Hands (P.traffic port.old) (P.traffic port.new)
        (refused_deposit site.now fault
        (request_of site.now.book.owner.members.federation (From client bytes.now))) result }
    ensures later { P.failures port.old ≤ P.failures port.new }
{
    let federation = site.members().federation();
    match asked_by(alloc, federation, bytes)? {
        Asked::Deposit(slot, _) => {
            let said = deposit_answer(&Err(fault));
            reply_to_deposit(alloc, port, federation, site.number(), client, slot, said)?;
            Ok(())
        }
        Asked::Hear(_) => Ok(()),
        Asked::Query(_) => Ok(()),
        Asked::Recover(_) => Ok(()),
        Asked::Nothing => Ok(()),
    }
}

// The line that a call was refused is written, as far as there is memory.
fn write_refusal<W: Write>(
    alloc: Global,
    lines: &mut Vec<Line>,
    site: &Site<Waiting>,
    fault: SiteFault,
    output: &mut W,
) -> Result<(), ServeFault>
    ensures { AppendsPart (W.contents output.old) (W.contents output.new)
        (refusal_text site.now fault) }
{
    lines.clear();
    push_refused(lines, site.number().number(), fault)?;
    write_lines(alloc, lines, output)
}
