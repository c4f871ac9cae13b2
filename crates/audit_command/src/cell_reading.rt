//! A cell that is read piece by piece: its records are counted, and forgotten.

ghost use Rattle.std.specs.Prelude.{◌≡◌, ◌≢◌, ◌≤◌, ◌<◌, ◌++◌, ℕ, List, [], length, IfOk, IfSome};
ghost use Rattle.std.specs.Prelude.{OnOk};
ghost use Rattle.fed_types.specs.Sites.{Membership};
ghost use Rattle.audit.specs.Evidence.{SiteRecord};
ghost use Rattle.records.specs.declared.record.Record.{Record};
ghost use Rattle.audit_command.specs.CellReadings.{IsReadingOfBytes};
ghost use Rattle.audit_command.specs.Files.{Gives};
ghost use Rattle.audit_command.specs.inner.Gathered.{IsEvidence};
ghost use Rattle.audit_command.specs.inner.Marks.{EndsBefore, waiting_if_whole};
ghost use Rattle.audit_command.specs.inner.Standings.{Adds, counted_as, HasCounted, IsCounted};
ghost use Rattle.audit_command.specs.inner.Standings.{IsLastCounted, IsPartCounted, IsProgress};
ghost use Rattle.audit_command.specs.inner.Standings.{IsUnreadCounted};

use crate::cell_defect::CellDefect;
use crate::cell_files::CellFiles;
use crate::evidence::{Evidence, add_records};
use crate::last_records::LastRecords;
use crate::mark::Mark;
use crate::standing::{Standing, fault_of, standing_after};
use crate::sync_rule::SyncRule;
use fed_types::Members;
use ledger::{CellReader, Ending, LastPart, Part, Parts};
use records::Record;
use std::alloc::{AllocError, Global};

/// How many bytes are asked for at a time.
const PIECE: usize = 8192;

/// What was read of a cell.
#[derive(Debug, Drop)]
pub(crate) struct CellReading {
    reader: CellReader,
    standing: Standing,
    last: LastRecords,
    mark: Mark,
}

/// How far a cell was read.
#[derive(Clone, Copy, Debug)]
pub(crate) enum Progress {
    More,
    /// This is wrong with it, whatever follows.
    Ended(Option<CellDefect>),
}

// Counts these records, if the cell is a member's.
fn add_counted(
    alloc: Global,
    evidence: &mut Evidence,
    standing: &Standing,
    records: &[Record],
) -> Result<(), AllocError>
    ensures { OnOk result (Adds evidence.old evidence.new (counted_as standing.now records.now)) }
{
    match standing {
        Standing::Member(site) => add_records(alloc, evidence, *site, records),
        Standing::Unknown | Standing::Foreign => Ok(()),
    }
}

impl CellReading {
    /// The reading by this rule of a cell of which nothing was read.
    fn new(alloc: Global, rule: SyncRule) -> CellReading
        ensures { (members : Membership) (evidence : Evidence) (given : List SiteRecord)
            → IsEvidence members evidence given
            → HasCounted members rule result evidence [] given }
    {
        CellReading {
            reader: CellReader::new(alloc),
            standing: Standing::Unknown,
            last: LastRecords::new(alloc, rule.most_unsynced),
            mark: Mark::new(rule.synced),
        }
    }

    // If the synced bytes end here, counts the records in them: those that come next.
    fn note_mark(&mut self, alloc: Global) -> Result<(), AllocError>
        ensures passed { OnOk result (self.new.mark ≢ Mark.Ahead 0) }
        ensures counted { OnOk result ((members : Membership) (rule : SyncRule)
            (evidence : Evidence) (taken : List ℕ) (given : List SiteRecord)
            → HasCounted members rule self.old evidence taken given
            → HasCounted members rule self.new evidence taken given) }
    {
        if let Mark::Ahead(0) = self.mark {
            let last = self.reader.end(alloc)?;
            self.mark = Mark::Passed(count_if_whole(&self.last, &last));
        }
        Ok(())
    }

    // Counts the records of a part, and earlier ones that are no longer among the last.
    fn count_part(
        &mut self,
        alloc: Global,
        members: &Members,
        evidence: &mut Evidence,
        part: Part,
    ) -> Result<(), AllocError>
        ensures { OnOk result ((sure : List Record)
            × IsPartCounted members.now evidence.old evidence.new self.old self.new part sure) }
    {
        let Part { head, records } = part;
        self.standing = standing_after(members, self.standing, &head, &records);
        let sure = self.last.pass(alloc, records)?;
        self.mark = self.mark.after(0, sure.len());
        add_counted(alloc, evidence, &self.standing, &sure)
    }

    // Counts those of the last part, and the last records that are synced, and gives what is wrong
    // with the cell.
    fn count_last(
        &mut self,
        alloc: Global,
        members: &Members,
        evidence: &mut Evidence,
        last: LastPart,
    ) -> Result<Option<CellDefect>, AllocError>
        ensures { IfOk result
            (IsLastCounted members.now evidence.old evidence.new self.old self.new last) }
    {
        let LastPart { part, ending } = last;
        self.count_part(alloc, members, evidence, part)?;
        let synced = self.last.first(self.mark.more_synced());
        add_counted(alloc, evidence, &self.standing, synced)?;
        Ok(fault_of(&self.standing, ending))
    }

    // Counts what the next bytes say, which don't pass the mark.
    fn take(
        &mut self,
        alloc: Global,
        members: &Members,
        evidence: &mut Evidence,
        piece: &[u8],
    ) -> Result<Progress, AllocError>
        requires { EndsBefore (length piece.now) self.old.mark }
        ensures { IfOk result (λ progress. (rule : SyncRule) (taken : List ℕ)
            (given : List SiteRecord)
            → HasCounted members.now rule self.old evidence.old taken given
            → IsProgress members.now rule self.new evidence.new (taken ++ piece.now) given
            progress) }
    {
        self.mark = self.mark.after(piece.len(), 0);
        match self.reader.take(alloc, piece)? {
            Parts::More(part) => {
                self.count_part(alloc, members, evidence, part)?;
                Ok(Progress::More)
            }
            Parts::Last(last) => {
                let fault = self.count_last(alloc, members, evidence, last)?;
                Ok(Progress::Ended(fault))
            }
        }
    }

    // Counts what is left where the cell ends, and gives what is wrong with it.
    fn end(
        &mut self,
        alloc: Global,
        members: &Members,
        evidence: &mut Evidence,
    ) -> Result<Option<CellDefect>, AllocError>
        requires { self.old.mark ≢ Mark.Ahead 0 }
        ensures { IfOk result (λ fault. (rule : SyncRule) (taken : List ℕ)
            (given : List SiteRecord)
            → HasCounted members.now rule self.old evidence.old taken given
            → IsCounted members.now rule evidence.new taken given fault) }
    {
        let last = self.reader.end(alloc)?;
        self.count_last(alloc, members, evidence, last)
    }
}

// How many records come after those that were counted, if the cell ends whole with this part; else
// none.
fn count_if_whole(before: &LastRecords, last: &LastPart) -> usize
    ensures { result ≡ waiting_if_whole last.now.ending (length before.now.records.items)
        (length last.now.part.records.items) }
{
    match last.ending {
        Ending::Whole => before.len() + last.part.records.len(),
        Ending::Torn(_) | Ending::Damaged(_) => 0,
    }
}

/// Reads a cell to its end, or to where reading fails. Counts what it says that is sure by this
/// rule, and gives what is wrong with the cell.
pub(crate) fn read_cell<F: CellFiles>(
    alloc: Global,
    members: &Members,
    files: &F,
    cell: &mut F::Cell,
    rule: SyncRule,
    evidence: &mut Evidence,
) -> Result<Option<CellDefect>, AllocError>
    ensures { IfOk result (λ fault. (given : List SiteRecord)
        → IsEvidence members.now evidence.old given → (counted : List SiteRecord)
        × IfSome (F.left cell.old)
        (λ file. IsReadingOfBytes members.now rule file fault counted)
        × IsEvidence members.now evidence.new (given ++ counted)) }
{
    let mut reading = CellReading::new(alloc, rule);
    let mut piece = [0u8; PIECE];
    'reads: for _ in 0..u64::MAX {
        reading.note_mark(alloc)?;
        let room = reading.mark.room(PIECE);
        match read_into(files, cell, &mut piece, room) {
            Some(0) => return reading.end(alloc, members, evidence),
            Some(count) => match reading.take(alloc, members, evidence, &piece[..count])? {
                Progress::Ended(fault) => return Ok(fault),
                Progress::More => {}
            },
            None => return unread_end(alloc, members, &mut reading, evidence),
        }
    }
    // No cell has as many bytes as this.
    Err(AllocError)
}

// Reads the next bytes of a cell to the front of a piece, at most so many, of which there is one.
fn read_into<F: CellFiles>(
    files: &F,
    cell: &mut F::Cell,
    piece: &mut [u8; PIECE],
    room: usize,
) -> Option<usize>
    requires some { 0 < room }
    requires most { room ≤ PIECE }
    ensures bound { IfSome result (λ count. count ≤ room) }
    ensures bytes { IfSome (F.left cell.old)
        (λ file. Gives file piece.new result (F.left cell.new)) }
{
    files.read(cell, &mut piece[..room])
}

// The same, if reading fails: that is the defect, if there is no other.
fn unread_end(
    alloc: Global,
    members: &Members,
    reading: &mut CellReading,
    evidence: &mut Evidence,
) -> Result<Option<CellDefect>, AllocError>
    requires { reading.old.mark ≢ Mark.Ahead 0 }
    ensures { IfOk result (λ fault. (rule : SyncRule) (taken : List ℕ) (given : List SiteRecord)
        → HasCounted members.now rule reading.old evidence.old taken given
        → IsUnreadCounted members.now rule evidence.new taken given fault) }
{
    let fault = reading.end(alloc, members, evidence)?;
    Ok(fault.or(Some(CellDefect::Unread)))
}
