//! The records of a cell that aren't counted before others follow.

ghost use Rattle.std.specs.Prelude.{◌≡◌, ◌≤◌, ◌++◌, [], length, take, IfOk, OnOk};
ghost use Rattle.audit_command.specs.inner.Standings.{IsSplit};

use records::Record;
use std::alloc::{AllocError, Global};
use std::mem;

/// The records of a cell that were read last, as many as may be unsynced, or all.
#[derive(Debug, Drop)]
pub(crate) struct LastRecords {
    unsure: usize,
    records: Vec<Record>,
}

impl LastRecords {
    /// The last records of a cell of which nothing was read.
    pub(crate) fn new(alloc: Global, unsure: usize) -> LastRecords
        ensures unsure { result.unsure ≡ unsure }
        ensures records { result.records.items ≡ [] }
    {
        LastRecords {
            unsure,
            records: Vec::new(alloc),
        }
    }

    /// The next records are read: it gives those that are no longer among the last.
    pub(crate) fn pass(
        &mut self,
        alloc: Global,
        next: Vec<Record>,
    ) -> Result<Vec<Record>, AllocError>
        ensures unsure { self.new.unsure ≡ self.old.unsure }
        ensures split { IfOk result (λ sure. IsSplit self.old.unsure
            (self.old.records.items ++ next.items) sure.items self.new.records.items) }
    {
        let mut all = mem::replace(&mut self.records, Vec::new(alloc));
        let mut next = next;
        all.append(&mut next)?;
        let sure = all.len().saturating_sub(self.unsure);
        self.records = all.split_off(sure)?;
        Ok(all)
    }
    /// How many they are.
    pub(crate) fn len(&self) -> usize
        ensures { result ≡ length self.now.records.items }
    {
        self.records.len()
    }

    /// The first so many of them, or all if there are fewer.
    pub(crate) fn first(&self, count: usize) -> &[Record]
        ensures { result.now ≡ take count self.now.records.items }
    {
        &self.records[..count.min(self.records.len())]
    }
}
