//! Records that follow a header of the second layout, or other records.

ghost use Rattle.std.specs.Prelude.{IfOk};
ghost use Rattle.records.specs.More.{BeginsWith};

use crate::journal::{read_records, run_from};
use crate::layout::Layout;
use crate::record::Record;
use std::alloc::{AllocError, Global};

/// Records, one after another, with which some bytes begin.
#[derive(Debug, Drop)]
pub struct MoreRecords {
    pub records: Vec<Record>,
    /// How many of the bytes these are.
    pub end: usize,
    /// Whether what follows them is no record, nor a part of one.
    pub is_damaged: bool,
}

/// Reads the records of the second layout with which the bytes begin, as many as there are. It
/// fails only where memory runs out.
pub fn read_more(alloc: Global, bytes: &[u8]) -> Result<MoreRecords, AllocError>
    ensures { IfOk result (BeginsWith bytes.now) }
{
    let run = run_from(Layout::Second, bytes, 0);
    let mut records = Vec::new(alloc);
    read_records(alloc, Layout::Second, run.records, &mut records)?;
    Ok(MoreRecords {
        records,
        end: run.end,
        is_damaged: run.damaged,
    })
}
