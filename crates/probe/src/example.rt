//! The example: a cell of site 1, and the Vote that follows in it.

use crate::fault::Fault;
use book::{Entry, Record};
use fed_types::{BagId, Ballot, SiteNo, Slot, Vote};
use std::alloc::Global;

/// The federation of all that the program makes, and its members' weights, if none are given.
pub const FEDERATION: u64 = 7;

pub const WEIGHTS: [u8; 3] = [1, 1, 1];

/// The cell in hex, of the first layout, and what it says: version 1 of object `a` has a ballot of
/// round 1, and the ballot (1, 1) is promised.
pub const CELL: &str =
    "42504a31000000000000000701000b0201610000000100000001000c030161000000010000000101";

pub const RECORDS: &str = "Round1 Promise(1,1)";

/// The header of the second layout in hex, which is appended where the cell is carried over.
const HEADER: &str = "42504a3200000000000000070103010101";

/// The bytes of the Vote in hex before its bag, and its checksum.
const VOTE: &str = "0054040161000000010000000101";

const CHECKSUM: &str = "919fea678a4d8604";

/// The site of the cell.
pub fn site() -> Result<SiteNo, Fault> {
    Ok(SiteNo::new(1)?)
}

/// Version 1 of object `a`.
pub fn slot(alloc: Global) -> Result<Slot, Fault> {
    Ok(Slot::new(String::from_str(alloc, "a")?, 1)?)
}

/// The Vote of ballot (1, 1) for that slot and the bag of 64 bytes aa.
pub fn vote(alloc: Global) -> Result<Record, Fault> {
    Ok(Record {
        slot: slot(alloc)?,
        body: Entry::Vote(Vote {
            ballot: Ballot::new(1, site()?)?,
            bag: BagId([0xaa; 64]),
        }),
    })
}

/// What the cell says once the Vote is committed, and its bytes.
pub fn whole_line(alloc: Global) -> Result<String, Fault> {
    let bag = "aa".repeat(alloc, 64)?;
    Ok(format!(in alloc; "{RECORDS} Vote(1,1) | {CELL}{HEADER}{VOTE}{bag}{CHECKSUM}\n")?)
}
