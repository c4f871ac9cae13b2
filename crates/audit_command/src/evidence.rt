//! The records of all cells.

ghost use Rattle.std.specs.Prelude.{◌≡◌, ◌++◌, ◌∷◌, [], List, IfOk, OnOk};
ghost use Rattle.fed_types.specs.Quorums.{quorums_of};
ghost use Rattle.fed_types.specs.Sites.{Membership};
ghost use Rattle.fed_types.specs.Slots.{same_slot};
ghost use Rattle.indexmap.specs.IndexSet.{insert_key};
ghost use Rattle.audit.specs.Evidence.{SiteRecord};
ghost use Rattle.audit.specs.Findings.{IsFinding};
ghost use Rattle.audit_command.specs.CellReadings.{of_site};
ghost use Rattle.audit_command.specs.Versions.{AreVersions};
ghost use Rattle.audit_command.specs.inner.Gathered.{IsEvidence};

use crate::version::Version;
use audit::Cells;
use fed_types::{Members, SiteNo, Slot};
use indexmap::IndexSet;
use records::Record;
use std::alloc::{AllocError, Global};
use std::hash::RandomState;

/// The records of cells, and the versions that they name, in the order in which they come first.
#[derive(Drop)]
pub(crate) struct Evidence {
    pub(crate) cells: Cells,
    pub(crate) slots: IndexSet<Slot, RandomState>,
}

/// No cell was read.
pub(crate) fn no_evidence(alloc: Global, members: Members, hashing: RandomState) -> Evidence
    ensures { IsEvidence members result [] }
{
    Evidence {
        cells: Cells::new(alloc, members, hashing),
        slots: IndexSet::with_hasher(alloc, hashing),
    }
}

// A record names this version.
fn put_slot(slots: &mut IndexSet<Slot, RandomState>, slot: Slot) -> Result<(), AllocError>
    ensures { OnOk result (slots.new.keys ≡ insert_key same_slot slots.old.keys slot) }
{
    match slots.insert(slot) {
        Ok(_) => Ok(()),
        Err(_) => Err(AllocError),
    }
}

// One more record of a cell of this site was read.
fn add_record(
    alloc: Global,
    evidence: &mut Evidence,
    site: SiteNo,
    kept: &Record,
) -> Result<(), AllocError>
    ensures { OnOk result ((members : Membership) (given : List SiteRecord)
        → IsEvidence members evidence.old given
        → IsEvidence members evidence.new (given ++ record { site = site; kept = kept.now } ∷ [])) }
{
    evidence.cells.note(site, kept)?;
    put_slot(&mut evidence.slots, kept.slot.copy(alloc)?)
}

/// These records of a cell of this site were read.
pub(crate) fn add_records(
    alloc: Global,
    evidence: &mut Evidence,
    site: SiteNo,
    records: &[Record],
) -> Result<(), AllocError>
    ensures { OnOk result ((members : Membership) (given : List SiteRecord)
        → IsEvidence members evidence.old given
        → IsEvidence members evidence.new (given ++ of_site site records.now)) }
{
    for kept in records {
        add_record(alloc, evidence, site, kept)?;
    }
    Ok(())
}

// What the cells say of a version.
fn version_of(alloc: Global, evidence: &Evidence, slot: &Slot) -> Result<Version, AllocError>
    ensures slot { IfOk result (λ version. version.slot ≡ slot.now) }
    ensures found { IfOk result (λ version. (members : Membership) (given : List SiteRecord)
        → IsEvidence members evidence.now given
        → IsFinding (quorums_of members) given version.slot version.finding) }
{
    let finding = evidence.cells.finding(slot);
    Ok(Version {
        slot: slot.copy(alloc)?,
        finding,
    })
}

/// What the cells say of each version.
pub(crate) fn versions_of(alloc: Global, evidence: &Evidence) -> Result<Vec<Version>, AllocError>
    ensures { IfOk result (λ versions. (members : Membership) (given : List SiteRecord)
        → IsEvidence members evidence.now given
        → AreVersions (quorums_of members) given versions.items) }
{
    let slots = evidence.slots.as_slice();
    let mut versions = Vec::new(alloc);
    for slot in slots {
        versions.push(version_of(alloc, evidence, slot)?)?;
    }
    Ok(versions)
}
