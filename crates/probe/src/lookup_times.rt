//! The look-up in a bare table, to be timed.

use crate::deciding_times::{now, rate_since};
use crate::fault::Fault;
use fed_types::Slot;
use indexmap::IndexMap;
use records::Record;
use std::alloc::Global;

/// The rate of the look-up of each record's slot.
pub fn lookup_rate(rt: &HostRuntime, records: &[Record]) -> Result<f64, Fault> {
    let mut table = IndexMap::new(rt.alloc());
    match fill(rt.alloc(), &mut table, records) {
        Ok(()) => time(rt, &table, records),
        Err(fault) => Err(fault),
    }
}

fn fill(alloc: Global, table: &mut IndexMap<Slot, u32>, records: &[Record]) -> Result<(), Fault> {
    for record in records.iter() {
        insert(table, record.slot.copy(alloc)?)?;
    }
    Ok(())
}

fn insert(table: &mut IndexMap<Slot, u32>, slot: Slot) -> Result<(), Fault> {
    let version = slot.version();
    match table.insert(slot, version) {
        Ok(_) => Ok(()),
        Err(_) => Err(Fault::Memory),
    }
}

fn time(rt: &HostRuntime, table: &IndexMap<Slot, u32>, records: &[Record]) -> Result<f64, Fault> {
    let start = now(rt);
    let found = sum(table, records);
    rate_since(rt, start, records.len(), found > 0)
}

fn sum(table: &IndexMap<Slot, u32>, records: &[Record]) -> u64 {
    let mut found = 0u64;
    for record in records.iter() {
        if let Some(number) = table.get(&record.slot) {
            found = found.wrapping_add(u64::from(*number));
        }
    }
    found
}
