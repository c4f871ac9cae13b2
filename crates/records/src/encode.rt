ghost use Rattle.std.specs.Prelude.{◌≡◌, ◌≤◌, length, IfOk};
ghost use Rattle.fields.specs.Puts.{Puts};
ghost use Rattle.records.specs.Numbers.{shortest_content, longest_content};
ghost use Rattle.records.specs.declared.layout.Layout.TheVariants.{Second};
ghost use Rattle.records.specs.Records.{IsRecord};
ghost use Rattle.records.specs.Layout.{entry_bytes, content_bytes, framed, record_bytes};

use crate::entry::Entry;
use crate::record::Record;
use fields::{CHECKSUM_BYTES, put_bag, put_ballot, put_checksum, put_slot, put_vote};
use std::alloc::{AllocError, Global};

fn put_entry(out: &mut Vec<u8>, entry: &Entry) -> Result<(), AllocError>
    ensures { Puts result out.old out.new (entry_bytes entry.now) }
{
    match entry {
        Entry::Deposit(bag) | Entry::Known(bag) => put_bag(out, bag),
        Entry::Round(round) => out.extend_from_slice(&round.number().to_be_bytes()),
        Entry::Promise(ballot) => put_ballot(out, *ballot),
        Entry::Vote(vote) => put_vote(out, *vote),
    }
}

// What follows the length.
fn put_content(out: &mut Vec<u8>, kept: &Record) -> Result<(), AllocError>
    ensures { Puts result out.old out.new (content_bytes kept.now) }
{
    out.push(kept.body.kind())?;
    put_slot(out, &kept.slot)?;
    put_entry(out, &kept.body)
}

// All before the checksum.
fn put_frame(out: &mut Vec<u8>, kept: &Record) -> Result<(), AllocError>
    ensures { Puts result out.old out.new (framed Second kept.now) }
{
    let size = kept.size() + CHECKSUM_BYTES;
    out.extend_from_slice(&(size as u16).to_be_bytes())?;
    put_content(out, kept)
}

impl Record {
    /// How many bytes the record has between its length field and its checksum: `SHORTEST` to
    /// `LONGEST`.
    fn size(&self) -> usize
        ensures value { result ≡ length (content_bytes self.now) }
        ensures in_range { (shortest_content ≤ result) × (result ≤ longest_content) }
        ensures sound { IsRecord self.now }
    {
        let head = 1 + 1 + self.slot.object().len() + self.slot.version().to_be_bytes().len();
        head + self.body.size()
    }

    /// The record's bytes.
    #[tactic(auto, unfolding(crate::specs::Layout::encoded))]
    pub fn to_bytes(&self, alloc: Global) -> Result<Vec<u8>, AllocError>
        ensures bytes { IfOk result (λ bytes. bytes.items ≡ record_bytes self.now) }
        ensures sound { IsRecord self.now }
    {
        let mut out = Vec::with_capacity(alloc, 2 + self.size() + CHECKSUM_BYTES)?;
        put_frame(&mut out, self)?;
        put_checksum(&mut out, 0)?;
        Ok(out)
    }
}
