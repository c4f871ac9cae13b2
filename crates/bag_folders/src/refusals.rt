//! Which lists of files were refused, and why.

ghost use Rattle.std.specs.Prelude.{◌≡◌, OnOk, OnErr};
ghost use Rattle.std.specs.List.{find};
ghost use Rattle.std.specs.Option.{option_copied};
ghost use Rattle.bag_folders.specs.Refusals.{is_fresh_of, with_refusal};

use crate::list_sum::ListSum;
use bag_check::BagFault;
use std::alloc::{AllocError, Global};
use std::marker::Model;

/// For how many microseconds a refusal is remembered.
const REMEMBERED: u64 = 60_000_000;

/// How many refusals are remembered at most.
const MOST_REFUSALS: usize = 1024;

/// Why a folder was refused once its files had been read.
#[derive(Drop)]
pub(crate) enum Reason {
    /// Its bag isn't valid, for this fault.
    Invalid(BagFault),
    /// The text at this path is too long.
    TextTooLong(String),
    /// The file at this path can't be read.
    Device(String),
}

/// That a folder with this list of files was refused at this moment. Moments are microseconds.
#[derive(Drop)]
pub(crate) struct Refusal {
    pub(crate) files: ListSum,
    pub(crate) reason: Reason,
    pub(crate) moment: u64,
}

/// The latest refusals, the last one last.
#[derive(Drop)]
pub(crate) struct Refusals {
    latest: Vec<Refusal>,
}

impl Model for Refusals {
    ghost use Rattle.std.specs.Prelude.{List};
    ghost use Rattle.bag_folders.specs.declared.refusals.Refusal.{Refusal};

    ghost Value = { List Refusal };

    ghost view = { λ r. r.latest.items };
}

impl Refusals {
    ghost use Rattle.std.specs.Prelude.{[]};

    /// Nothing was refused.
    pub(crate) fn new(alloc: Global) -> Refusals
        ensures { result ≡ [] }
    {
        Refusals {
            latest: Vec::new(alloc),
        }
    }

    /// The refusal of a folder with this list of files, if one is remembered at this moment.
    pub(crate) fn of(&self, files: ListSum, now: u64) -> Option<&Refusal>
        ensures { option_copied result ≡ find (is_fresh_of files now) self.now }
    {
        self.latest
            .as_slice()
            .iter()
            .find(|refusal| is_fresh_of(refusal, files, now))
    }

    /// Remembers a refusal. Where there are too many, the earliest is forgotten.
    pub(crate) fn add(&mut self, refusal: Refusal) -> Result<(), AllocError>
        ensures ok { OnOk result (self.new ≡ with_refusal self.old refusal) }
        ensures err { OnErr result (self.new ≡ self.old) }
    {
        self.latest.reserve(1)?;
        if self.latest.len() >= MOST_REFUSALS {
            self.latest.remove(0);
        }
        self.latest.push_reserved(refusal);
        Ok(())
    }
}

/// Whether it is of this list of files, and remembered at this moment.
fn is_fresh_of(refusal: &Refusal, files: ListSum, now: u64) -> bool
    ensures { result ≡ is_fresh_of files now refusal.now }
{
    refusal.files == files && now.saturating_sub(refusal.moment) < REMEMBERED
}
