ghost use Rattle.std.specs.Prelude.{◌≡◌, ◌++◌, ◌∷◌, [], ℕ, List, length, nat_eq, OnOk, OnErr};
ghost use Rattle.std.specs.List.{list_any};
ghost use Rattle.std.specs.Option.{option_copied};
ghost use Rattle.sim_stations.specs.DatagramNumbers.{numbered, next_unnamed};
ghost use Rattle.sim_stations.specs.DatagramNumbers.{Represents, RepresentsSame};
ghost use Rattle.sim_stations.specs.DatagramNumbers.{is_marked, is_named, AreNamed, IsLast};

use std::alloc::{AllocError, Global};
use std::collections::BTreeSet;
use std::marker::Model;

/// All datagrams that were sent, numbered from 1, and which numbers were named: one may be named
/// before its datagram is sent. A clause sees a `Sending`.
#[derive(Drop)]
pub struct Datagrams<T: Drop> {
    datagrams: Vec<T>,
    // A mark for each number up to the last that was sent, and the named numbers without a mark.
    marks: Vec<bool>,
    others: BTreeSet<usize>,
    // Each number up to this one was named.
    passed: usize,
}

impl<T: Drop> Model for Datagrams<T> {
    ghost use Rattle.sim_stations.specs.DatagramNumbers.{Sending, AreNamed};

    ghost Value = { Sending T };

    ghost view = { λ d. record {
      sent = d.datagrams.items;
      marks = d.marks.items;
      others = d.others.keys;
    } };

    ghost invariant = { λ d. AreNamed d.marks.items d.others.keys d.passed };
}

impl<T: Drop> Datagrams<T> {
    /// Nothing was sent, and no number was named.
    pub fn new(alloc: Global) -> Datagrams<T>
        ensures sent { result.sent ≡ [] }
        ensures named { Represents result [] }
    {
        Datagrams {
            datagrams: Vec::new(alloc),
            marks: Vec::new(alloc),
            others: BTreeSet::new(alloc),
            passed: 0,
        }
    }

    /// How many were sent.
    pub fn len(&self) -> usize
        ensures { result ≡ length self.now.sent }
    {
        self.datagrams.len()
    }

    /// Sends one more.
    pub fn push(&mut self, datagram: T) -> Result<(), AllocError>
        ensures ok { OnOk result (self.new.sent ≡ self.old.sent ++ datagram ∷ []) }
        ensures err { OnErr result (self.new.sent ≡ self.old.sent) }
        ensures named { RepresentsSame self.old self.new }
    {
        self.marks.push(false)?;
        self.datagrams.push(datagram)?;
        Ok(())
    }

    /// The datagram of this number, counted from 1.
    pub fn get(&self, number: usize) -> Option<&T>
        ensures { option_copied result ≡ numbered number self.now.sent }
    {
        if number == 0 {
            return None;
        }
        self.datagrams.get(number - 1)
    }

    /// Names a number, whether it was sent or not.
    pub fn name(&mut self, number: usize) -> Result<(), AllocError>
        ensures sent { self.new.sent ≡ self.old.sent }
        ensures ok { OnOk result ((named : List ℕ) → Represents self.old named
            → Represents self.new (named ++ number ∷ [])) }
        ensures err { OnErr result (RepresentsSame self.old self.new) }
    {
        if 1 <= number && number <= self.marks.len() {
            self.marks[number - 1] = true;
            return Ok(());
        }
        self.others.insert(number)?;
        Ok(())
    }

    /// The least number of a datagram that was sent and whose number nothing has named.
    pub fn next_unnamed(&mut self) -> Option<usize>
        ensures next { (named : List ℕ) → Represents self.old named
            → result ≡ next_unnamed named (length self.old.sent) }
        ensures same { self.new ≡ self.old }
    {
        let count = self.datagrams.len();
        self.passed = last_named(self.marks.as_slice(), &self.others, self.passed, count);
        if self.passed < count {
            return Some(self.passed + 1);
        }
        None
    }
}

/// How far all numbers up to `count` were named, if those up to `from` were.
fn last_named(marks: &[bool], others: &BTreeSet<usize>, from: usize, count: usize) -> usize
    requires { AreNamed marks.now others.now.keys from }
    ensures { IsLast marks.now others.now.keys count result }
{
    'look: for before in from..count {
        if !was_named(marks, others, before + 1) {
            return before;
        }
    }
    count
}

#[tactic(auto, unfolding(crate::specs::DatagramNumbers::is_named))]
fn was_named(marks: &[bool], others: &BTreeSet<usize>, number: usize) -> bool
    ensures { result ≡ is_named marks.now others.now.keys number }
{
    is_among(others, number) || is_marked(marks, number)
}

fn is_among(others: &BTreeSet<usize>, number: usize) -> bool
    ensures { result ≡ list_any (nat_eq number) others.now.keys }
{
    others.contains(&number)
}

fn is_marked(marks: &[bool], number: usize) -> bool
    ensures { result ≡ is_marked marks.now number }
{
    if number == 0 {
        return false;
    }
    if marks.len() < number {
        return false;
    }
    marks[number - 1]
}
