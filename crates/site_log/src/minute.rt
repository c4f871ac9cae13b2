//! What is written of a minute.

use crate::tally::{Kind, Sender, Tally};

/// So many senders and kinds of lines are counted by themselves in a minute. Those that come later
/// share one count for each kind: whatever comes, from however many addresses, a minute has no more
/// than 69 times 60 lines, and what it learns.
pub(crate) const PLACES: usize = 64;

/// The lines of a minute of the clock.
#[derive(Clone, Copy)]
pub(crate) struct Minute {
    /// How many minutes of the clock were before it; none where no line has come yet.
    pub(crate) number: Option<i64>,
    /// How many lines couldn't be written to standard output without waiting.
    pub(crate) blocked: u32,
    own: [Option<Tally>; PLACES],
    others: [Tally; 5],
}

impl Minute {
    /// A minute without lines.
    pub(crate) fn new(number: Option<i64>) -> Minute {
        Minute {
            number,
            blocked: 0,
            own: [None; PLACES],
            others: Kind::ALL.map(|kind| Tally::new(Sender::Others, kind)),
        }
    }

    /// Counts a line of this sender and kind: whether it is one of those that are written.
    pub(crate) fn admits(&mut self, sender: &Sender, kind: Kind) -> bool {
        for place in self.own.iter_mut() {
            match place {
                Some(tally) => {
                    if tally.is_of(sender, kind) {
                        return tally.admits();
                    }
                }
                None => {
                    let mut tally = Tally::new(*sender, kind);
                    let is_written = tally.admits();
                    *place = Some(tally);
                    return is_written;
                }
            }
        }
        self.others_admit(kind)
    }

    fn others_admit(&mut self, kind: Kind) -> bool {
        for tally in self.others.iter_mut() {
            if tally.kind == kind {
                return tally.admits();
            }
        }
        true
    }

    /// The counts of those that are counted by themselves.
    pub(crate) fn own(&self) -> &[Option<Tally>] {
        &self.own
    }

    /// The counts that the others share.
    pub(crate) fn others(&self) -> &[Tally] {
        &self.others
    }
}
