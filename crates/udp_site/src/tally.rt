//! What a site counted last, and when it counts again.

ghost use Rattle.std.specs.Prelude.{◌≡◌};
ghost use Rattle.udp_site.specs.Tallies.{none_counted, counts_are_due, begins_counting};
ghost use Rattle.udp_site.specs.Tallies.{ends_counting, standing_of};

use crate::status::{Counts, Standing};

/// For how many times as long as counting took last a site doesn't count.
const REST: u64 = 100;

/// What the site counted last, and when. Moments are microseconds.
#[derive(Clone, Copy, Debug)]
pub(crate) struct Tally {
    pub(crate) counts: Option<Counts>,
    /// When counting began last.
    pub(crate) began: u64,
    /// When it ended last.
    pub(crate) ended: u64,
}

impl Tally {
    /// That of a site that hasn't counted.
    pub(crate) fn new() -> Tally
        ensures { result ≡ none_counted }
    {
        Tally {
            counts: None,
            began: 0,
            ended: 0,
        }
    }

    /// Whether counting is due: no more than a hundredth of a site's time goes into it.
    pub(crate) fn is_due(&self, now: u64) -> bool
        ensures { result ≡ counts_are_due self.now now }
    {
        let took = self.ended.saturating_sub(self.began);
        let since = now.saturating_sub(self.ended);
        match took.checked_mul(REST) {
            Some(rest) => since >= rest,
            None => false,
        }
    }

    /// Counting begins at this moment.
    pub(crate) fn begins(&mut self, now: u64)
        ensures { self.new ≡ begins_counting self.old now }
    {
        self.began = now;
    }

    /// It ends at this moment, with these counts.
    pub(crate) fn ends(&mut self, counts: Counts, now: u64)
        ensures { self.new ≡ ends_counting self.old counts now }
    {
        self.counts = Some(counts);
        self.ended = now;
    }

    /// How the site stands, which has been alone for so long; none if it hasn't counted yet.
    pub(crate) fn standing(&self, alone: u64) -> Option<Standing>
        ensures { result ≡ standing_of self.now alone }
    {
        match self.counts {
            Some(counts) => Some(Standing { counts, alone }),
            None => None,
        }
    }
}
