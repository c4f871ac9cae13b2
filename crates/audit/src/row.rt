ghost use Rattle.std.specs.Prelude.{◌≡◌};
ghost use Rattle.audit.specs.inner.Rows.{named, chosen_in, finding_in};

use crate::finding::Finding;
use fed_types::{BagId, Vote};

/// What was given of a version: the bag that was named first, as known or as chosen; the first
/// that was named and isn't that one; and the vote that was chosen first.
#[derive(Clone, Copy, Debug)]
pub(crate) struct Row {
    pub(crate) first: Option<BagId>,
    pub(crate) other: Option<BagId>,
    pub(crate) chosen: Option<Vote>,
}

impl Row {
    /// The row of a version for which nothing was given.
    pub(crate) const EMPTY: Row = Row {
        first: None,
        other: None,
        chosen: None,
    };

    /// The row after a bag was named.
    pub(crate) fn named(self, bag: BagId) -> Row
        ensures { result ≡ named self bag }
    {
        match self.first {
            None => Row {
                first: Some(bag),
                other: self.other,
                chosen: self.chosen,
            },
            Some(first) if first == bag => self,
            Some(_) => Row {
                first: self.first,
                other: self.other.or(Some(bag)),
                chosen: self.chosen,
            },
        }
    }

    /// The row after a vote was chosen.
    pub(crate) fn chosen(self, vote: Vote) -> Row
        ensures { result ≡ chosen_in self vote }
    {
        let Row {
            first,
            other,
            chosen,
        } = self.named(vote.bag);
        Row {
            first,
            other,
            chosen: chosen.or(Some(vote)),
        }
    }

    /// What is found of the version.
    pub(crate) fn finding(self) -> Finding
        ensures { result ≡ finding_in self }
    {
        match (self.first, self.other, self.chosen) {
            (Some(first), Some(other), _) => Finding::Conflict(first, other),
            (Some(_), None, Some(vote)) => Finding::Chosen(vote),
            (Some(first), None, None) => Finding::Known(first),
            (None, _, _) => Finding::Open,
        }
    }
}
