use crate::bag_id::BagId;
use crate::ballot::Ballot;

/// A vote: the ballot that a site voted in, and the bag that it voted for.
#[derive(Clone, Copy, Debug, PartialEq, Eq, Hash, PartialOrd, Ord)]
pub struct Vote {
    pub ballot: Ballot,
    pub bag: BagId,
}
