use fed_types::{BagId, Vote};

/// What the cells of several sites say together of a version.
#[derive(Clone, Copy, Debug, PartialEq, Eq)]
pub enum Finding {
    /// The members of a quorum have this vote on record: its bag is chosen.
    Chosen(Vote),
    /// A site has this bag on record as known, and the cells don't show that it is chosen.
    Known(BagId),
    /// No bag is chosen or known by these cells.
    Open,
    /// Two bags are chosen or known. The cells aren't those of one federation's run.
    Conflict(BagId, BagId),
}
