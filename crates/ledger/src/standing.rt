use fed_types::BagId;

/// What a cell's records say of a version.
#[derive(Clone, Copy, Debug, PartialEq, Eq)]
pub enum Standing {
    /// This bag is known as the chosen one.
    Known(BagId),
    /// No bag is known, and this one is the site's own deposit.
    Pending(BagId),
    /// Neither, and this is the bag of the site's vote.
    Voted(BagId),
    /// Only promises or rounds.
    Asked,
}
