ghost use Rattle.sealing_law.specs.Examples.{ThreeSitesAgreeWithKeys, ASealedVoteCounts};
ghost use Rattle.sealing_law.specs.Examples.{AForgedKnownIsDropped};

// A function here does nothing: its contract is the example.

/// Three sites agree by messages that they have sealed.
pub fn three_sites_agree_with_keys()
    ensures { ThreeSitesAgreeWithKeys }
{}

/// A sealed vote that comes counts, and once where it comes again.
pub fn a_sealed_vote_counts()
    ensures { ASealedVoteCounts }
{}

/// A site drops a message of another site that has no tag by a key of the sites.
pub fn a_forged_known_is_dropped()
    ensures { AForgedKnownIsDropped }
{}
