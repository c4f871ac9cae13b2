ghost use Rattle.std.specs.Prelude.{◌≡◌};
ghost use Rattle.fed_types.specs.Lists.{is_in};
ghost use Rattle.fed_types.specs.Quorums.{QuorumSystem, QuorumsMeet, QuorumGrows, quorums_of};

use crate::members::Members;
use crate::site_no::SiteNo;
use crate::voters::Voters;

/// Who the members are, and which sets of voters are quorums.
pub trait Quorums {
    // The members, and the test of a list of voters.
    ghost quorum_system: { Self → QuorumSystem };

    /// Whether the site is a member.
    fn has(&self, site: SiteNo) -> bool
        ensures { result ≡ is_in (quorum_system self.now).members site };

    /// Whether the voters are a quorum. Voters that aren't members don't count.
    fn is_quorum(&self, voters: &Voters) -> bool
        ensures { result ≡ (quorum_system self.now).is_quorum voters.now };

    // Two quorums share a member.
    ghost quorums_meet: { (q : Self) → QuorumsMeet (quorum_system q) };

    // Voters that hold all members of a quorum are a quorum.
    ghost quorum_grows: { (q : Self) → QuorumGrows (quorum_system q) };
}

impl Quorums for Members {
    ghost use Rattle.fed_types.specs.Laws.Quorums.{quorums_meet, quorum_grows};

    ghost quorum_system = { quorums_of };

    ghost quorums_meet = { quorums_meet };

    ghost quorum_grows = { quorum_grows };

    fn has(&self, site: SiteNo) -> bool {
        Members::has(*self, site)
    }

    fn is_quorum(&self, voters: &Voters) -> bool {
        voters.is_quorum(self)
    }
}
