//! Quorums of any kind.

ghost use Rattle.std.specs.Prelude.{IsTrue};
ghost use Rattle.fed_types.specs.Quorums.{IsQuorum};

use fed_types::{Quorums, SiteNo, Voters};

/// A quorum stays one with a voter more.
pub fn with_one_more<Q: Quorums>(members: &Q, voters: &mut Voters, site: SiteNo) -> bool
    requires { IsQuorum (Q.quorum_system members.now) voters.old }
    ensures { IsTrue result }
{
    voters.add(site);
    members.is_quorum(voters)
}
