ghost use Rattle.std.specs.Prelude.{◌≡◌, ◌≤◌, ◌↔◌, IsOk, IfOk, IsErrOf};
ghost use Rattle.std.specs.Ordering.{as_partial_cmp};
ghost use Rattle.std.specs.Prelude.{refl};
ghost use Rattle.fed_types.specs.Ballots.{ballot_cmp};
ghost use Rattle.fed_types.specs.Limits.{greatest_round};
ghost use Rattle.fed_types.specs.Laws.Ballots.{ballot_cmp_total, ballot_cmp_partial};
ghost use Rattle.fed_types.specs.Laws.Ballots.{ballot_eq_ties};

use crate::site_no::SiteNo;
use crate::type_fault::TypeFault;
use std::cmp::Ordering;
use std::marker::Model;

/// A ballot: a round, at least 1, and the site that proposes in it. Ballots are ordered by round,
/// and within a round by site. A clause sees a `BallotNumber`.
#[derive(Clone, Copy, Debug, PartialEq, Eq, Hash)]
pub struct Ballot {
    round: u32,
    site: SiteNo,
}

impl Model for Ballot {
    ghost use Rattle.std.specs.Prelude.{◌≤◌};
    ghost use Rattle.fed_types.specs.Ballots.{BallotNumber};

    ghost Value = { BallotNumber };

    ghost view = { λ b. record { round = b.round; site = b.site } };

    ghost invariant = { λ b. 1 ≤ b.round };

    ghost inverse = { λ b. record { round = b.round; site = b.site } };
}

impl Ballot {
    /// The ballot of this round and site, or `ZeroRound`.
    pub fn new(round: u32, site: SiteNo) -> Result<Ballot, TypeFault>
        ensures ok { IsOk result ↔ (1 ≤ round) }
        ensures value { IfOk result (λ b. b ≡ record { round = round; site = site }) }
        ensures greatest { IfOk result (λ b. b.round ≤ greatest_round) }
        ensures zero_round { IsErrOf result TypeFault.ZeroRound ↔ (round ≡ 0) }
    {
        if round == 0 {
            return Err(TypeFault::ZeroRound);
        }
        Ok(Ballot { round, site })
    }

    /// The round, at least 1.
    pub fn round(self) -> u32
        ensures value { result ≡ self.round }
        ensures in_range { 1 ≤ result }
        ensures greatest { result ≤ greatest_round }
    {
        self.round
    }

    /// The site that proposes in this ballot.
    pub fn site(self) -> SiteNo
        ensures { result ≡ self.site }
    {
        self.site
    }
}

impl Ord for Ballot {
    ghost cmp = { ballot_cmp };

    ghost total = { ballot_cmp_total };

    ghost matches_partial_cmp = { λ a b. refl };

    ghost matches_eq = { ballot_eq_ties };

    #[tactic(auto, unfolding(crate::specs::Ballots::ballot_cmp))]
    fn cmp(&self, other: &Ballot) -> Ordering {
        let by_round = self.round.cmp(&other.round);
        by_round.then(self.site.cmp(&other.site))
    }
}

impl PartialOrd for Ballot {
    ghost partial_cmp = { as_partial_cmp ballot_cmp };

    ghost laws = { ballot_cmp_partial };

    fn partial_cmp(&self, other: &Ballot) -> Option<Ordering> {
        Some(self.cmp(other))
    }
}
