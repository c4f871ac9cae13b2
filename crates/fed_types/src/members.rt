ghost use Rattle.std.specs.Prelude.{◌≡◌, ◌≤◌, ◌↔◌, length, replicate, IsTrue, IsOk, IfOk};
ghost use Rattle.std.specs.Prelude.{IsErrOf};
ghost use Rattle.std.specs.List.{Contains};
ghost use Rattle.fed_types.specs.Lists.{is_in};
ghost use Rattle.fed_types.specs.Sites.{AreWeights, CountFits, HasZeroWeight, IsMemberCount};
ghost use Rattle.fed_types.specs.Sites.{IsSiteNumber, count_of, members_of, membership_of};
ghost use Rattle.fed_types.specs.Sites.{weight_of, weight_sum};
ghost use Rattle.fed_types.specs.inner.Padded.{total_of};

use crate::limits::MOST_MEMBERS;
use crate::site_no::SiteNo;
use crate::sites::Sites;
use crate::type_fault::TypeFault;
use std::marker::Model;

// Room for the weights of as many members as a federation can have.
const ROOM: usize = 63;

/// The members of a federation: the sites 1 to `count`, each with its weight. A clause sees a
/// `Membership`.
#[derive(Clone, Copy, Debug, PartialEq, Eq)]
pub struct Members {
    federation: u64,
    count: u8,
    // The weights of all members, added: each test of a quorum asks for it.
    total: u16,
    // The weights of the members, that of site 1 first, and then zeros.
    weights: [u8; ROOM],
}

impl Model for Members {
    ghost use Rattle.std.specs.Prelude.{length, take};
    ghost use Rattle.fed_types.specs.Sites.{Membership};
    ghost use Rattle.fed_types.specs.inner.Padded.{AreKept, padded, total_of};
    ghost use Rattle.fed_types.specs.inner.PaddedLaws.{given_back};

    ghost Value = { Membership };

    ghost view = { λ m. record { federation = m.federation; weights = take m.count m.weights } };

    ghost invariant = { λ m. AreKept m.count m.total m.weights };

    ghost inverse = { λ m. record {
      federation = m.federation;
      count = length m.weights;
      total = total_of m.weights;
      weights = padded m.weights;
    } };

    ghost inverse_ok = { λ m h. given_back (λ c t ws. record {
      federation = m.federation;
      count = c;
      total = t;
      weights = ws;
    }) m.count m.total m.weights h };
}

impl Members {
    /// The federation of this number with the sites 1 to `count`, each of weight 1, or `BadCount`
    /// if `count` is not 1 to `MOST_MEMBERS`.
    pub fn new(federation: u64, count: u8) -> Result<Members, TypeFault>
        ensures ok { IsOk result ↔ IsMemberCount count }
        ensures value { IfOk result (λ m. m ≡ membership_of federation (replicate count 1)) }
        ensures bad_count { IsErrOf result TypeFault.BadCount ↔ ¬ IsMemberCount count }
    {
        if MOST_MEMBERS < count {
            return Err(TypeFault::BadCount);
        }
        let ones = [1; ROOM];
        Members::weighted(federation, &ones[..usize::from(count)])
    }

    /// The federation of this number whose sites, from site 1 on, have these weights. `BadCount` if
    /// there are not 1 to `MOST_MEMBERS` weights, else `BadWeight` if a weight is 0.
    pub fn weighted(federation: u64, weights: &[u8]) -> Result<Members, TypeFault>
        ensures ok { IsOk result ↔ (CountFits weights.now × ¬ Contains weights.now 0) }
        ensures value { IfOk result (λ m. m ≡ membership_of federation weights.now) }
        ensures bad_count { IsErrOf result TypeFault.BadCount ↔ ¬ CountFits weights.now }
        ensures bad_weight { IsErrOf result TypeFault.BadWeight ↔ HasZeroWeight weights.now }
    {
        if weights.is_empty() || ROOM < weights.len() {
            return Err(TypeFault::BadCount);
        }
        if weights.contains(&0) {
            return Err(TypeFault::BadWeight);
        }
        let mut padded = [0; ROOM];
        padded[..weights.len()].copy_from_slice(weights);
        Ok(Members {
            federation,
            count: weights.len() as u8,
            total: total_of(weights),
            weights: padded,
        })
    }

    /// How many members there are, 1 to `MOST_MEMBERS`.
    pub fn count(self) -> u8
        ensures value { result ≡ count_of self }
        ensures in_range { IsMemberCount result }
    {
        self.count
    }

    /// The members, ascending.
    pub fn sites(self) -> Sites
        ensures { result ≡ members_of self }
    {
        Sites::to(self.count)
    }

    /// The number of the federation.
    pub fn federation(self) -> u64
        ensures { result ≡ self.federation }
    {
        self.federation
    }

    /// The weights of the members, each 1 to `GREATEST_WEIGHT`; the first is that of site 1.
    pub fn weights(&self) -> &[u8]
        ensures value { result.now ≡ self.now.weights }
        ensures in_range { AreWeights result.now }
    {
        &self.weights[..usize::from(self.count)]
    }

    /// The weight of the site, 0 where it is no member.
    pub fn weight(self, site: SiteNo) -> u8
        ensures { result ≡ weight_of self site }
    {
        self.weight_at(site.number())
    }

    /// The weights of all members, added.
    pub fn total_weight(self) -> u16
        ensures { result ≡ weight_sum self (members_of self) }
    {
        self.total
    }

    /// Whether the site is a member.
    pub fn has(self, site: SiteNo) -> bool
        ensures member { result ≡ is_in (members_of self) site }
        ensures in_range { IsTrue result ↔ (site ≤ count_of self) }
    {
        site.number() <= self.count()
    }

    // The weight of the site of this number.
    pub(crate) fn weight_at(&self, number: u8) -> u8
        requires { IsSiteNumber number }
        ensures { result ≡ weight_of self.now number }
    {
        self.weights[usize::from(number) - 1]
    }
}

// The weights, added.
fn total_of(weights: &[u8]) -> u16
    requires { CountFits weights.now }
    ensures { result ≡ total_of weights.now }
{
    let mut total = 0;
    for weight in weights {
        total += u16::from(*weight);
    }
    total
}
