ghost use Rattle.std.specs.Prelude.{◌≡◌, ◌<◌, ◌≤◌, ◌*◌, ◌||◌, ◌==◌, ℕ, [], IsTrue};
ghost use Rattle.std.specs.List.{count_by};
ghost use Rattle.fed_types.specs.Lists.{is_in};
ghost use Rattle.fed_types.specs.Voters.{with_voter};
ghost use Rattle.fed_types.specs.Quorums.{members_among, quorums_of};
ghost use Rattle.fed_types.specs.Sites.{IsMemberCount, sites_to, weight_sum};
ghost use Rattle.fed_types.specs.Limits.{greatest_weight, most_members};

use crate::members::Members;
use crate::site_no::SiteNo;
use std::marker::Model;

/// A set of sites. A clause sees the ascending list of their numbers.
#[derive(Clone, Copy, Debug)]
pub struct Voters {
    // Bit n is 1 exactly where site n is in the set.
    word: u64,
}

impl Model for Voters {
    ghost use Rattle.std.specs.Prelude.{ℕ, List, ◌<◌, ◌^◌};
    ghost use Rattle.std.proofs.Common.{ap};
    ghost use Rattle.fed_types.specs.inner.Words.{bits_below, word_of};
    ghost use Rattle.fed_types.specs.inner.WordLaws.{word_of-bits_below};

    ghost Value = { List ℕ };

    ghost view = { λ v. bits_below v.word 64 };

    ghost invariant = { λ v. v.word < 2 ^ 64 };

    ghost inverse = { λ ns. record { word = word_of ns } };

    ghost inverse_ok = { λ v h. ap (λ w. record { word = w }) (word_of-bits_below v.word h) };
}

impl Voters {
    /// The empty set.
    #[tactic(auto, unfolding(crate::specs::inner::Words::bits_below))]
    pub fn new() -> Voters
        ensures { result ≡ [] }
    {
        Voters { word: 0 }
    }

    /// Puts the site into the set; one that is there already changes nothing.
    pub fn add(&mut self, site: SiteNo)
        ensures value { self.new ≡ with_voter self.old site }
        ensures added { (n : ℕ) → is_in self.new n ≡ (site == n || is_in self.old n) }
        ensures again { IsTrue (is_in self.old site) → self.new ≡ self.old }
    {
        self.word |= 1 << site.number();
    }

    /// Whether the site is in the set.
    pub fn has(&self, site: SiteNo) -> bool
        ensures { result ≡ is_in self.now site }
    {
        self.holds(site.number())
    }

    /// Whether the members in the set have more than half of the weight of all members. Sites
    /// that aren't members don't count.
    pub fn is_quorum(&self, members: &Members) -> bool
        ensures { result ≡ (quorums_of members.now).is_quorum self.now }
    {
        2 * self.weight(members) > members.total_weight()
    }

    // The weights of the members in the set, added.
    fn weight(&self, members: &Members) -> u16
        ensures value { result ≡ weight_sum members.now (members_among members.now self.now) }
        ensures most { result ≤ most_members * greatest_weight }
    {
        let _weights = members.weights();
        if members.total_weight() == u16::from(members.count()) {
            // Each weight is 1.
            return self.number_to(members.count());
        }
        self.sum_of_weights(members)
    }

    // How many of the sites 1 to `count` are in the set.
    fn number_to(&self, count: u8) -> u16
        requires { IsMemberCount count }
        ensures { result ≡ count_by (is_in self.now) (sites_to count) }
    {
        let members = self.word >> 1 & u64::MAX >> (64 - count);
        members.count_ones() as u16
    }

    // The weights of the members in the set, added one by one.
    fn sum_of_weights(&self, members: &Members) -> u16
        ensures value { result ≡ weight_sum members.now (members_among members.now self.now) }
        ensures most { result ≤ most_members * greatest_weight }
    {
        // The weights are so few, and each so small, that the sum fits.
        let _weights = members.weights();
        let mut sum = 0;
        // The ones that aren't counted yet; no site has number 0.
        let mut rest = self.word & !1;
        while rest != 0 {
            let number = rest.trailing_zeros() as u8;
            sum += u16::from(members.weight_at(number));
            rest &= rest - 1;
        }
        sum
    }

    // Whether the site of this number is in the set.
    fn holds(&self, number: u8) -> bool
        requires { number < 64 }
        ensures { result ≡ is_in self.now number }
    {
        self.word >> number & 1 == 1
    }
}
