ghost use Rattle.std.specs.Prelude.{◌≡◌};
ghost use Rattle.std.specs.Iterator.{YieldsFirst, item_count};
ghost use Rattle.fed_types.specs.Sites.{IsMemberCount, sites_to};

use crate::site_no::SiteNo;
use std::marker::Model;

/// The sites of a federation that are left in an iteration over its members, ascending. A clause
/// sees the list of their numbers.
#[derive(Debug, Drop)]
pub struct Sites {
    // The number of the site before these; 0 is before site 1.
    before: u8,
    // The number of the last site.
    last: u8,
}

impl Model for Sites {
    ghost use Rattle.std.specs.Prelude.{ℕ, List, ◌≤◌};
    ghost use Rattle.fed_types.specs.Limits.{most_members};
    ghost use Rattle.fed_types.specs.inner.After.{sites_after};

    ghost Value = { List ℕ };

    ghost view = { λ s. sites_after s.before s.last };

    ghost invariant = { λ s. s.last ≤ most_members };
}

impl Sites {
    // The sites from 1 to this one.
    pub(crate) fn to(last: u8) -> Sites
        requires { IsMemberCount last }
        ensures { result ≡ sites_to last }
    {
        Sites { before: 0, last }
    }
}

impl Iterator for Sites {
    type Item = SiteNo;

    ghost next_gives = { YieldsFirst (λ left. left) };

    ghost remaining = { item_count (λ left. left) };

    fn next(&mut self) -> Option<SiteNo> {
        if self.last <= self.before {
            return None;
        }
        self.before += 1;
        Some(SiteNo::of(self.before))
    }
}
