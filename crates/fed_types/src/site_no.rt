ghost use Rattle.std.specs.Prelude.{◌≡◌, ◌↔◌, ℕ, IsOk, IfOk, IsErrOf};
ghost use Rattle.fed_types.specs.Sites.{IsSiteNumber};

use crate::limits::GREATEST_SITE;
use crate::type_fault::TypeFault;
use std::marker::Model;

/// The number of a site, 1 to `GREATEST_SITE`. A clause sees it as that number.
#[derive(Clone, Copy, Debug, PartialEq, Eq, Hash, PartialOrd, Ord)]
pub struct SiteNo {
    number: u8,
}

impl Model for SiteNo {
    ghost Value = { ℕ };

    ghost view = { λ site. site.number };

    ghost invariant = { λ site. IsSiteNumber site.number };

    ghost inverse = { λ n. record { number = n } };
}

impl SiteNo {
    /// The site of this number, or `BadSite`.
    pub fn new(number: u8) -> Result<SiteNo, TypeFault>
        ensures ok { IsOk result ↔ IsSiteNumber number }
        ensures value { IfOk result (λ site. site ≡ number) }
        ensures bad_site { IsErrOf result TypeFault.BadSite ↔ ¬ IsSiteNumber number }
    {
        if number == 0 || GREATEST_SITE < number {
            return Err(TypeFault::BadSite);
        }
        Ok(SiteNo { number })
    }

    // The site of this number.
    pub(crate) fn of(number: u8) -> SiteNo
        requires { IsSiteNumber number }
        ensures { result ≡ number }
    {
        SiteNo { number }
    }

    /// The site's number, 1 to `GREATEST_SITE`.
    pub fn number(self) -> u8
        ensures value { result ≡ self }
        ensures in_range { IsSiteNumber result }
    {
        self.number
    }
}
