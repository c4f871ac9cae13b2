ghost use Rattle.std.specs.Prelude.{◌≡◌};
ghost use Rattle.members_file.specs.Places.{address_at};

use crate::place::Place;
use addresses::Address;

/// What a members file says of a site.
#[derive(Clone, Copy, Debug)]
pub struct ListedSite {
    /// Where the site is.
    pub place: Place,
    /// The site's weight as a member, 1 or more.
    pub weight: u8,
}

impl ListedSite {
    /// The site's address: that of a port is of 127.0.0.1.
    pub fn address(&self) -> Address
        ensures { result ≡ address_at self.now.place }
    {
        self.place.address()
    }
}
