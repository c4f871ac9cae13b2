ghost use Rattle.std.specs.Prelude.{◌≡◌, IfOk};
ghost use Rattle.members_file.specs.Files.{AreListed, addresses_of, members_named, named_by};
ghost use Rattle.members_file.specs.Files.{names_addresses};

use crate::listed_site::ListedSite;
use crate::place::PlaceKind;
use addresses::Address;
use fed_types::Members;
use std::alloc::{AllocError, Global};
use std::marker::Model;

/// The members of a federation, and the place of each. A clause sees a `MembersFile`.
#[derive(Debug, Drop)]
pub struct MemberSites {
    members: Members,
    sites: Vec<ListedSite>,
}

impl Model for MemberSites {
    ghost use Rattle.std.specs.Prelude.{◌≡◌};
    ghost use Rattle.members_file.specs.Files.{MembersFile, AreListed, members_named};
    ghost use Rattle.members_file.specs.Files.{named_by};

    ghost Value = { MembersFile };

    ghost view = { λ m. named_by m.members.federation m.sites.items };

    ghost invariant = { λ m. AreListed m.sites.items
        × (m.members ≡ members_named (named_by m.members.federation m.sites.items)) };
}

impl MemberSites {
    /// These members, one for each of these sites.
    pub(crate) fn new(members: Members, sites: Vec<ListedSite>) -> MemberSites
        requires sites { AreListed sites.items }
        requires members { members ≡ members_named (named_by members.federation sites.items) }
        ensures { result ≡ named_by members.federation sites.items }
    {
        MemberSites { members, sites }
    }

    /// The members.
    pub fn members(&self) -> Members
        ensures { result ≡ members_named self.now }
    {
        self.members
    }

    /// What the file says of each site, of site n at place n - 1. No two have the same address, and
    /// all are named in one way: by ports, or by addresses of one family.
    pub fn sites(&self) -> &[ListedSite]
        ensures value { result.now ≡ self.now.sites }
        ensures in_range { AreListed result.now }
    {
        self.sites.as_slice()
    }

    /// The address of each site, that of site n at place n - 1. A port is one of 127.0.0.1.
    pub fn addresses(&self, alloc: Global) -> Result<Vec<Address>, AllocError>
        ensures { IfOk result (λ addresses. addresses.items ≡ addresses_of self.now.sites) }
    {
        self.sites.iter().map(|site| site.address()).collect(alloc)
    }

    /// Whether the file has addresses; else it has ports of this machine.
    pub fn names_addresses(&self) -> bool
        ensures { result ≡ names_addresses self.now.sites }
    {
        names_addresses(self.sites.as_slice())
    }
}

/// Whether sites have addresses; else they have ports of this machine.
pub(crate) fn names_addresses(sites: &[ListedSite]) -> bool
    ensures { result ≡ names_addresses sites.now }
{
    sites
        .iter()
        .any(|site| site.place.kind() != PlaceKind::Port)
}
