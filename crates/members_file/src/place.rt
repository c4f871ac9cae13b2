ghost use Rattle.std.specs.Prelude.{◌≡◌, IfOk};
ghost use Rattle.members_file.specs.Places.{address_at, kind_of, place_in};

use addresses::Address;
use std::alloc::{AllocError, Global};
use std::fmt;
use std::fmt::Display;
use tokens::parse_number;

/// Where a members file has a site: what stands in its line.
#[derive(Clone, Copy, Debug)]
pub enum Place {
    /// A port of this machine, 1 or more.
    Port(u16),
    /// An address that a members file may list.
    Address(Address),
}

/// How a members file has its sites: all of them in one of these ways.
#[derive(Clone, Copy, Debug, PartialEq, Eq)]
pub enum PlaceKind {
    /// By ports of this machine.
    Port,
    /// By addresses of IPv4.
    Ipv4,
    /// By addresses of IPv6.
    Ipv6,
}

impl Place {
    /// The place that a word names: a port of this machine, or an address.
    #[tactic(auto, unfolding(crate::specs::Places::place_in))]
    pub fn parse(alloc: Global, word: &[u8]) -> Result<Option<Place>, AllocError>
        ensures { IfOk result (λ place. place ≡ place_in word.now) }
    {
        match parse_number(1, u64::from(u16::MAX), word) {
            Some(port) => Ok(Some(Place::Port(port as u16))),
            None => match Address::parse(alloc, word)? {
                Some(address) => Ok(Some(Place::Address(address))),
                None => Ok(None),
            },
        }
    }

    /// The address: that of a port is of 127.0.0.1.
    pub fn address(&self) -> Address
        ensures { result ≡ address_at self.now }
    {
        match self {
            Place::Port(port) => Address::on_this_machine(*port),
            Place::Address(address) => *address,
        }
    }

    /// The kind of place.
    pub fn kind(&self) -> PlaceKind
        ensures { result ≡ kind_of self.now }
    {
        match self {
            Place::Port(_) => PlaceKind::Port,
            Place::Address(address) if address.is_ipv4() => PlaceKind::Ipv4,
            Place::Address(_) => PlaceKind::Ipv6,
        }
    }
}

impl Display for Place {
    ghost use Rattle.std.specs.Prelude.{Some};
    ghost use Rattle.members_file.specs.Places.{place_text};

    ghost output = { λ place. Some (place_text place) };

    fn fmt<W: fmt::Write>(&self, f: &mut fmt::Formatter<W>) -> fmt::Result {
        match self {
            Place::Port(port) => Display::fmt(port, f),
            Place::Address(address) => Display::fmt(address, f),
        }
    }
}
