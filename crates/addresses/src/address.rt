ghost use Rattle.std.specs.Prelude.{◌≡◌, ◌<◌};
ghost use Rattle.addresses.specs.Addresses.{at_port, is_on_this_machine, port_of};
ghost use Rattle.addresses.specs.Texts.{ADDRESSES, is_ipv4, is_listable, of_socket, socket_of};
ghost use Rattle.addresses.specs.Texts.{is_multicast, is_unspecified};

use std::marker::Model;
use std::net::{IpAddr, Ipv4Addr, Ipv6Addr, SocketAddr};

/// The address of IPv6 to which 0.0.0.0 is mapped: `::ffff:0.0.0.0`.
const MAPPED: u128 = 0xffff_0000_0000;

/// 255.255.255.255, as it is mapped.
const BROADCAST: u128 = 0xffff_ffff_ffff;

/// 127.0.0.1, as it is mapped.
const THIS_MACHINE: u128 = 0xffff_7f00_0001;

/// A host's address and one of its ports. A clause sees their number.
#[derive(Clone, Copy, Debug)]
pub struct Address {
    /// The bits of the host's address of IPv6. That of a host of IPv4 is IPv4-mapped.
    host: u128,
    port: u16,
}

impl Model for Address {
    ghost use Rattle.std.specs.Prelude.{ℕ};
    ghost use Rattle.std.specs.Coded.{coded_ℕ};
    ghost use Rattle.addresses.specs.Addresses.{IsHost, IsPort, address_of, host_of, port_of};

    ghost Value = { ℕ };

    ghost coded = { coded_ℕ };

    ghost view = { λ a. address_of a.host a.port };

    ghost invariant = { λ a. IsHost a.host × IsPort a.port };

    ghost inverse = { λ n. record { host = host_of n; port = port_of n } };
}

impl PartialEq for Address {
    ghost use Rattle.std.specs.Prelude.{◌==◌};
    ghost use Rattle.std.proofs.Common.{rules};
    ghost use Rattle.std.specs.Cmp.Rules.{comparing};

    ghost eq = { ◌==◌ };

    ghost laws = { Prim.search (comparing, rules) };

    fn eq(&self, other: &Address) -> bool {
        self.host == other.host && self.port == other.port
    }
}

impl Eq for Address {
    ghost use Rattle.std.proofs.Common.{rules};
    ghost use Rattle.std.specs.Cmp.Rules.{comparing};

    ghost laws = { Prim.search (comparing, rules) };
}

impl Address {
    /// This port of this machine: of 127.0.0.1.
    pub const fn on_this_machine(port: u16) -> Address
        ensures { result ≡ at_port port }
    {
        Address {
            host: THIS_MACHINE,
            port,
        }
    }

    /// The address at which a client of this one has its socket: any of this machine of the same
    /// family, at a port that is free.
    pub fn for_clients(self) -> Address {
        let host = if self.is_ipv4() { MAPPED } else { 0 };
        Address { host, port: 0 }
    }

    /// The address of a socket. Neither a flow nor a scope of IPv6 is kept.
    #[tactic(auto, unfolding(crate::specs::Texts::of_socket))]
    pub fn of_socket(socket: SocketAddr) -> Address
        ensures value { result ≡ of_socket socket }
        ensures in_range { result < ADDRESSES }
    {
        let host = match socket.ip() {
            IpAddr::V4(host) => MAPPED + u128::from(host.to_bits()),
            IpAddr::V6(host) => host.to_bits(),
        };
        Address {
            host,
            port: socket.port(),
        }
    }

    /// The same for a socket.
    #[tactic(auto, unfolding(crate::specs::Texts::socket_of))]
    pub fn to_socket(self) -> SocketAddr
        ensures { result ≡ socket_of self }
    {
        let host = if self.is_ipv4() {
            IpAddr::V4(Ipv4Addr::from_bits((self.host % 0x1_0000_0000) as u32))
        } else {
            IpAddr::V6(Ipv6Addr::from_bits(self.host))
        };
        SocketAddr::new(host, self.port)
    }

    /// Whether the host's address is of IPv4.
    pub fn is_ipv4(self) -> bool
        ensures { result ≡ is_ipv4 self }
    {
        self.host / 0x1_0000_0000 == 0xffff
    }

    /// Whether a members file may list this address: the port isn't 0, and the host's address is
    /// none that is unspecified, of many hosts or of all.
    #[tactic(auto, unfolding(crate::specs::Texts::is_listable))]
    pub fn is_listable(self) -> bool
        ensures { result ≡ is_listable self }
    {
        self.port != 0
            && !is_unspecified(self.host)
            && !is_multicast(self.host)
            && self.host != BROADCAST
    }

    /// Whether the host is this machine, by 127.0.0.1.
    pub fn is_on_this_machine(self) -> bool
        ensures { result ≡ is_on_this_machine self }
    {
        self.host == THIS_MACHINE
    }

    /// The port.
    pub fn port(self) -> u16
        ensures { result ≡ port_of self }
    {
        self.port
    }
}

// Whether this is `::` or 0.0.0.0.
fn is_unspecified(host: u128) -> bool
    ensures { result ≡ is_unspecified host }
{
    host == 0 || host == MAPPED
}

// Whether this is in ff00::/8 or in 224.0.0.0/4.
fn is_multicast(host: u128) -> bool
    ensures { result ≡ is_multicast host }
{
    host / 0x100_0000_0000_0000_0000_0000_0000_0000 == 0xff
        || (host / 0x1_0000_0000 == 0xffff && host / 0x1000_0000 % 16 == 0b1110)
}
