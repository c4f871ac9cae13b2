//! From where datagrams count.

ghost use Rattle.std.specs.Prelude.{◌≡◌, ◌≤◌, length, take};
ghost use Rattle.udp_site.specs.Origins.{passes_over, counts, counted, comes_from, sender_byte};

use addresses::Address;
use tags::is_between_sites;

/// The place of the byte of the site that sends a message.
const SENDER_PLACE: usize = 12;

/// From where a port takes datagrams.
#[derive(Debug, Drop)]
pub enum Origins {
    /// From this machine alone: any other is passed over.
    ThisMachine,
    /// From anywhere.
    Anywhere,
    /// From anywhere, but a message between sites from the address of the site that sends it alone:
    /// these are the sites' addresses, that of site 1 first.
    Sites(Vec<Address>),
}

impl Origins {
    /// Whether a datagram from this address is passed over.
    pub fn pass_over(&self, from: Address) -> bool
        ensures { result ≡ passes_over self.now from }
    {
        match self {
            Origins::ThisMachine => !from.is_on_this_machine(),
            Origins::Anywhere | Origins::Sites(_) => false,
        }
    }

    /// Whether a datagram from this address counts for what it says.
    pub fn count(&self, from: Address, bytes: &[u8]) -> bool
        ensures { result ≡ counts self.now from bytes.now }
    {
        match self {
            Origins::ThisMachine | Origins::Anywhere => true,
            Origins::Sites(addresses) => {
                !is_between_sites(bytes) || comes_from(addresses, from, sender_byte(bytes))
            }
        }
    }

    /// How many bytes, from the first on, are handed on of a datagram from this address: all, or
    /// none where it doesn't count.
    pub(crate) fn counted(&self, from: Address, bytes: &[u8]) -> usize
        ensures part { take result bytes.now ≡ counted self.now from bytes.now }
        ensures within { result ≤ length bytes.now }
    {
        if self.count(from, bytes) {
            bytes.len()
        } else {
            0
        }
    }
}

// The byte of the site that sends a message, or 0 where there is none.
fn sender_byte(bytes: &[u8]) -> u8
    ensures { result ≡ sender_byte bytes.now }
{
    bytes.get(SENDER_PLACE).copied().unwrap_or(0)
}

// Whether this is the address of this site.
fn comes_from(addresses: &[Address], from: Address, site: u8) -> bool
    ensures { result ≡ comes_from addresses.now from site }
{
    if site == 0 {
        return false;
    }
    match addresses.get(usize::from(site) - 1) {
        Some(address) => *address == from,
        None => false,
    }
}
