//! Addresses as text.

ghost use Rattle.std.specs.Prelude.{◌≡◌, IfOk};
ghost use Rattle.addresses.specs.Texts.{address_in};

use crate::address::Address;
use std::alloc::{AllocError, Global};
use std::fmt;
use std::fmt::Display;
use std::net::SocketAddr;

impl Display for Address {
    ghost use Rattle.std.specs.Prelude.{Some};
    ghost use Rattle.addresses.specs.Texts.{text_of};

    ghost output = { λ a. Some (text_of a) };

    #[tactic(auto, unfolding(crate::specs::Texts::text_of))]
    fn fmt<W: fmt::Write>(&self, f: &mut fmt::Formatter<W>) -> fmt::Result {
        Display::fmt(&self.to_socket(), f)
    }
}

impl Address {
    /// The address whose text this is, if a members file may list it. An address has one text, that
    /// which is printed: four decimals for IPv4, and RFC 5952's form in brackets for IPv6, with no
    /// zone; and the port with no leading zeros.
    pub fn parse(alloc: Global, text: &[u8]) -> Result<Option<Address>, AllocError>
        ensures { IfOk result (λ address. address ≡ address_in text.now) }
    {
        let Ok(socket) = SocketAddr::parse_ascii(text) else {
            return Ok(None);
        };
        let address = Address::of_socket(socket);
        let written = format!(in alloc; "{address}")?;
        if address.is_listable() && written.as_bytes() == text {
            Ok(Some(address))
        } else {
            Ok(None)
        }
    }
}
