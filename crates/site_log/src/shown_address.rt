//! An address as the log shows it.

use addresses::Address;
use std::fmt;
use std::fmt::Display;

/// An address as the log shows it: a port of 127.0.0.1 by its number.
#[derive(Clone, Copy)]
pub(crate) struct At(pub(crate) Address);

impl Display for At {
    fn fmt<W: fmt::Write>(&self, f: &mut fmt::Formatter<W>) -> fmt::Result {
        let At(address) = self;
        if address.is_on_this_machine() {
            address.port().fmt(f)
        } else {
            address.fmt(f)
        }
    }
}

/// Where a site serves, as the log's first line has it: `port P`, or `address ADDRESS:P`.
#[derive(Clone, Copy)]
pub(crate) struct ShownPlace(pub(crate) Address);

impl Display for ShownPlace {
    fn fmt<W: fmt::Write>(&self, f: &mut fmt::Formatter<W>) -> fmt::Result {
        let ShownPlace(address) = self;
        f.write_str(if address.is_on_this_machine() {
            "port "
        } else {
            "address "
        })?;
        At(*address).fmt(f)
    }
}
