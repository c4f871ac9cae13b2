//! Where datagrams come from and go to: a host's address, of IPv4 or IPv6, and one of its ports.
//!
//! ```
//! let socket = UdpSocket::bind(net, at.to_socket())?;
//! ```
#![tactic(auto)]

mod address;
mod law;
mod text;

pub use address::Address;
pub use law::addresses_law;
