//! A client of a site that serves: it reads the members file and the key file, opens a socket, asks
//! the site and takes its reply.
//!
//! ```
//! let members = members_at(rt, task.members)?;
//! let target = address_of(&members, task.to)?;
//! ```
#![tactic(auto)]

mod client;
mod client_answer;
mod exchange;
mod file_members;
mod handing;
mod key_files;
mod recovery;
mod reply;
mod request;
mod shared_arguments;
mod stop;
mod udp_socket;
mod until_known;

pub use client::{ask_about, ask_for_bag, send_on};
pub use file_members::{address_of, addresses_of, expect_listed, members_at};
pub use key_files::{keys_at, keys_for, site_keys_for};
pub use reply::{ClientReply, Wanted};
pub use request::Request;
pub use shared_arguments::{
    answer_argument, key_argument, members_argument, to_argument, wait_argument, words_argument,
};
pub use stop::{Stop, write_numbered, write_stop};
pub use udp_socket::{client_socket, site_socket};
pub use until_known::send_until_known;
