//! The site that is asked, and all others.

use addresses::Address;
use fed_types::SiteNo;
use site_client::{Stop, address_of, addresses_of, client_socket, keys_for, members_at};
use udp_site::{UdpPort, Waits};

/// Which site is to be asked.
#[derive(Clone, Copy, Debug)]
pub struct SiteToAsk<'a> {
    /// The path of the members file.
    pub members: &'a str,
    /// The path of the key file, if there is one.
    pub key: Option<&'a str>,
    pub to: SiteNo,
    /// How many milliseconds an answer may take.
    pub wait: u32,
}

/// The federation, the address of the site that is asked, those of all sites, and the socket from
/// which it is asked.
#[derive(Drop)]
pub struct Sites {
    pub federation: u64,
    pub target: Address,
    /// That of site 1 first.
    pub addresses: Vec<Address>,
    pub port: UdpPort,
}

/// The site that is to be asked, and the others of its members file.
pub fn sites_for(rt: &HostRuntime, task: &SiteToAsk<'_>) -> Result<Sites, Stop> {
    let members = members_at(rt, task.members)?;
    let target = address_of(&members, task.to)?;
    let addresses = addresses_of(rt.alloc(), &members)?;
    let keys = keys_for(rt, task.key)?;
    Ok(Sites {
        federation: members.members().federation(),
        target,
        addresses,
        port: client_socket(rt, &members, target, Waits::always(task.wait), keys)?,
    })
}
