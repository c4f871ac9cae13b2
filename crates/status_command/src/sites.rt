//! The sites that are asked, and the socket.

use addresses::Address;
use fed_types::SiteNo;
use members_file::MemberSites;
use site_client::{Stop, addresses_of, client_socket, keys_for, members_at};
use standings::Polled;
use std::alloc::{AllocError, Global};
use udp_site::{UdpPort, Waits};

/// A federation, its sites, which haven't answered, and the socket from which they are asked.
#[derive(Drop)]
pub(crate) struct Federation {
    pub(crate) number: u64,
    pub(crate) sites: Vec<Polled>,
    pub(crate) port: UdpPort,
}

/// The federation of the members file at this path. All its addresses are of one family.
pub(crate) fn federation_at(
    rt: &HostRuntime,
    members: &str,
    key: Option<&str>,
    wait: u32,
) -> Result<Federation, Stop> {
    let members = members_at(rt, members)?;
    let addresses = addresses_of(rt.alloc(), &members)?;
    let keys = keys_for(rt, key)?;
    let Some(target) = addresses.first() else {
        return Err(Stop::NotAMember);
    };
    Ok(Federation {
        number: members.members().federation(),
        sites: sites_at(rt.alloc(), addresses.as_slice())?,
        port: client_socket(rt, &members, *target, Waits::always(wait), keys)?,
    })
}

fn sites_at(alloc: Global, addresses: &[Address]) -> Result<Vec<Polled>, Stop> {
    let mut sites = Vec::new(alloc);
    let mut number = 0u8;
    for address in addresses {
        number = number.saturating_add(1);
        let Ok(site) = SiteNo::new(number) else {
            return Err(Stop::NotAMember);
        };
        let polled = Polled {
            site,
            address: *address,
            heard: None,
        };
        if sites.push(polled).is_err() {
            return Err(Stop::Memory);
        }
    }
    Ok(sites)
}
