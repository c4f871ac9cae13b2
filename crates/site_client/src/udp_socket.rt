//! The socket of a site, or of a client.

use crate::stop::Stop;
use addresses::Address;
use fed_types::{Members, SiteNo};
use members_file::MemberSites;
use tags::KeyRing;
use udp_site::{Origins, PortFault, UdpPort, Waits};

/// The socket of a client that asks the site of this address, among these, at a free port: of
/// 127.0.0.1, where the sites are there by their ports alone. Its datagrams have tags where there
/// are keys.
pub fn client_socket(
    rt: &HostRuntime,
    sites: &MemberSites,
    target: Address,
    waits: Waits,
    keys: Option<KeyRing>,
) -> Result<UdpPort, Stop> {
    let federation = sites.members().federation();
    let (at, origins) = if sites.names_addresses() {
        (target.for_clients(), Origins::Anywhere)
    } else {
        (Address::on_this_machine(0), Origins::ThisMachine)
    };
    found(keys, UdpPort::bind(rt, federation, at, origins, waits))
}

/// The socket of a site of these members, at this address, for what comes from these.
pub fn site_socket(
    rt: &HostRuntime,
    members: Members,
    site: SiteNo,
    at: Address,
    origins: Origins,
    waits: Waits,
    keys: Option<KeyRing>,
) -> Result<UdpPort, Stop> {
    found(
        keys,
        UdpPort::bind_site(rt, members, site, at, origins, waits),
    )
}

// The port, with its keys, or why there is none.
fn found(keys: Option<KeyRing>, port: Result<UdpPort, PortFault>) -> Result<UdpPort, Stop> {
    match port {
        Ok(port) => Ok(with_keys(port, keys)),
        Err(PortFault::Device) => Err(Stop::Socket),
        Err(PortFault::Memory) => Err(Stop::Memory),
    }
}

fn with_keys(mut port: UdpPort, keys: Option<KeyRing>) -> UdpPort {
    if let Some(keys) = keys {
        port.seal_with(keys);
    }
    port
}
