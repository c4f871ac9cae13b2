//! Where a site is reached, and from where messages count.

use crate::site_arguments::SiteTask;
use addresses::Address;
use fed_types::SiteNo;
use members_file::MemberSites;
use site_client::{Stop, address_of, addresses_of};
use std::alloc::{AllocError, Global};
use udp_site::Origins;

/// The address of the site's socket: by the members file, or another of the same family, at which
/// what is sent to the first arrives.
pub(crate) fn own_address(
    alloc: Global,
    sites: &MemberSites,
    task: &SiteTask<'_>,
) -> Result<Address, Stop> {
    let named = address_of(sites, task.number)?;
    let Some(listen) = task.listen else {
        return Ok(named);
    };
    match Address::parse(alloc, listen.as_bytes()) {
        Ok(Some(at)) if sites.names_addresses() && at.is_ipv4() == named.is_ipv4() => Ok(at),
        Ok(_) => Err(Stop::Socket),
        Err(AllocError) => Err(Stop::Memory),
    }
}

/// The addresses of all sites, that of site 1 first. The site's own is the one of its socket: what
/// it says to itself counts as coming from there.
pub(crate) fn addresses_with(
    alloc: Global,
    sites: &MemberSites,
    own: SiteNo,
    at: Address,
) -> Result<Vec<Address>, Stop> {
    let mut addresses = addresses_of(alloc, sites)?;
    if let Some(address) = addresses.get_mut(usize::from(own.number()) - 1) {
        *address = at;
    }
    Ok(addresses)
}

/// From where a site of these takes datagrams. Where the members file names addresses, a message
/// between sites counts only from the address of the one that sends it.
pub(crate) fn origins_of(
    alloc: Global,
    sites: &MemberSites,
    addresses: &[Address],
) -> Result<Origins, Stop> {
    if !sites.names_addresses() {
        return Ok(Origins::ThisMachine);
    }
    match addresses.to_vec(alloc) {
        Ok(addresses) => Ok(Origins::Sites(addresses)),
        Err(AllocError) => Err(Stop::Memory),
    }
}
