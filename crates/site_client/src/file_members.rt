//! The members file that the arguments name.

use crate::stop::Stop;
use addresses::Address;
use fed_types::SiteNo;
use members_file::{MemberSites, MembersFault, is_listed, read_members};
use outcomes::{ReadFault, read_within};
use std::alloc::{AllocError, Global};
use std::fs::{File, Files};
use std::io::{ErrorKind, Read};

/// How many times a members file is read at most, up to 8192 bytes each time. What doesn't end
/// then, as a device, isn't one.
const MOST_READS: u32 = 4096;

/// The members in the file of this path.
pub fn members_at<R: Files + AllocGlobal>(rt: &R, path: &str) -> Result<MemberSites, Stop> {
    match File::open(rt, path) {
        Ok(mut file) => members_in(rt.alloc(), &mut file),
        Err(error) if error.kind() == ErrorKind::OutOfMemory => Err(Stop::Memory),
        Err(_) => Err(Stop::MembersUnread),
    }
}

// The members that a reader has left.
fn members_in<R: Read>(alloc: Global, input: &mut R) -> Result<MemberSites, Stop> {
    match read_within(alloc, input, MOST_READS) {
        Ok(text) => match read_members(alloc, text.as_slice()) {
            Ok(members) => Ok(members),
            Err(MembersFault::Line(line)) => Err(Stop::MembersLine(line)),
            Err(MembersFault::Memory) => Err(Stop::Memory),
        },
        Err(ReadFault::Input) => Err(Stop::MembersUnread),
        Err(ReadFault::Memory) => Err(Stop::Memory),
    }
}

/// Refuses a file that was cut, or has other weights: the federation's number has to come from its
/// list.
pub fn expect_listed(alloc: Global, members: &MemberSites) -> Result<(), Stop> {
    match is_listed(alloc, members) {
        Ok(true) => Ok(()),
        Ok(false) => Err(Stop::OtherList),
        Err(AllocError) => Err(Stop::Memory),
    }
}

/// The address of the site of this number, if it is a member.
pub fn address_of(members: &MemberSites, number: SiteNo) -> Result<Address, Stop> {
    let place = usize::from(number.number()) - 1;
    match members.sites().get(place) {
        Some(site) => Ok(site.address()),
        None => Err(Stop::NotAMember),
    }
}

/// The addresses of all sites, that of site 1 first.
pub fn addresses_of(alloc: Global, members: &MemberSites) -> Result<Vec<Address>, Stop> {
    match members.addresses(alloc) {
        Ok(addresses) => Ok(addresses),
        Err(AllocError) => Err(Stop::Memory),
    }
}
