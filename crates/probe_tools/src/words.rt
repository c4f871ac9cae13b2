use crate::fault::ToolFault;
use cell_device::{Fuse, How};
use fed_types::{Members, SiteNo, Slot};
use std::alloc::Global;

/// The members of federation F, sites 1 to N.
pub(crate) fn members_of(words: &[&str]) -> Result<Members, ToolFault> {
    match words {
        [federation, count] => {
            let federation = federation.parse::<u64>().or(Err(ToolFault::Line))?;
            let count = count.parse::<u8>().or(Err(ToolFault::Line))?;
            Ok(Members::new(federation, count)?)
        }
        _ => Err(ToolFault::Line),
    }
}

pub(crate) fn site_of(word: &str) -> Result<SiteNo, ToolFault> {
    Ok(SiteNo::new(word.parse::<u8>().or(Err(ToolFault::Line))?)?)
}

/// The place of what has this number, counted from 1.
pub(crate) fn place_of_number(word: &str) -> Result<usize, ToolFault> {
    let number = word.parse::<usize>().or(Err(ToolFault::Line))?;
    number.checked_sub(1).ok_or(ToolFault::Line)
}

pub(crate) fn slot_of(alloc: Global, object: &str, version: &str) -> Result<Slot, ToolFault> {
    let version = version.parse::<u32>().or(Err(ToolFault::Line))?;
    Ok(Slot::new(String::from_str(alloc, object)?, version)?)
}

/// The bytes of these hex digits; none of `-`.
pub(crate) fn bytes_of(alloc: Global, digits: &str) -> Result<Vec<u8>, ToolFault> {
    if digits == "-" {
        Ok(Vec::new(alloc))
    } else {
        Ok(hex::decode(alloc, digits)?)
    }
}

/// The fuse that makes the device call of a number fail, or stop the device, and keeps a number of
/// the pending bytes.
pub(crate) fn fuse_of(words: &[&str]) -> Result<Fuse, ToolFault> {
    match words {
        [how, call, kept] => {
            let how = how_of(how)?;
            let call = call.parse::<usize>().or(Err(ToolFault::Line))?;
            let kept = kept.parse::<usize>().or(Err(ToolFault::Line))?;
            Ok(Fuse { call, how, kept })
        }
        _ => Err(ToolFault::Line),
    }
}

fn how_of(word: &str) -> Result<How, ToolFault> {
    match word {
        "fail" => Ok(How::Fail),
        "stop" => Ok(How::Stop),
        _ => Err(ToolFault::Line),
    }
}
