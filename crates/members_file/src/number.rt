//! The number of a federation that comes from its list of sites, and the digest of a members file.

ghost use Rattle.std.specs.Prelude.{◌≡◌, IfOk};
ghost use Rattle.members_file.specs.Files.{weights_of};
ghost use Rattle.members_file.specs.Numbers.{weighed, new_number, old_number, digest_of_text};
ghost use Rattle.members_file.specs.Numbers.{is_listed, digest_of, upper_half};

use crate::listed_site::ListedSite;
use crate::member_sites::MemberSites;
use crate::read::weights_of;
use crate::text::{Weights, lines_of, text_of};
use sha2::{Digest, Sha256};
use std::alloc::{AllocError, Global};

/// The number of a federation whose upper half is this, and whose sites have these weights.
#[tactic(auto, unfolding(crate::specs::Numbers::new_number, crate::specs::Numbers::lower_half))]
pub(crate) fn number_of(
    alloc: Global,
    upper: [u8; 4],
    sites: &[ListedSite],
) -> Result<u64, AllocError>
    ensures { IfOk result (λ number. number ≡ new_number upper (weights_of sites.now)) }
{
    let bytes = weighed(alloc, upper, sites)?;
    let [a, b, c, d] = upper;
    let [e, f, g, h, ..] = Sha256::digest(&bytes);
    Ok(u64::from_be_bytes([a, b, c, d, e, f, g, h]))
}

// What the lower half is a digest of.
#[tactic(auto, unfolding(crate::specs::Numbers::weighed))]
fn weighed(alloc: Global, upper: [u8; 4], sites: &[ListedSite]) -> Result<Vec<u8>, AllocError>
    ensures { IfOk result (λ bytes. bytes.items ≡ weighed upper (weights_of sites.now)) }
{
    let weights = weights_of(alloc, sites)?;
    let mut bytes = Vec::new(alloc);
    bytes.extend_from_slice(&upper)?;
    bytes.extend_from_slice(&(weights.len() as u64).to_be_bytes())?;
    bytes.extend_from_slice(&weights)?;
    Ok(bytes)
}

/// Whether the federation's number comes from its list, by the rule of new members files; or, where
/// the file has ports alone, by the earlier rule.
#[tactic(auto, unfolding(crate::specs::Numbers::is_listed))]
pub fn is_listed(alloc: Global, file: &MemberSites) -> Result<bool, AllocError>
    ensures { IfOk result (λ listed. listed ≡ is_listed file.now) }
{
    let federation = file.members().federation();
    let number = number_of(alloc, upper_half(federation), file.sites())?;
    if federation == number {
        return Ok(true);
    }
    Ok(!file.names_addresses() && federation == old_number(alloc, file.sites())?)
}

// The upper half of a federation's number.
#[tactic(auto, unfolding(crate::specs::Numbers::upper_half))]
fn upper_half(federation: u64) -> [u8; 4]
    ensures { result ≡ upper_half federation }
{
    let [a, b, c, d, ..] = federation.to_be_bytes();
    [a, b, c, d]
}

// The number that comes from these sites by the rule of before.
#[tactic(auto, unfolding(crate::specs::Numbers::old_number))]
fn old_number(alloc: Global, sites: &[ListedSite]) -> Result<u64, AllocError>
    ensures { IfOk result (λ number. number ≡ old_number sites.now) }
{
    let text = lines_of(alloc, Weights::All, sites)?;
    Ok(digest_of_text(text.as_str()))
}

/// The digest of what a members file says: files with the same digest say the same.
#[tactic(auto, unfolding(crate::specs::Numbers::digest_of))]
pub fn digest_of(alloc: Global, file: &MemberSites) -> Result<u64, AllocError>
    ensures { IfOk result (λ digest. digest ≡ digest_of file.now) }
{
    let federation = file.members().federation();
    let text = text_of(alloc, Weights::All, federation, file.sites())?;
    Ok(digest_of_text(text.as_str()))
}

// The first 8 bytes of a text's digest.
#[tactic(auto, unfolding(crate::specs::Numbers::digest_of_text))]
fn digest_of_text(text: &str) -> u64
    ensures { result ≡ digest_of_text text.now }
{
    let [a, b, c, d, e, f, g, h, ..] = Sha256::digest(text.as_bytes());
    u64::from_be_bytes([a, b, c, d, e, f, g, h])
}
