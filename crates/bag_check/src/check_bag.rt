ghost use Rattle.std.specs.Prelude.{◌≡◌, [], unwrap_or, IfOk, MatchResult};
ghost use Rattle.sha2.specs.Sha512.{sha512};
ghost use Rattle.fed_types.specs.Faults.{IsOrFault};
ghost use Rattle.bag_check.specs.Manifests.{text_at, sha512_manifest};
ghost use Rattle.bag_check.specs.Check.{check_of, identity_of};
ghost use Rattle.bag_check.specs.Complete.{complete_of};
ghost use Rattle.bag_check.specs.Valid.{IsValid};
ghost use Rattle.bag_check.specs.inner.Despite.{despite};

use crate::entries::fault_of_listings;
use crate::fault::BagFault;
use crate::files_by_path::FilesByPath;
use crate::manifests::Kind;
use crate::read_manifests::listings;
use crate::tag_files::fault_of_tag_files;
use bag_text::Algorithm;
use bag_tree::{Facts, FileFacts};
use fed_types::BagId;
use sha2::{Digest, Sha512};
use std::alloc::Global;

/// The identity of the bag that these are the facts of, or the first fault that holds, in the order
/// of their numbers (RFC 8493, 3). `Memory` is answered only where memory ran out.
pub fn check(alloc: Global, facts: &Facts) -> Result<BagId, BagFault>
    // What has an identity is a valid bag, as the standard says it, in this project's profile.
    ensures valid { IfOk result (λ bag. IsValid facts.now × (bag ≡ identity_of facts.now)) }
    // A valid bag has its identity, unless memory runs out.
    ensures only { IsValid facts.now → MatchResult result (λ bag. bag ≡ identity_of facts.now)
        (λ fault. fault ≡ BagFault.Memory) }
    // The same as a function, with the fault where there is one.
    ensures exact { IsOrFault BagFault.Memory result (check_of facts.now) }
{
    identity_or_fault(alloc, facts)
}

/// The same, whatever the digests are: the identity of the complete bag that these are the facts of
/// (RFC 8493, 3), or the first fault that holds and isn't `WrongDigest`.
pub fn check_complete(alloc: Global, facts: &Facts) -> Result<BagId, BagFault>
    ensures { IsOrFault BagFault.Memory result (complete_of facts.now) }
{
    match identity_or_fault(alloc, facts) {
        Ok(bag) => Ok(bag),
        Err(fault) => identity_despite(alloc, facts, fault),
    }
}

/// What is answered where digests don't count, and a check refuses the bag for this fault.
fn identity_despite(alloc: Global, facts: &Facts, fault: BagFault) -> Result<BagId, BagFault>
    ensures { IsOrFault BagFault.Memory result (despite facts.now fault) }
{
    match fault {
        BagFault::WrongDigest => Ok(identity(&FilesByPath::new(alloc, facts.files())?)),
        fault => Err(fault),
    }
}

fn identity_or_fault(alloc: Global, facts: &Facts) -> Result<BagId, BagFault>
    ensures { IsOrFault BagFault.Memory result (check_of facts.now) }
{
    let files = FilesByPath::new(alloc, facts.files())?;
    if let Some(fault) = fault_of_tag_files(&files, facts.payload_exists()) {
        return Err(fault);
    }
    let listings = listings(alloc, &files)?;
    if let Some(fault) = fault_of_listings(alloc, listings.as_slice(), &files)? {
        return Err(fault);
    }
    Ok(identity(&files))
}

/// The SHA-512 of the bytes of `manifest-sha512.txt`, as they are; of no bytes if there is no such
/// file.
fn identity(files: &FilesByPath<'_>) -> BagId
    ensures { result ≡ record { 0 = sha512 (unwrap_or (text_at sha512_manifest files.now) []) } }
{
    match files.file_at(Kind::Payload.manifest_name(Algorithm::Sha512)) {
        None => BagId(Sha512::digest(b"")),
        Some(manifest) => BagId(sha512_of_text(manifest)),
    }
}

/// The SHA-512 of a file's text, or of no bytes, where it has none.
fn sha512_of_text(file: &FileFacts) -> [u8; 64]
    ensures { result ≡ sha512 (unwrap_or file.now.text []) }
{
    match file.sha512_of_text() {
        None => Sha512::digest(b""),
        Some(digest) => digest,
    }
}
