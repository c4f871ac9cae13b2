ghost use Rattle.std.specs.Prelude.{◌≡◌, codes};
ghost use Rattle.std.specs.List.{list_any};
ghost use Rattle.bag_text.specs.Readers.{declaration_of};
ghost use Rattle.bag_check.specs.Check.{is_supported_version, is_supported_encoding};
ghost use Rattle.bag_check.specs.Manifests.{text_at, is_unknown};
ghost use Rattle.bag_check.specs.inner.Order.{fault_of_declaration, fault_of_declared};
ghost use Rattle.bag_check.specs.inner.Order.{fault_of_names, fault_of_tag_files};

use crate::fault::BagFault;
use crate::files_by_path::FilesByPath;
use crate::manifests::{Kind, is_known_manifest, is_manifest};
use bag_text::{Algorithm, declaration};
use bag_tree::FileFacts;

/// The first fault that shows without reading a manifest: in the declaration, or in which files
/// there are.
#[tactic(auto, unfolding(crate::specs::inner::Order::fault_of_tag_files))]
pub(crate) fn fault_of_tag_files(files: &FilesByPath<'_>, payload: bool) -> Option<BagFault>
    ensures { result ≡ fault_of_tag_files files.now payload }
{
    match fault_of_declaration(files) {
        Some(fault) => Some(fault),
        None => fault_of_names(files, payload),
    }
}

fn fault_of_declaration(files: &FilesByPath<'_>) -> Option<BagFault>
    ensures { result ≡ fault_of_declaration (text_at (codes "bagit.txt") files.now) }
{
    match files.text_at("bagit.txt") {
        None => Some(BagFault::NoDeclaration),
        Some(text) => fault_of_declared(text),
    }
}

fn fault_of_declared(text: &[u8]) -> Option<BagFault>
    ensures { result ≡ fault_of_declared (declaration_of text.now) }
{
    let Ok(declared) = declaration(text) else {
        return Some(BagFault::BadDeclaration);
    };
    if !is_supported_version(declared.version) {
        Some(BagFault::UnsupportedVersion)
    } else if !is_supported_encoding(declared.encoding) {
        Some(BagFault::UnsupportedEncoding)
    } else {
        None
    }
}

/// Whether a declared version is read: `1.0` or `0.97`.
pub fn is_supported_version(version: &[u8]) -> bool
    ensures { result ≡ is_supported_version version.now }
{
    version == b"1.0".as_slice() || version == b"0.97".as_slice()
}

/// Whether a declared encoding is read: `UTF-8`, compared without its case.
pub fn is_supported_encoding(encoding: &[u8]) -> bool
    ensures { result ≡ is_supported_encoding encoding.now }
{
    encoding.eq_ignore_ascii_case(b"UTF-8")
}

#[tactic(auto, unfolding(crate::specs::inner::Order::fault_of_names))]
fn fault_of_names(files: &FilesByPath<'_>, payload: bool) -> Option<BagFault>
    ensures { result ≡ fault_of_names files.now payload }
{
    if files.has_file("fetch.txt") {
        Some(BagFault::HasFetch)
    } else if !payload {
        Some(BagFault::NoPayloadFolder)
    } else if !files.has_file(Kind::Payload.manifest_name(Algorithm::Sha512)) {
        Some(BagFault::NoSha512Manifest)
    } else if some_unknown(files.files()) {
        Some(BagFault::UnknownAlgorithm)
    } else {
        None
    }
}

/// Whether a manifest is of an algorithm that isn't read.
fn some_unknown(files: &[FileFacts]) -> bool
    ensures { result ≡ list_any is_unknown files.now }
{
    files.iter().any(|file| is_unknown(file))
}

/// Whether a file is a manifest of an algorithm that isn't read.
#[tactic(auto, unfolding(crate::specs::Manifests::is_unknown))]
pub fn is_unknown(file: &FileFacts) -> bool
    ensures { result ≡ is_unknown file.now }
{
    let path = file.path();
    is_manifest(path) && !is_known_manifest(path)
}
