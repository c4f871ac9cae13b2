ghost use Rattle.std.specs.Prelude.{◌≡◌, ◌∷◌, [], codes};
ghost use Rattle.std.specs.Option.{option_copied};
ghost use Rattle.bag_text.specs.Readers.{declaration_of};
ghost use Rattle.bag_check.specs.Check.{holds, is_supported_version, is_supported_encoding};
ghost use Rattle.bag_check.specs.Check.{declares_other};
ghost use Rattle.bag_check.specs.Manifests.{text_at, is_unknown};
ghost use Rattle.tokens.specs.Pushes.{Pushes};
ghost use Rattle.bag_explain.specs.Places.{when, at_file, at_line, faulty_line};
ghost use Rattle.bag_explain.specs.Places.{places_of};
ghost use Rattle.bag_explain.specs.Findings.{printed_places};
ghost use Rattle.bag_explain.specs.inner.Stages.{tree_of, printed_faults, first_faults};
ghost use Rattle.bag_explain.specs.inner.Stages.{printed_of};

use crate::print::{push_file, push_line};
use bag_check::{
    BagFault, FilesByPath, Kind, is_supported_encoding, is_supported_version, is_unknown,
};
use bag_text::{Algorithm, TextFault, declaration};
use bag_tree::PAYLOAD_FOLDER;
use std::alloc::AllocError;

/// Appends the lines of the faults for which no manifest is read.
pub(crate) fn push_tag_files(
    text: &mut String,
    files: &FilesByPath<'_>,
    payload: bool,
) -> Result<(), AllocError>
    ensures { Pushes result text.old text.new
        (printed_faults (tree_of files.now payload) first_faults) }
{
    push_no_declaration(text, files, payload)?;
    push_bad_declaration(text, files, payload)?;
    push_other_version(text, files, payload)?;
    push_other_encoding(text, files, payload)?;
    push_fetch(text, files, payload)?;
    push_no_payload(text, files, payload)?;
    push_no_manifest(text, files, payload)?;
    push_all_unknown(text, files, payload)
}

// ---- what bagit.txt declares

#[tactic(auto, unfolding(crate::specs::Places::places_of, bag_check::specs::Check::holds))]
fn push_no_declaration(
    text: &mut String,
    files: &FilesByPath<'_>,
    payload: bool,
) -> Result<(), AllocError>
    ensures { Pushes result text.old text.new
        (printed_of BagFault.NoDeclaration files.now payload) }
{
    push_if_file(
        text,
        !files.has_file("bagit.txt"),
        BagFault::NoDeclaration,
        "bagit.txt",
    )
}

// The line of bagit.txt that is malformed, missing or one too many.
#[tactic(auto, unfolding(crate::specs::Places::places_of, bag_check::specs::Check::holds))]
fn push_bad_declaration(
    text: &mut String,
    files: &FilesByPath<'_>,
    payload: bool,
) -> Result<(), AllocError>
    ensures { Pushes result text.old text.new
        (printed_of BagFault.BadDeclaration files.now payload) }
{
    match files.text_at("bagit.txt") {
        None => Ok(()),
        Some(declared) => push_bad_line_of(text, declared),
    }
}

#[tactic(auto, unfolding(crate::specs::Places::places_of, bag_check::specs::Check::holds))]
fn push_other_version(
    text: &mut String,
    files: &FilesByPath<'_>,
    payload: bool,
) -> Result<(), AllocError>
    ensures { Pushes result text.old text.new
        (printed_of BagFault.UnsupportedVersion files.now payload) }
{
    let declared = files.text_at("bagit.txt");
    push_if_line(
        text,
        has_other_version(declared),
        BagFault::UnsupportedVersion,
        1,
    )
}

#[tactic(auto, unfolding(crate::specs::Places::places_of, bag_check::specs::Check::holds))]
fn push_other_encoding(
    text: &mut String,
    files: &FilesByPath<'_>,
    payload: bool,
) -> Result<(), AllocError>
    ensures { Pushes result text.old text.new
        (printed_of BagFault.UnsupportedEncoding files.now payload) }
{
    let declared = files.text_at("bagit.txt");
    push_if_line(
        text,
        has_other_encoding(declared),
        BagFault::UnsupportedEncoding,
        2,
    )
}

fn push_bad_line_of(text: &mut String, declared: &[u8]) -> Result<(), AllocError>
    ensures { Pushes result text.old text.new
        (printed_places BagFault.BadDeclaration (faulty_line (declaration_of declared.now))) }
{
    match declaration(declared) {
        Ok(_) => Ok(()),
        Err(TextFault::Malformed(line)) => {
            push_line(text, BagFault::BadDeclaration, "bagit.txt", line)
        }
        Err(TextFault::Memory) => Err(AllocError),
    }
}

fn has_other_version(declared: Option<&[u8]>) -> bool
    ensures { result ≡ declares_other (λ version encoding. is_supported_version version)
        (option_copied declared.entry) }
{
    let Some(text) = declared else {
        return false;
    };
    match declaration(text) {
        Ok(found) => !is_supported_version(found.version),
        Err(_) => false,
    }
}

fn has_other_encoding(declared: Option<&[u8]>) -> bool
    ensures { result ≡ declares_other (λ version encoding. is_supported_encoding encoding)
        (option_copied declared.entry) }
{
    let Some(text) = declared else {
        return false;
    };
    match declaration(text) {
        Ok(found) => !is_supported_encoding(found.encoding),
        Err(_) => false,
    }
}

// ---- which files there are

#[tactic(auto, unfolding(crate::specs::Places::places_of, bag_check::specs::Check::holds))]
fn push_fetch(text: &mut String, files: &FilesByPath<'_>, payload: bool) -> Result<(), AllocError>
    ensures { Pushes result text.old text.new
        (printed_of BagFault.HasFetch files.now payload) }
{
    push_if_file(
        text,
        files.has_file("fetch.txt"),
        BagFault::HasFetch,
        "fetch.txt",
    )
}

#[tactic(auto, unfolding(crate::specs::Places::places_of, bag_check::specs::Check::holds))]
fn push_no_payload(
    text: &mut String,
    files: &FilesByPath<'_>,
    payload: bool,
) -> Result<(), AllocError>
    ensures { Pushes result text.old text.new
        (printed_of BagFault.NoPayloadFolder files.now payload) }
{
    push_if_file(text, !payload, BagFault::NoPayloadFolder, PAYLOAD_FOLDER)
}

#[tactic(auto, unfolding(crate::specs::Places::places_of, bag_check::specs::Check::holds))]
fn push_no_manifest(
    text: &mut String,
    files: &FilesByPath<'_>,
    payload: bool,
) -> Result<(), AllocError>
    ensures { Pushes result text.old text.new
        (printed_of BagFault.NoSha512Manifest files.now payload) }
{
    let name = Kind::Payload.manifest_name(Algorithm::Sha512);
    push_if_file(
        text,
        !files.has_file(name),
        BagFault::NoSha512Manifest,
        name,
    )
}

// The manifests of algorithms that aren't read.
fn push_all_unknown(
    text: &mut String,
    files: &FilesByPath<'_>,
    payload: bool,
) -> Result<(), AllocError>
    ensures { Pushes result text.old text.new
        (printed_of BagFault.UnknownAlgorithm files.now payload) }
{
    for file in files.files() {
        push_if_file(
            text,
            is_unknown(file),
            BagFault::UnknownAlgorithm,
            file.path(),
        )?;
    }
    Ok(())
}

// ---- a line, where a test passes

fn push_if_file(
    text: &mut String,
    test: bool,
    fault: BagFault,
    path: &str,
) -> Result<(), AllocError>
    ensures { Pushes result text.old text.new
        (printed_places fault (when test (at_file path.now ∷ []))) }
{
    if !test {
        return Ok(());
    }
    push_file(text, fault, path)
}

// The line of a line of bagit.txt.
fn push_if_line(
    text: &mut String,
    test: bool,
    fault: BagFault,
    line: usize,
) -> Result<(), AllocError>
    ensures { Pushes result text.old text.new
        (printed_places fault (when test (at_line (codes "bagit.txt") line ∷ []))) }
{
    if !test {
        return Ok(());
    }
    push_line(text, fault, "bagit.txt", line)
}
