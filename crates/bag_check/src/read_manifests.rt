ghost use Rattle.std.specs.Prelude.{[], IfOk, IfErr, OnOk};
ghost use Rattle.bag_check.specs.Manifests.{manifest_at, manifests_of_kind, manifests_of};
ghost use Rattle.bag_check.specs.inner.Order.{Reads, FailsToRead};

use crate::fault::BagFault;
use crate::files_by_path::FilesByPath;
use crate::listing::Listing;
use crate::manifests::{ALGORITHMS, Kind};
use bag_text::{Algorithm, TextFault, manifest};
use std::alloc::Global;

/// What each manifest lists; `MalformedLine`, where a line of one of them is malformed, or
/// `Memory`.
pub(crate) fn listings<'a>(
    alloc: Global,
    files: &FilesByPath<'a>,
) -> Result<Vec<Listing<'a>>, BagFault>
    ensures ok { IfOk result (λ found. Reads (manifests_of files.now) [] found.items) }
    ensures err { IfErr result (FailsToRead (manifests_of files.now)) }
{
    let mut found = Vec::new(alloc);
    read_kind(alloc, files, Kind::Payload, &mut found)?;
    read_kind(alloc, files, Kind::Tag, &mut found)?;
    Ok(found)
}

/// Reads the manifests of this kind.
fn read_kind<'a>(
    alloc: Global,
    files: &FilesByPath<'a>,
    kind: Kind,
    found: &mut Vec<Listing<'a>>,
) -> Result<(), BagFault>
    ensures ok { OnOk result
        (Reads (manifests_of_kind kind files.now) found.old.items found.new.items) }
    ensures err { IfErr result (FailsToRead (manifests_of_kind kind files.now)) }
{
    for algorithm in &ALGORITHMS {
        read(alloc, files, kind, *algorithm, found)?;
    }
    Ok(())
}

/// Reads the manifest of this kind and algorithm, where there is one.
fn read<'a>(
    alloc: Global,
    files: &FilesByPath<'a>,
    kind: Kind,
    algorithm: Algorithm,
    found: &mut Vec<Listing<'a>>,
) -> Result<(), BagFault>
    ensures ok { OnOk result
        (Reads (manifest_at kind algorithm files.now) found.old.items found.new.items) }
    ensures err { IfErr result (FailsToRead (manifest_at kind algorithm files.now)) }
{
    let Some(text) = files.text_at(kind.manifest_name(algorithm)) else {
        return Ok(());
    };
    let entries = match manifest(alloc, algorithm, text) {
        Ok(entries) => entries,
        Err(TextFault::Malformed(_)) => return Err(BagFault::MalformedLine),
        Err(TextFault::Memory) => return Err(BagFault::Memory),
    };
    found.push(Listing::new(kind, algorithm, entries))?;
    Ok(())
}
