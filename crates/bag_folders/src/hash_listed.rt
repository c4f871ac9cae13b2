ghost use Rattle.std.specs.Prelude.{IfOk, IfErr, string_bytes};
ghost use Rattle.bag_folders.specs.Disk.{IsFactBy};
ghost use Rattle.bag_folders.specs.Folders.{IsWalkFault};

use crate::failure::Failure;
use crate::folder_listing::ListedFile;
use crate::listed_bytes::ListedBytes;
use crate::open_bag::OpenBag;
use crate::read_file::hash_watched;
use crate::watcher::Watcher;
use bag_tree::{Algorithms, FileFacts, TreeFault};
use std::alloc::Global;
use std::fs::Files;

/// The facts of a file that was listed.
pub(crate) fn hash_listed<R: Files + AllocGlobal + Clone + Drop, W: Watcher>(
    alloc: Global,
    bag: &mut OpenBag<'_, R>,
    listed: &ListedFile,
    wanted: Algorithms,
    watcher: &mut W,
) -> Result<FileFacts, Failure>
    ensures digests { IfOk result (λ facts. IsFactBy wanted (string_bytes listed.now.path) facts) }
    ensures faults { IfErr result (λ failure. IsWalkFault failure.fault) }
{
    match hash_file(alloc, bag, listed, wanted, watcher) {
        Ok(facts) => {
            watcher.file_done();
            Ok(facts)
        }
        Err(fault) => {
            let place = String::from_str(alloc, listed.path.as_str())?;
            Err(Failure::at(place, fault))
        }
    }
}

/// The same. A file that took its place after it was listed isn't read, and a file that grows is
/// read no further than its listed length.
fn hash_file<R: Files + AllocGlobal + Clone + Drop, W: Watcher>(
    alloc: Global,
    bag: &mut OpenBag<'_, R>,
    listed: &ListedFile,
    wanted: Algorithms,
    watcher: &mut W,
) -> Result<FileFacts, TreeFault>
    ensures digests { IfOk result (λ facts. IsFactBy wanted (string_bytes listed.now.path) facts) }
    ensures faults { IfErr result IsWalkFault }
{
    let mut file = bag.open(listed)?;
    let mut file = ListedBytes::new(&mut file, listed.look.length);
    hash_watched(alloc, listed.path.as_str(), wanted, &mut file, watcher)
}
