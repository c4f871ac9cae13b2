ghost use Rattle.std.specs.Prelude.{◌≡◌, IfOk, string_bytes};
ghost use Rattle.members_file.specs.Files.{weights_of};
ghost use Rattle.members_file.specs.Numbers.{new_number};
ghost use Rattle.members_file.specs.Texts.{text_of};
ghost use Rattle.members_file.specs.declared.text.Weights.TheVariants.{Greater};

use crate::listed_site::ListedSite;
use crate::number::number_of;
use crate::text::{Weights, text_of};
use std::alloc::{AllocError, Global};

/// The members file of a new federation of these sites, site 1 first. The upper half of its number
/// is these random bytes; the lower half is a digest of them, of the number of sites and of their
/// weights. So two federations share a number only by chance, and a site that checks the number
/// refuses a list that lacks a site.
pub fn new_list(alloc: Global, random: [u8; 4], sites: &[ListedSite]) -> Result<String, AllocError>
    ensures { IfOk result (λ text. string_bytes text
        ≡ text_of Greater (new_number random (weights_of sites.now)) sites.now) }
{
    let federation = number_of(alloc, random, sites)?;
    text_of(alloc, Weights::Greater, federation, sites)
}
