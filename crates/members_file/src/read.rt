ghost use Rattle.std.specs.Prelude.{◌≡◌, IfOk, MatchResult};
ghost use Rattle.std.specs.Str.Lines.{lines};
ghost use Rattle.members_file.specs.Faults.{IsFaultOf};
ghost use Rattle.members_file.specs.Files.{IsTextOf, are_blank, weights_of};
ghost use Rattle.members_file.specs.inner.Sites.{HasSites};

use crate::line::{next_site, parse_federation};
use crate::listed_site::ListedSite;
use crate::member_sites::MemberSites;
use crate::members_fault::MembersFault;
use fed_types::Members;
use std::alloc::{AllocError, Global};
use tokens::{first_line, split_words};

/// The members and sites of a text, or the number of its first line at fault. `Memory` is answered
/// only if an allocation failed.
pub fn read_members(alloc: Global, text: &[u8]) -> Result<MemberSites, MembersFault>
    ensures { MatchResult result (IsTextOf text.now) (IsFaultOf text.now) }
{
    let (first, after) = first_line(text).ok_or(MembersFault::Line(1))?;
    let words = split_words(alloc, first)?;
    let federation = parse_federation(&words).ok_or(MembersFault::Line(1))?;
    let (sites, rest) = read_sites(alloc, after)?;
    let weights = weights_of(alloc, &sites)?;
    // Of all weights that are possible here, only an empty list is refused.
    let Ok(members) = Members::weighted(federation, &weights) else {
        return Err(MembersFault::Line(2));
    };
    if !is_blank(alloc, rest)? {
        return Err(MembersFault::Line(sites.len() + 2));
    }
    Ok(MemberSites::new(members, sites))
}

// The sites that come first, as many as there are, and the text after their lines.
fn read_sites(alloc: Global, text: &[u8]) -> Result<(Vec<ListedSite>, &[u8]), AllocError>
    ensures { IfOk result (λ x. HasSites (lines text.now) x.0.items (lines x.1.now)) }
{
    let mut sites = Vec::new(alloc);
    let mut rest = text;
    while let Some((line, after)) = first_line(rest) {
        let Some(site) = next_site(alloc, line, &sites)? else {
            break;
        };
        sites.push(site)?;
        rest = after;
    }
    Ok((sites, rest))
}

/// The weight of each site, in order.
pub(crate) fn weights_of(alloc: Global, sites: &[ListedSite]) -> Result<Vec<u8>, AllocError>
    ensures { IfOk result (λ weights. weights.items ≡ weights_of sites.now) }
{
    sites.iter().map(|site| site.weight).collect(alloc)
}

// Whether no line has a word.
fn is_blank(alloc: Global, text: &[u8]) -> Result<bool, AllocError>
    ensures { IfOk result (λ blank. blank ≡ are_blank (lines text.now)) }
{
    let mut rest = text;
    while let Some((line, after)) = first_line(rest) {
        if !split_words(alloc, line)?.is_empty() {
            return Ok(false);
        }
        rest = after;
    }
    Ok(true)
}
