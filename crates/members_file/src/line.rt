ghost use Rattle.std.specs.Prelude.{◌≡◌, ◌≤◌, map, IfOk, IfSome};
ghost use Rattle.tokens.specs.Words.{words_of};
ghost use Rattle.members_file.specs.Limits.{most_sites};
ghost use Rattle.members_file.specs.Lines.{federation_in, site_in, site_of, weight_in};
ghost use Rattle.members_file.specs.inner.Sites.{fits, goes_with, next_site};

use crate::listed_site::ListedSite;
use crate::place::Place;
use fed_types::{GREATEST_WEIGHT, MOST_MEMBERS};
use std::alloc::{AllocError, Global};
use tokens::{parse_number, split_words};

/// The federation's number, by the words `federation F`.
#[tactic(auto, unfolding(crate::specs::Lines::federation_in))]
pub(crate) fn parse_federation(words: &[&[u8]]) -> Option<u64>
    ensures { result ≡ federation_in (map (λ word. word.now) words.now) }
{
    let [name, federation] = words else {
        return None;
    };
    if *name != b"federation".as_slice() {
        return None;
    }
    parse_number(0, u64::MAX, federation)
}

// The number of a site, and what the words `site N PLACE` or `site N PLACE WEIGHT` say of it.
#[tactic(auto, unfolding(crate::specs::Lines::site_in))]
fn parse_site(alloc: Global, words: &[&[u8]]) -> Result<Option<(usize, ListedSite)>, AllocError>
    ensures { IfOk result (λ site. site ≡ site_in (map (λ word. word.now) words.now)) }
{
    let [name, site, place, weight @ ..] = words else {
        return Ok(None);
    };
    if *name != b"site".as_slice() {
        return Ok(None);
    }
    let place = Place::parse(alloc, place)?;
    Ok(site_of(
        parse_number(1, u64::from(MOST_MEMBERS), site),
        place,
        parse_weight(weight),
    ))
}

// A site's number and the site, where all of it could be read.
fn site_of(
    number: Option<u64>,
    place: Option<Place>,
    weight: Option<u8>,
) -> Option<(usize, ListedSite)>
    requires { IfSome number (λ n. n ≤ most_sites) }
    ensures { result ≡ site_of number place weight }
{
    let number = number? as usize;
    let place = place?;
    let weight = weight?;
    Some((number, ListedSite { place, weight }))
}

// The weight, by the words after the place; 1 where there are none.
#[tactic(auto, unfolding(crate::specs::Lines::weight_in))]
fn parse_weight(words: &[&[u8]]) -> Option<u8>
    ensures { result ≡ weight_in (map (λ word. word.now) words.now) }
{
    match words {
        [] => Some(1),
        [weight] => Some(parse_number(1, u64::from(GREATEST_WEIGHT), weight)? as u8),
        _ => None,
    }
}

// The next site, after these, by the words of its line.
#[tactic(auto, unfolding(crate::specs::inner::Sites::next_site))]
fn parse_next(
    alloc: Global,
    words: &[&[u8]],
    sites: &[ListedSite],
) -> Result<Option<ListedSite>, AllocError>
    ensures { IfOk result (λ site. site ≡ next_site sites.now (map (λ word. word.now) words.now)) }
{
    match parse_site(alloc, words)? {
        Some((number, site)) if number == sites.len() + 1 && fits(sites, &site.place) => {
            Ok(Some(site))
        }
        _ => Ok(None),
    }
}

// Whether a site at this place may stand beside each of these.
fn fits(sites: &[ListedSite], place: &Place) -> bool
    ensures { result ≡ fits sites.now place.now }
{
    sites.iter().all(|site| goes_with(&site.place, place))
}

// Whether a file may have sites at both places: they are of one kind, and not one address.
fn goes_with(first: &Place, second: &Place) -> bool
    ensures { result ≡ goes_with first.now second.now }
{
    first.kind() == second.kind() && first.address() != second.address()
}

/// The next site, after these, if the line names it.
pub(crate) fn next_site(
    alloc: Global,
    line: &[u8],
    sites: &[ListedSite],
) -> Result<Option<ListedSite>, AllocError>
    ensures { IfOk result (λ site. site ≡ next_site sites.now (words_of line.now)) }
{
    let words = split_words(alloc, line)?;
    parse_next(alloc, &words, sites)
}
