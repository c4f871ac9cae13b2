//! Sites as the words of an argument.

use code_words::{push_pair_words, push_place_words};
use fed_types::{GREATEST_WEIGHT, MOST_MEMBERS};
use members_file::{ListedSite, Place};
use std::alloc::{AllocError, Global};
use std::net::SocketAddr;
use tokens::parse_number;

const FORM: &str =
    "a site is PORT, ADDRESS:PORT, or one of these and :WEIGHT, a weight being 1 to 255";

/// What is amiss in a list of sites, each as `PLACE` or `PLACE:WEIGHT`, if anything is.
pub(crate) fn list_fault(alloc: Global, words: &[&str]) -> Result<Option<String>, AllocError> {
    let mut text = String::new(alloc);
    if words.len() > usize::from(MOST_MEMBERS) {
        text.push_str("there are at most 63 sites")?;
        return Ok(Some(text));
    }
    let mut sites = Vec::new(alloc);
    for word in words {
        let Some(site) = site_in(alloc, word)? else {
            push_word_fault(alloc, &mut text, word)?;
            return Ok(Some(text));
        };
        if let Some(why) = pair_fault(alloc, sites.as_slice(), &site)? {
            write!(text, "{word}: {why}")?;
            return Ok(Some(text));
        }
        sites.push(site)?;
    }
    Ok(None)
}

/// The sites of the words that are some.
pub(crate) fn sites_in(alloc: Global, words: &[&str]) -> Result<Vec<ListedSite>, AllocError> {
    let mut sites = Vec::new(alloc);
    for word in words {
        push_site(alloc, &mut sites, word)?;
    }
    Ok(sites)
}

// Appends the site of a word that is one.
fn push_site(alloc: Global, sites: &mut Vec<ListedSite>, word: &str) -> Result<(), AllocError> {
    let Some(ListedSite { place, weight }) = site_in(alloc, word)? else {
        return Ok(());
    };
    Ok(sites.push(ListedSite { place, weight })?)
}

// Why this site can't stand beside these, if it can't.
fn pair_fault(
    alloc: Global,
    sites: &[ListedSite],
    site: &ListedSite,
) -> Result<Option<String>, AllocError> {
    for place in 0..sites.len() {
        let mut why = String::new(alloc);
        if push_pair_words(&mut why, place + 1, &sites[place].place, &site.place)? {
            return Ok(Some(why));
        }
    }
    Ok(None)
}

// Appends why a word is no site.
fn push_word_fault(alloc: Global, text: &mut String, word: &str) -> Result<(), AllocError> {
    if let Some((front, _)) = parts_of(word) {
        if Place::parse(alloc, front.as_bytes())?.is_some() {
            return write!(
                text,
                "{word}: the weight after the last colon has to be 1 to 255"
            );
        }
        if SocketAddr::parse_ascii(front.as_bytes()).is_ok() {
            return push_place_words(text, front.as_bytes());
        }
    }
    push_place_words(text, word.as_bytes())?;
    text.push_str("; ")?;
    text.push_str(FORM)
}

// The site of a word: all of it is a place, or it ends in a colon and a weight.
fn site_in(alloc: Global, word: &str) -> Result<Option<ListedSite>, AllocError> {
    if let Some(place) = Place::parse(alloc, word.as_bytes())? {
        return Ok(Some(ListedSite { place, weight: 1 }));
    }
    let Some((front, weight)) = parts_of(word) else {
        return Ok(None);
    };
    let Some(weight) = parse_number(1, u64::from(GREATEST_WEIGHT), weight.as_bytes()) else {
        return Ok(None);
    };
    match Place::parse(alloc, front.as_bytes())? {
        Some(place) => Ok(Some(ListedSite {
            place,
            weight: weight as u8,
        })),
        None => Ok(None),
    }
}

// What is before the last colon of a word, and what is after it.
fn parts_of(word: &str) -> Option<(&str, &str)> {
    word.rsplit_once(':')
}
