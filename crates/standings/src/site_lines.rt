//! What is said of each site, and at last of the federation.

ghost use Rattle.std.specs.Prelude.{◌≡◌, ◌++◌, ℕ, [], ◌∷◌, string_bytes};
ghost use Rattle.std.specs.List.{flat_map};
ghost use Rattle.tokens.specs.Pushes.{Pushes};
ghost use Rattle.standings.specs.Reports.{most_known, known_by, lacks, is_heard, is_well, well};
ghost use Rattle.standings.specs.Reports.{named, state_text, site_line, federation_line};

use crate::polled::{Heard, Polled};
use std::alloc::AllocError;
use udp_site::Standing;

/// How many bags the site knows that knows the most, or as many as files know, if those are more.
pub(crate) fn most_known(by_files: u64, sites: &[Polled]) -> u64
    ensures { result ≡ most_known by_files sites.now }
{
    sites
        .iter()
        .fold(by_files, |most, polled| most.max(known_by(polled.heard)))
}

fn known_by(heard: Option<Heard>) -> u64
    ensures { result ≡ known_by heard }
{
    match heard {
        Some(heard) => heard.standing.counts.known,
        None => 0,
    }
}

/// How many sites are well: they answer, lack nothing, and no deposit of theirs waits while they
/// hear no majority.
pub(crate) fn well(most: u64, sites: &[Polled]) -> usize
    ensures { result ≡ well most sites.now }
{
    sites
        .iter()
        .filter(|polled| is_well(most, polled.heard))
        .count()
}

fn is_well(most: u64, heard: Option<Heard>) -> bool
    ensures { result ≡ is_well most heard }
{
    match heard {
        Some(heard) => lacks(most, &heard) == 0 && is_heard(&heard.standing),
        None => false,
    }
}

fn is_heard(standing: &Standing) -> bool
    ensures { result ≡ is_heard standing.now }
{
    standing.counts.pending == 0 || standing.alone == 0
}

// How many bags at least are known elsewhere and not to the site.
fn lacks(most: u64, heard: &Heard) -> u64
    ensures { result ≡ lacks most heard.now }
{
    most.saturating_sub(heard.standing.counts.known)
}

/// Appends a line for each site.
pub(crate) fn push_sites(text: &mut String, most: u64, sites: &[Polled]) -> Result<(), AllocError>
    ensures { Pushes result text.old text.new (flat_map (site_line most) sites.now) }
{
    for polled in sites {
        push_site(text, most, polled)?;
    }
    Ok(())
}

// Appends `site S`, and how it stands.
#[tactic(auto, unfolding(crate::specs::Reports::site_line))]
fn push_site(text: &mut String, most: u64, polled: &Polled) -> Result<(), AllocError>
    ensures { Pushes result text.old text.new (site_line most polled.now) }
{
    let site = polled.site.number();
    write!(text, "site {site}")?;
    push_state(text, most, polled.heard)?;
    text.push('\n')
}

fn push_state(text: &mut String, most: u64, heard: Option<Heard>) -> Result<(), AllocError>
    ensures { Pushes result text.old text.new (state_text most heard) }
{
    match heard {
        Some(heard) => push_answer(text, most, &heard),
        None => text.push_str(" silent"),
    }
}

fn push_answer(text: &mut String, most: u64, heard: &Heard) -> Result<(), AllocError>
    ensures { Pushes result text.old text.new (state_text most (Some heard.now)) }
{
    let standing = &heard.standing;
    push_named(text, "up", heard.millis)?;
    push_named(text, "records", standing.counts.records)?;
    push_named(text, "known", standing.counts.known)?;
    push_named(text, "pending", standing.counts.pending)?;
    push_named(text, "alone", standing.alone)?;
    push_named(text, "lacks", lacks(most, heard))
}

// Appends a space, a word, a space and a number.
fn push_named(text: &mut String, word: &str, number: u64) -> Result<(), AllocError>
    ensures { Pushes result text.old text.new (named word.now number) }
{
    write!(text, " {word} {number}")
}

/// Appends how many sites of how many are well.
#[tactic(auto, unfolding(crate::specs::Reports::federation_line))]
pub(crate) fn push_federation(
    text: &mut String,
    federation: u64,
    well: usize,
    count: usize,
) -> Result<(), AllocError>
    ensures { Pushes result text.old text.new (federation_line federation well count) }
{
    writeln!(text, "federation {federation} {well} of {count}")
}
