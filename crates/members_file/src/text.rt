//! Members files as text.

ghost use Rattle.std.specs.Prelude.{◌≡◌, ◌++◌, IfOk, string_bytes};
ghost use Rattle.tokens.specs.Pushes.{Pushes};
ghost use Rattle.members_file.specs.Texts.{federation_line, line_of, lines_of, text_of};

use crate::listed_site::ListedSite;
use std::alloc::{AllocError, Global};

/// Which weights are written.
#[derive(Clone, Copy)]
pub(crate) enum Weights {
    All,
    /// The weights over 1.
    Greater,
}

/// The text of a federation with these sites, that of site 1 first.
#[tactic(auto, unfolding(crate::specs::Texts::text_of))]
pub(crate) fn text_of(
    alloc: Global,
    weights: Weights,
    federation: u64,
    sites: &[ListedSite],
) -> Result<String, AllocError>
    ensures { IfOk result (λ text. string_bytes text ≡ text_of weights federation sites.now) }
{
    let mut text = String::new(alloc);
    push_federation(&mut text, federation)?;
    push_sites(&mut text, weights, sites)?;
    Ok(text)
}

/// The lines of these sites.
pub(crate) fn lines_of(
    alloc: Global,
    weights: Weights,
    sites: &[ListedSite],
) -> Result<String, AllocError>
    ensures { IfOk result (λ text. string_bytes text ≡ lines_of weights sites.now) }
{
    let mut text = String::new(alloc);
    push_sites(&mut text, weights, sites)?;
    Ok(text)
}

fn push_federation(text: &mut String, federation: u64) -> Result<(), AllocError>
    ensures { Pushes result text.old text.new (federation_line federation) }
{
    write!(text, "federation {federation}\n")
}

fn push_sites(text: &mut String, weights: Weights, sites: &[ListedSite]) -> Result<(), AllocError>
    ensures { Pushes result text.old text.new (lines_of weights sites.now) }
{
    for place in 0..sites.len() {
        push_site(text, weights, place + 1, sites[place])?;
    }
    Ok(())
}

// The line of the site of this number.
fn push_site(
    text: &mut String,
    weights: Weights,
    number: usize,
    site: ListedSite,
) -> Result<(), AllocError>
    ensures { Pushes result text.old text.new (line_of weights number site) }
{
    let ListedSite { place, weight } = site;
    match weights {
        Weights::Greater if weight == 1 => write!(text, "site {number} {place}\n"),
        _ => write!(text, "site {number} {place} {weight}\n"),
    }
}
