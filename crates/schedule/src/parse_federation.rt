ghost use Rattle.std.specs.Prelude.{◌≡◌, length, map, Some};
ghost use Rattle.std.specs.Option.{option_map};
ghost use Rattle.fed_types.specs.Sites.{AreWeights, IsMemberCount, membership_of};
ghost use Rattle.schedule.specs.Commands.{federation_of, weights_in, weights_of};

use crate::value::parse_weight;
use fed_types::{MOST_MEMBERS, Members};
use tokens::parse_number;

// Room for the weights of as many members as a federation can have.
const ROOM: usize = 63;

/// The members that `federation F N` names, each of weight 1, or `federation F N W1 .. WN`.
#[tactic(auto, unfolding(crate::specs::Commands::federation_of))]
pub(crate) fn parse_federation(words: &[&[u8]]) -> Option<Members>
    ensures { result ≡ federation_of (map (λ word. word.now) words.now) }
{
    let [name, federation, count, weights @ ..] = words else {
        return None;
    };
    if *name != b"federation".as_slice() {
        return None;
    }
    let federation = parse_number(0, u64::MAX, federation)?;
    let count = parse_number(1, u64::from(MOST_MEMBERS), count)?;
    parse_members(federation, count as u8, weights)
}

// `count` members, with the weights that the words name, or of weight 1 if there is no word.
#[tactic(auto, unfolding(crate::specs::Commands::weights_of))]
fn parse_members(federation: u64, count: u8, words: &[&[u8]]) -> Option<Members>
    requires { IsMemberCount count }
    ensures { result ≡ option_map (membership_of federation)
        (weights_of count (map (λ word. word.now) words.now)) }
{
    if words.is_empty() {
        return Members::new(federation, count).ok();
    }
    if words.len() != usize::from(count) {
        return None;
    }
    parse_weights(federation, words)
}

// The members with these weights, if each word is one.
fn parse_weights(federation: u64, words: &[&[u8]]) -> Option<Members>
    requires { IsMemberCount (length words.now) }
    ensures { result ≡ option_map (membership_of federation)
        (weights_in (map (λ word. word.now) words.now)) }
{
    let mut weights = [0; ROOM];
    for (place, word) in words.iter().enumerate() {
        weights[place] = parse_weight(word)?;
    }
    weighted(federation, &weights[..words.len()])
}

fn weighted(federation: u64, weights: &[u8]) -> Option<Members>
    requires { AreWeights weights.now }
    ensures { result ≡ Some (membership_of federation weights.now) }
{
    Members::weighted(federation, weights).ok()
}
