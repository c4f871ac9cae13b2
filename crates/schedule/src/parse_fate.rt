ghost use Rattle.std.specs.Prelude.{◌≡◌, [], ◌∷◌, map};
ghost use Rattle.schedule.specs.Commands.{device_of, stop_of, fail_of, fate_of};

use crate::fate::{DeviceCall, Fate};
use crate::value::parse_amount;

/// The fate of a call, by the words that follow the call's own.
#[tactic(auto, unfolding(crate::specs::Commands::fate_of))]
pub(crate) fn parse_fate(words: &[&[u8]]) -> Option<Fate>
    ensures { result ≡ fate_of (map (λ word. word.now) words.now) }
{
    match words {
        [] => Some(Fate::Whole),
        [what, at, number] => parse_stop_or_fail(what, at, number),
        _ => None,
    }
}

#[tactic(auto, unfolding(crate::specs::Commands::fate_of))]
fn parse_stop_or_fail(what: &[u8], at: &[u8], number: &[u8]) -> Option<Fate>
    ensures { result ≡ fate_of (what.now ∷ at.now ∷ number.now ∷ []) }
{
    if what == b"stop".as_slice() {
        parse_stop(at, number)
    } else if what == b"fail".as_slice() {
        parse_fail(at, number)
    } else {
        None
    }
}

#[tactic(auto, unfolding(crate::specs::Commands::stop_of))]
fn parse_stop(at: &[u8], number: &[u8]) -> Option<Fate>
    ensures { result ≡ stop_of at.now number.now }
{
    if at == b"3".as_slice() {
        return Some(Fate::StopsAfter(parse_amount(number)?));
    }
    let device = parse_device(at)?;
    Some(Fate::StopsIn(device, parse_amount(number)?))
}

#[tactic(auto, unfolding(crate::specs::Commands::fail_of))]
fn parse_fail(at: &[u8], number: &[u8]) -> Option<Fate>
    ensures { result ≡ fail_of at.now number.now }
{
    let device = parse_device(at)?;
    Some(Fate::FailsIn(device, parse_amount(number)?))
}

fn parse_device(word: &[u8]) -> Option<DeviceCall>
    ensures { result ≡ device_of word.now }
{
    if word == b"1".as_slice() {
        Some(DeviceCall::Append)
    } else if word == b"2".as_slice() {
        Some(DeviceCall::Sync)
    } else {
        None
    }
}
