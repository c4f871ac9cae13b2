ghost use Rattle.std.specs.Prelude.{◌≡◌, map, IfOk};
ghost use Rattle.schedule.specs.Commands.{call_command, deposit_command, propose_command};
ghost use Rattle.schedule.specs.Commands.{recover_command, deliver_command, ask_command};

use crate::call::Call;
use crate::command::Command;
use crate::parse_fate::parse_fate;
use crate::value::{parse_amount, parse_site, parse_tree_no};
use std::alloc::{AllocError, Global};
use tokens::parse_slot;

// The command for a call and for the fate that the words after the call's own name.
#[tactic(auto, unfolding(crate::specs::Commands::call_command))]
fn with_fate(call: Call, words: &[&[u8]]) -> Option<Command>
    ensures { result ≡ call_command call (map (λ word. word.now) words.now) }
{
    let fate = parse_fate(words)?;
    Some(Command::Call { call, fate })
}

#[tactic(auto, unfolding(crate::specs::Commands::deposit_command))]
pub(crate) fn parse_deposit(alloc: Global, words: &[&[u8]]) -> Result<Option<Command>, AllocError>
    ensures { IfOk result
        (λ command. command ≡ deposit_command (map (λ word. word.now) words.now)) }
{
    let [site, tree, object, version, fate @ ..] = words else {
        return Ok(None);
    };
    let Some(site) = parse_site(site) else {
        return Ok(None);
    };
    let Some(tree) = parse_tree_no(tree) else {
        return Ok(None);
    };
    let Some(slot) = parse_slot(alloc, object, version)? else {
        return Ok(None);
    };
    Ok(with_fate(Call::Deposit { site, tree, slot }, fate))
}

#[tactic(auto, unfolding(crate::specs::Commands::propose_command))]
pub(crate) fn parse_propose(alloc: Global, words: &[&[u8]]) -> Result<Option<Command>, AllocError>
    ensures { IfOk result
        (λ command. command ≡ propose_command (map (λ word. word.now) words.now)) }
{
    let [site, object, version, fate @ ..] = words else {
        return Ok(None);
    };
    let Some(site) = parse_site(site) else {
        return Ok(None);
    };
    let Some(slot) = parse_slot(alloc, object, version)? else {
        return Ok(None);
    };
    Ok(with_fate(Call::Propose { site, slot }, fate))
}

#[tactic(auto, unfolding(crate::specs::Commands::recover_command))]
pub(crate) fn parse_recover(alloc: Global, words: &[&[u8]]) -> Result<Option<Command>, AllocError>
    ensures { IfOk result
        (λ command. command ≡ recover_command (map (λ word. word.now) words.now)) }
{
    let [site, object, version, fate @ ..] = words else {
        return Ok(None);
    };
    let Some(site) = parse_site(site) else {
        return Ok(None);
    };
    let Some(slot) = parse_slot(alloc, object, version)? else {
        return Ok(None);
    };
    Ok(with_fate(Call::Recover { site, slot }, fate))
}

#[tactic(auto, unfolding(crate::specs::Commands::deliver_command))]
pub(crate) fn parse_deliver(words: &[&[u8]]) -> Option<Command>
    ensures { result ≡ deliver_command (map (λ word. word.now) words.now) }
{
    let [datagram, fate @ ..] = words else {
        return None;
    };
    let datagram = parse_amount(datagram)?;
    with_fate(Call::Deliver { datagram }, fate)
}

#[tactic(auto, unfolding(crate::specs::Commands::ask_command))]
pub(crate) fn parse_ask(alloc: Global, words: &[&[u8]]) -> Result<Option<Command>, AllocError>
    ensures { IfOk result (λ command. command ≡ ask_command (map (λ word. word.now) words.now)) }
{
    let [site, to, object, version, fate @ ..] = words else {
        return Ok(None);
    };
    let Some(site) = parse_site(site) else {
        return Ok(None);
    };
    let Some(to) = parse_site(to) else {
        return Ok(None);
    };
    let Some(slot) = parse_slot(alloc, object, version)? else {
        return Ok(None);
    };
    Ok(with_fate(Call::Ask { site, to, slot }, fate))
}
