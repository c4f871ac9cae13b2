ghost use Rattle.std.specs.Prelude.{◌≡◌, ◌<◌, length, map, All, IfOk};
ghost use Rattle.schedule.specs.Commands.{site_of, tree_of, amount_of, only, file_command};
ghost use Rattle.schedule.specs.Commands.{query_command, raw_command, command_of};

use crate::command::Command;
use crate::parse_call::{parse_ask, parse_deliver, parse_deposit, parse_propose, parse_recover};
use crate::tree_no::TreeNo;
use crate::value::{parse_amount, parse_bytes, parse_path, parse_site, parse_tree_no};
use std::alloc::{AllocError, Global};
use tokens::parse_slot;

/// The command of a line's words, if they are one's.
#[tactic(auto, unfolding(crate::specs::Commands::command_of))]
pub(crate) fn parse_command(alloc: Global, words: &[&[u8]]) -> Result<Option<Command>, AllocError>
    requires { All (λ word. 0 < length word.now) words.now }
    ensures { IfOk result (λ command. command ≡ command_of (map (λ word. word.now) words.now)) }
{
    let Some((name, arguments)) = words.split_first() else {
        return Ok(None);
    };
    let name = *name;
    if name == b"tree".as_slice() {
        Ok(only_tree(arguments).map(|tree| Command::Tree { tree }))
    } else if name == b"folder".as_slice() {
        Ok(only_tree(arguments).map(|tree| Command::Folder { tree }))
    } else if name == b"file".as_slice() {
        parse_file(alloc, arguments)
    } else if name == b"deposit".as_slice() {
        parse_deposit(alloc, arguments)
    } else if name == b"propose".as_slice() {
        parse_propose(alloc, arguments)
    } else if name == b"recover".as_slice() {
        parse_recover(alloc, arguments)
    } else if name == b"deliver".as_slice() {
        Ok(parse_deliver(arguments))
    } else if name == b"ask".as_slice() {
        parse_ask(alloc, arguments)
    } else if name == b"query".as_slice() {
        parse_query(alloc, arguments)
    } else if name == b"raw".as_slice() {
        parse_raw(alloc, arguments)
    } else if name == b"pump".as_slice() {
        Ok(only_amount(arguments).map(|turns| Command::Pump { turns }))
    } else if name == b"stop".as_slice() {
        Ok(only_site(arguments).map(|site| Command::Stop { site }))
    } else if name == b"start".as_slice() {
        Ok(only_site(arguments).map(|site| Command::Start { site }))
    } else {
        Ok(None)
    }
}

// The number of the tree that the only word names.
#[tactic(auto, unfolding(crate::specs::Commands::only))]
fn only_tree(words: &[&[u8]]) -> Option<TreeNo>
    ensures { result ≡ only tree_of (map (λ word. word.now) words.now) }
{
    let [tree] = words else {
        return None;
    };
    parse_tree_no(tree)
}

#[tactic(auto, unfolding(crate::specs::Commands::file_command))]
fn parse_file(alloc: Global, words: &[&[u8]]) -> Result<Option<Command>, AllocError>
    requires { All (λ word. 0 < length word.now) words.now }
    ensures { IfOk result (λ command. command ≡ file_command (map (λ word. word.now) words.now)) }
{
    let [tree, path, content] = words else {
        return Ok(None);
    };
    let Some(tree) = parse_tree_no(tree) else {
        return Ok(None);
    };
    let Some(path) = parse_path(alloc, path)? else {
        return Ok(None);
    };
    let Some(content) = parse_bytes(alloc, content)? else {
        return Ok(None);
    };
    Ok(Some(Command::File {
        tree,
        path,
        content,
    }))
}

#[tactic(auto, unfolding(crate::specs::Commands::query_command))]
fn parse_query(alloc: Global, words: &[&[u8]]) -> Result<Option<Command>, AllocError>
    ensures { IfOk result (λ command. command ≡ query_command (map (λ word. word.now) words.now)) }
{
    let [site, object, version] = words else {
        return Ok(None);
    };
    let Some(site) = parse_site(site) else {
        return Ok(None);
    };
    let Some(slot) = parse_slot(alloc, object, version)? else {
        return Ok(None);
    };
    Ok(Some(Command::Query { site, slot }))
}

#[tactic(auto, unfolding(crate::specs::Commands::raw_command))]
fn parse_raw(alloc: Global, words: &[&[u8]]) -> Result<Option<Command>, AllocError>
    ensures { IfOk result (λ command. command ≡ raw_command (map (λ word. word.now) words.now)) }
{
    let [site, bytes] = words else {
        return Ok(None);
    };
    let Some(site) = parse_site(site) else {
        return Ok(None);
    };
    let Some(bytes) = parse_bytes(alloc, bytes)? else {
        return Ok(None);
    };
    Ok(Some(Command::Raw { site, bytes }))
}

// The amount that the only word gives.
#[tactic(auto, unfolding(crate::specs::Commands::only))]
fn only_amount(words: &[&[u8]]) -> Option<u32>
    ensures { result ≡ only amount_of (map (λ word. word.now) words.now) }
{
    let [amount] = words else {
        return None;
    };
    parse_amount(amount)
}

// The number of the site that the only word names.
#[tactic(auto, unfolding(crate::specs::Commands::only))]
fn only_site(words: &[&[u8]]) -> Option<u8>
    ensures { result ≡ only site_of (map (λ word. word.now) words.now) }
{
    let [site] = words else {
        return None;
    };
    parse_site(site)
}
