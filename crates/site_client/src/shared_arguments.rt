//! The arguments that several commands about sites have.

use clap::{Arg, ArgAction, value_parser};
use fed_types::GREATEST_SITE;
use std::alloc::Global;

/// The most milliseconds that a turn waits while things move.
const LONGEST_WAIT: i64 = 60000;

/// The option of the members file.
pub fn members_argument<'a>(alloc: Global) -> Arg<'a> {
    Arg::new(alloc, "members")
        .long("members")
        .value_name("FILE")
        .required(true)
        .help("The members file: sites, where they are, weights")
}

/// The option of the key file.
pub fn key_argument<'a>(alloc: Global) -> Arg<'a> {
    Arg::new(alloc, "key")
        .long("key")
        .value_name("FILE")
        .help("The keys by which each datagram has a tag")
}

/// The option of the site that is asked.
pub fn to_argument<'a>(alloc: Global) -> Arg<'a> {
    Arg::new(alloc, "to")
        .long("to")
        .value_name("N")
        .required(true)
        .value_parser(value_parser!(u8).range(1..=i64::from(GREATEST_SITE)))
        .help("The number of the site, 1 to 63")
}

/// The option of how long a turn waits.
pub fn wait_argument<'a>(alloc: Global) -> Arg<'a> {
    Arg::new(alloc, "wait")
        .long("wait")
        .value_name("MS")
        .required(true)
        .value_parser(value_parser!(u32).range(1..=LONGEST_WAIT))
        .help("Milliseconds it waits for a datagram, 1 to 60000")
}

/// The option of how long an answer may take: a second, if it isn't given.
pub fn answer_argument<'a>(alloc: Global) -> Arg<'a> {
    wait_argument(alloc)
        .required(false)
        .default_value("1000")
        .help("Milliseconds for an answer, 1 to 60000")
}

/// The option that asks for words.
pub fn words_argument<'a>(alloc: Global) -> Arg<'a> {
    Arg::new(alloc, "words")
        .long("words")
        .action(ArgAction::SetTrue)
        .help("Say in words, on standard error, what codes say")
}
