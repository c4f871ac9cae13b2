//! The arguments of the command `send` where it has `--deposits`.

use clap::ArgMatches;
use fed_types::SiteNo;

/// A file of deposits, and the site that is sent them.
#[derive(Clone, Copy, Debug)]
pub struct DepositsTask<'a> {
    pub members: &'a str,
    /// The path of the key file, if there is one.
    pub key: Option<&'a str>,
    pub to: SiteNo,
    /// How many milliseconds an answer may take.
    pub wait: u32,
    /// For how many seconds it asks until the bags are known.
    pub until_known: Option<u32>,
    /// Whether to say in words what a line says.
    pub words: bool,
    /// The file's path, or `-` for standard input.
    pub file: &'a str,
}

/// What these arguments of the command ask for, if they name a file of deposits.
pub fn deposits_task<'a>(matches: &ArgMatches<'a>) -> Option<DepositsTask<'a>> {
    Some(DepositsTask {
        members: matches.get_str("members")?,
        key: matches.get_str("key"),
        to: SiteNo::new(matches.get_one::<u8>("to")?).ok()?,
        wait: matches.get_one::<u32>("wait")?,
        until_known: matches.get_one::<u32>("until-known"),
        words: matches.get_flag("words"),
        file: matches.get_str("deposits")?,
    })
}
