use clap::{Arg, ArgAction};
use std::alloc::Global;

/// The option that asks for words.
pub(crate) fn words_argument<'a>(alloc: Global) -> Arg<'a> {
    Arg::new(alloc, "words")
        .long("words")
        .action(ArgAction::SetTrue)
        .help("Say in words, on standard error, what is amiss with it")
}
