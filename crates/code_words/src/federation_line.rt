//! What is wrong with the first command of a schedule.

ghost use Rattle.std.specs.Prelude.{◌≡◌, ◌++◌, not, length, drop, map, OnOk, string_bytes};
ghost use Rattle.std.specs.Prelude.{unwrap_or};
ghost use Rattle.std.specs.List.{find};
ghost use Rattle.std.specs.Option.{option_copied};
ghost use Rattle.code_words.specs.declared.kind.Kind.TheVariants.{Weight};
ghost use Rattle.code_words.specs.Kinds.{takes};
ghost use Rattle.code_words.specs.ScheduleWords.{weight_text, count_text, weights_text};
ghost use Rattle.code_words.specs.ScheduleWords.{federation_text, mark_text, first_text};
ghost use Rattle.code_words.specs.ScheduleWords.{federation_fault, other_name_text};

use crate::file_start::MARK;
use crate::kind::{Kind, is_weight};
use crate::schedule_command::{push_comment_words, push_first_fault, push_wrong, words_from};
use crate::word_text::push_found;
use std::alloc::{AllocError, Global};

/// Appends what is wrong with the first command, of these words.
#[tactic(auto, unfolding(crate::specs::ScheduleWords::first_text))]
pub(crate) fn push_first_words(
    alloc: Global,
    text: &mut String,
    words: &[&[u8]],
) -> Result<(), AllocError>
    ensures { OnOk result (string_bytes text.new
        ≡ string_bytes text.old ++ first_text (map (λ word. word.now) words.now)) }
{
    match words {
        [] => text.push_str("there is no command: the first has to be federation F N"),
        [name, arguments @ ..] => {
            if *name == b"federation".as_slice() {
                push_federation_words(alloc, text, arguments)
            } else {
                push_other_words(text, name, words)
            }
        }
    }
}

// The first command has another name.
fn push_other_words(text: &mut String, name: &[u8], words: &[&[u8]]) -> Result<(), AllocError>
    ensures { OnOk result (string_bytes text.new ≡ string_bytes text.old
        ++ other_name_text name.now (map (λ word. word.now) words.now)) }
{
    text.push_str("the first command has to be federation F N; found ")?;
    push_found(text, words)?;
    push_mark_words(text, name)
}

/// Appends that the word begins with a byte order mark, where it does.
pub(crate) fn push_mark_words(text: &mut String, word: &[u8]) -> Result<(), AllocError>
    ensures { OnOk result (string_bytes text.new ≡ string_bytes text.old ++ mark_text word.now) }
{
    if word.starts_with(MARK) {
        return text.push_str("; it begins with a byte order mark: save it without");
    }
    Ok(())
}

fn push_federation_words(
    alloc: Global,
    text: &mut String,
    arguments: &[&[u8]],
) -> Result<(), AllocError>
    ensures { OnOk result (string_bytes text.new ≡ string_bytes text.old
        ++ federation_text (map (λ word. word.now) arguments.now)) }
{
    text.push_str("federation takes its number, how many sites it has, and their weights if ")?;
    text.push_str("they differ; found ")?;
    push_found(text, arguments)?;
    text.push_str(": ")?;
    push_federation_fault(alloc, text, arguments)
}

// Appends the first fault of F N, or else of the weights.
fn push_federation_fault(
    alloc: Global,
    text: &mut String,
    arguments: &[&[u8]],
) -> Result<(), AllocError>
    ensures { OnOk result (string_bytes text.new ≡ string_bytes text.old
        ++ federation_fault (map (λ word. word.now) arguments.now)) }
{
    if push_first_fault(alloc, text, &[Kind::Federation, Kind::Count], arguments)? {
        return Ok(());
    }
    push_weights(text, words_from(arguments, 2))
}

fn push_weights(text: &mut String, weights: &[&[u8]]) -> Result<(), AllocError>
    ensures { OnOk result (string_bytes text.new ≡ string_bytes text.old
        ++ weights_text (map (λ word. word.now) weights.now)) }
{
    match no_weight(weights) {
        Some(word) => push_weight(text, word),
        None => push_count(text, weights.len()),
    }
}

// The first word that is no weight.
fn no_weight<'a>(words: &'a [&'a [u8]]) -> Option<&'a [u8]>
    ensures { option_copied result
        ≡ find (λ word. not (takes Weight word)) (map (λ word. word.now) words.now) }
{
    wrong_weight(words).copied()
}

fn wrong_weight<'a>(words: &'a [&'a [u8]]) -> Option<&'a &'a [u8]>
    ensures { option_copied result ≡ find (λ word. not (takes Weight word.now)) words.now }
{
    words.iter().find(|word| !is_weight(word))
}

#[tactic(auto, using(std::proofs::Common::append_assoc))]
fn push_weight(text: &mut String, word: &[u8]) -> Result<(), AllocError>
    ensures { OnOk result (string_bytes text.new ≡ string_bytes text.old ++ weight_text word.now) }
{
    push_wrong(text, Kind::Weight, word)?;
    push_comment_words(text, &[word])
}

fn push_count(text: &mut String, count: usize) -> Result<(), AllocError>
    ensures { OnOk result (string_bytes text.new ≡ string_bytes text.old ++ count_text count) }
{
    write!(
        text,
        "it has {count} weights, and needs one for each site, or none"
    )
}
