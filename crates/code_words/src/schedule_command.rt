//! What is wrong with a command of a schedule.

ghost use Rattle.std.specs.Prelude.{◌≡◌, ◌++◌, [], drop, map, OnOk, IfOk, is_some, string_bytes};
ghost use Rattle.std.specs.Prelude.{option_map, unwrap_or};
ghost use Rattle.std.specs.List.{find};
ghost use Rattle.std.specs.Option.{option_copied, option_map_or};
ghost use Rattle.std.specs.Str.{bytes_eq};
ghost use Rattle.code_words.specs.Kinds.{wrong_text};
ghost use Rattle.code_words.specs.ScheduleWords.{missing_text, first_fault, comment_text};
ghost use Rattle.code_words.specs.ScheduleWords.{command_of, commands, same_but_case, lower_text};
ghost use Rattle.code_words.specs.ScheduleWords.{surplus_text, form_text, unknown_text};
ghost use Rattle.code_words.specs.ScheduleWords.{command_text, surplus_end, own_line_text};
ghost use Rattle.code_words.specs.ScheduleWords.{command_fault};

use crate::form::{FORMS, Form};
use crate::kind::Kind;
use crate::line_kind::has_name;
use crate::word_text::push_found;
use std::alloc::{AllocError, Global};

const FATES: &str = "stop 1 K, stop 2 K, stop 3 J, fail 1 K or fail 2 K";

/// Appends what is wrong with a command of this name and these words after it.
#[tactic(auto, unfolding(crate::specs::ScheduleWords::command_text))]
pub(crate) fn push_command_words(
    alloc: Global,
    text: &mut String,
    name: &[u8],
    arguments: &[&[u8]],
) -> Result<(), AllocError>
    ensures { OnOk result (string_bytes text.new ≡ string_bytes text.old
        ++ command_text name.now (map (λ word. word.now) arguments.now)) }
{
    if name == b"federation".as_slice() {
        return text.push_str("federation stands once, as the first command");
    }
    match form_of(name) {
        Some(form) => push_form_words(alloc, text, form, arguments),
        None => push_unknown(text, name),
    }
}

// The command of this name.
fn form_of(name: &[u8]) -> Option<&'static Form>
    ensures { option_map command_of (option_copied result)
        ≡ find (λ command. bytes_eq command.name name.now) commands }
{
    first_named(FORMS.as_slice(), name)
}

// The first of these commands that has this name.
fn first_named(forms: &'static [Form], name: &[u8]) -> Option<&'static Form>
    ensures { option_copied result
        ≡ find (λ form. bytes_eq form.name.now name.now) forms.entry.now }
{
    forms.iter().find(|form| has_name(form, name))
}

// The first of these commands whose name differs from this one in letter case at most.
fn first_alike(forms: &'static [Form], name: &[u8]) -> Option<&'static Form>
    ensures { option_copied result
        ≡ find (λ form. same_but_case form.name.now name.now) forms.entry.now }
{
    forms.iter().find(|form| is_alike(form, name))
}

fn is_alike(form: &Form, name: &[u8]) -> bool
    ensures { result ≡ same_but_case form.now.name.now name.now }
{
    form.name.as_bytes().eq_ignore_ascii_case(name)
}

// The command whose name differs from this one in letter case at most.
fn form_alike(name: &[u8]) -> Option<&'static Form>
    ensures { option_map command_of (option_copied result)
        ≡ find (λ command. same_but_case command.name name.now) commands }
{
    first_alike(FORMS.as_slice(), name)
}

// There is no command of this name, but another one that differs only in letter case.
fn push_unknown(text: &mut String, name: &[u8]) -> Result<(), AllocError>
    ensures { OnOk result (string_bytes text.new
        ≡ string_bytes text.old ++ unknown_text name.now) }
{
    text.push_str("there is no command ")?;
    push_found(text, &[name])?;
    push_alike(text, name)
}

fn push_alike(text: &mut String, name: &[u8]) -> Result<(), AllocError>
    ensures { OnOk result (string_bytes text.new ≡ string_bytes text.old
        ++ option_map_or lower_text
        (find (λ command. same_but_case command.name name.now) commands) []) }
{
    match form_alike(name) {
        Some(form) => push_lower(text, form),
        None => Ok(()),
    }
}

#[tactic(auto, using(std::proofs::Common::append_assoc))]
fn push_lower(text: &mut String, form: &Form) -> Result<(), AllocError>
    ensures { OnOk result (string_bytes text.new
        ≡ string_bytes text.old ++ lower_text (command_of form.now)) }
{
    let right = form.name;
    write!(text, "; in lower case, {right} is one")
}

#[tactic(auto, using(std::proofs::Common::append_assoc))]
fn push_form_words(
    alloc: Global,
    text: &mut String,
    form: &Form,
    arguments: &[&[u8]],
) -> Result<(), AllocError>
    ensures { OnOk result (string_bytes text.new ≡ string_bytes text.old
        ++ form_text (command_of form.now) (map (λ word. word.now) arguments.now)) }
{
    let name = form.name;
    let takes = form.takes;
    write!(text, "{name} takes {takes}; found ")?;
    push_found(text, arguments)?;
    text.push_str(": ")?;
    push_fault(alloc, text, form, arguments)
}

// Appends the first fault of a command, or else that words are left.
fn push_fault(
    alloc: Global,
    text: &mut String,
    form: &Form,
    arguments: &[&[u8]],
) -> Result<(), AllocError>
    ensures { OnOk result (string_bytes text.new ≡ string_bytes text.old
        ++ command_fault (command_of form.now) (map (λ word. word.now) arguments.now)) }
{
    if push_first_fault(alloc, text, form.kinds, arguments)? {
        return Ok(());
    }
    push_surplus(text, form, words_from(arguments, form.kinds.len()))
}

/// The words from this place on, counted from 0.
pub(crate) fn words_from<'a>(words: &'a [&'a [u8]], place: usize) -> &'a [&'a [u8]]
    ensures { result.now ≡ drop place words.now }
{
    words.get(place..).unwrap_or(&[])
}

/// Appends what is wrong with the first word that isn't of its kind, or is missing, if there is
/// one.
pub(crate) fn push_first_fault(
    alloc: Global,
    text: &mut String,
    kinds: &[Kind],
    arguments: &[&[u8]],
) -> Result<bool, AllocError>
    ensures found { IfOk result (λ found. found
        ≡ is_some (first_fault kinds.now (map (λ word. word.now) arguments.now))) }
    ensures appended { OnOk result (string_bytes text.new ≡ string_bytes text.old
        ++ unwrap_or (first_fault kinds.now (map (λ word. word.now) arguments.now)) []) }
{
    match kinds {
        [] => Ok(false),
        [kind, later @ ..] => match arguments {
            [] => {
                push_missing(text, *kind)?;
                Ok(true)
            }
            [word, rest @ ..] => {
                if kind.takes(alloc, word)? {
                    return push_first_fault(alloc, text, later, rest);
                }
                push_wrong(text, *kind, word)?;
                Ok(true)
            }
        },
    }
}

/// Appends that a word of this kind is missing, and which there are.
pub(crate) fn push_missing(text: &mut String, kind: Kind) -> Result<(), AllocError>
    ensures { OnOk result (string_bytes text.new
        ≡ string_bytes text.old ++ missing_text kind) }
{
    text.push_str(kind.name())?;
    text.push_str(" is missing, ")?;
    text.push_str(kind.range())
}

/// Appends that this word isn't of its kind, and which are.
#[tactic(auto, using(std::proofs::Common::append_assoc))]
pub(crate) fn push_wrong(text: &mut String, kind: Kind, word: &[u8]) -> Result<(), AllocError>
    ensures { OnOk result (string_bytes text.new
        ≡ string_bytes text.old ++ wrong_text kind word.now) }
{
    push_found(text, &[word])?;
    let name = kind.name();
    let range = kind.range();
    write!(text, " isn't {name}, {range}")
}

// Words are left after those that the command takes.
#[tactic(auto, using(std::proofs::Common::append_assoc))]
fn push_surplus(text: &mut String, form: &Form, left: &[&[u8]]) -> Result<(), AllocError>
    ensures { OnOk result (string_bytes text.new ≡ string_bytes text.old
        ++ surplus_text (command_of form.now) (map (λ word. word.now) left.now)) }
{
    push_found(text, left)?;
    push_surplus_end(text, form.has_fate)?;
    push_comment_words(text, left)
}

fn push_surplus_end(text: &mut String, has_fate: bool) -> Result<(), AllocError>
    ensures { OnOk result (string_bytes text.new
        ≡ string_bytes text.old ++ surplus_end has_fate) }
{
    if has_fate {
        write!(text, " is no fate, {FATES}")
    } else {
        text.push_str(" is too much")
    }
}

/// Appends that a comment has a line of its own, where these words begin one.
pub(crate) fn push_comment_words(text: &mut String, left: &[&[u8]]) -> Result<(), AllocError>
    ensures { OnOk result (string_bytes text.new
        ≡ string_bytes text.old ++ comment_text (map (λ word. word.now) left.now)) }
{
    match left {
        [] => Ok(()),
        [word, ..] => push_own_line(text, word),
    }
}

fn push_own_line(text: &mut String, word: &[u8]) -> Result<(), AllocError>
    ensures { OnOk result (string_bytes text.new
        ≡ string_bytes text.old ++ own_line_text word.now) }
{
    if word.starts_with(b"#") {
        return text.push_str("; a comment has a line of its own");
    }
    Ok(())
}
