//! All words of a run.

use crate::arrivals::{consequence, heard};
use crate::commands::{command, fate};
use crate::datagram::Datagram;
use crate::event::{Event, Outcome};
use crate::outcomes::{interruption, kept, outcome};
use crate::scene::Scene;
use crate::sends::push_sends;
use crate::skips::skip;
use crate::stops::stop;
use crate::story::{Passage, Story};
use lines::{Options, push_line};
use std::alloc::{AllocError, Global};

/// A run in words. A printed line comes below the words of its event, as it is printed.
pub fn words_of(alloc: Global, story: &Story, options: Options) -> Result<String, AllocError> {
    let mut text = String::new(alloc);
    push_heading(&mut text, story)?;
    for (place, event) in story.events.iter().enumerate() {
        if is_told(event) {
            push_event(&mut text, story, place, event)?;
            text.push('\n')?;
            push_said(alloc, &mut text, story, event, options)?;
        }
    }
    push_passages(&mut text, story)?;
    Ok(text)
}

// What a reader has to know of the words.
fn push_heading(text: &mut String, story: &Story) -> Result<(), AllocError> {
    text.push_str("#1 is the first datagram that was sent, and bag 1 is the bag of tree 1;\n")?;
    text.push_str("(2, 1) is the ballot of round 2 of site 1. A quorum ")?;
    let needed = story.quorum();
    let total = story.members.total_weight();
    if story.has_weights() {
        write!(text, "has {needed} of all weight, which is {total}.\n\n")
    } else {
        write!(text, "is {needed} of {total} sites.\n\n")
    }
}

/// Whether words are made of an event: of a tree that is declared or filled only if a line is
/// printed.
pub fn is_told(event: &Event) -> bool {
    !event.is_of_tree() || event.said.is_some()
}

/// Appends the words of the event at a place, in one line, without its end.
pub fn push_event(
    text: &mut String,
    story: &Story,
    place: usize,
    event: &Event,
) -> Result<(), AllocError> {
    let mut scene = Scene::of(story, place, event);
    push_all(text, &scene, &[command(event), fate(event)])?;
    push_what(text, &scene)?;
    scene.datagram = story.first_sent(event);
    push_sends(text, &scene)
}

// What came of the event, and what is on record since.
fn push_what(text: &mut String, scene: &Scene<'_>) -> Result<(), AllocError> {
    let event = scene.event;
    match (event.outcome, scene.story.delivered(event)) {
        (Outcome::Skipped(reason), _) => scene.say(text, skip(scene, reason)),
        (_, Some(datagram)) => push_arrival(text, scene, datagram),
        (_, None) => push_all(text, scene, &[outcome(scene), stop(event), kept(event)]),
    }
}

// A message, and who sent it: `Promise (1, 1) of site 2, no vote`; and what the site did.
fn push_arrival(
    text: &mut String,
    scene: &Scene<'_>,
    datagram: &Datagram,
) -> Result<(), AllocError> {
    let event = scene.event;
    push_all(
        text,
        scene,
        &[datagram.head(), " of site $f", datagram.tail()],
    )?;
    if event.is_done() {
        push_all(
            text,
            scene,
            &[heard(scene, datagram), consequence(scene, datagram)],
        )?;
    } else {
        push_all(text, scene, &["; ", interruption(event), stop(event)])?;
    }
    scene.say(text, kept(event))
}

fn push_all(text: &mut String, scene: &Scene<'_>, sentences: &[&str]) -> Result<(), AllocError> {
    for sentence in sentences {
        scene.say(text, sentence)?;
    }
    Ok(())
}

// The line that the event printed.
fn push_said(
    alloc: Global,
    text: &mut String,
    story: &Story,
    event: &Event,
    options: Options,
) -> Result<(), AllocError> {
    match story.line_of(event) {
        Some(line) => {
            text.push_str("    ")?;
            push_line(alloc, text, options, line)
        }
        None => Ok(()),
    }
}

// Which datagrams were never delivered, and which came only to a site that was down.
fn push_passages(text: &mut String, story: &Story) -> Result<(), AllocError> {
    text.push_str("\nnever delivered:")?;
    push_lost(text, story, false)?;
    if story.passages.iter().any(|it| is_lost(*it, true)) {
        text.push_str("lost at a site that was down:")?;
        push_lost(text, story, true)?;
    }
    Ok(())
}

// The numbers of those that were lost in this way, or `none`, and the end of the line.
fn push_lost(text: &mut String, story: &Story, was_down: bool) -> Result<(), AllocError> {
    let mut none = " none";
    for (before, passage) in story.passages.iter().enumerate() {
        if is_lost(*passage, was_down) {
            let number = before.saturating_add(1);
            write!(text, " #{number}")?;
            none = "";
        }
    }
    text.push_str(none)?;
    text.push('\n')
}

fn is_lost(passage: Passage, was_down: bool) -> bool {
    match passage {
        Passage::Never => !was_down,
        Passage::ToNobody(_) => was_down,
        Passage::Arrived(_) => false,
    }
}
