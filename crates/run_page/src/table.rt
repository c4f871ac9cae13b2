//! The run as a table in JSON: what the page's script reads.

use crate::json::{push_name, push_number, push_string, push_text};
use crate::table_events::push_events;
use lines::Options;
use run_story::{Datagram, Scene, Story};
use std::alloc::{AllocError, Global};
use tokens::push_escaped;

/// Appends the run: its members, versions, datagrams and events, each of which has a row in the
/// picture.
pub(crate) fn push_run(
    alloc: Global,
    text: &mut String,
    story: &Story,
    options: Options,
    rows: &[usize],
) -> Result<(), AllocError> {
    text.push('{')?;
    push_number(text, "quorum", usize::from(story.quorum()), ",\n")?;
    push_weights(text, story)?;
    push_versions(alloc, text, story)?;
    push_datagrams(alloc, text, story)?;
    push_events(alloc, text, story, options, rows)?;
    text.push_str("}\n")
}

fn push_weights(text: &mut String, story: &Story) -> Result<(), AllocError> {
    push_name(text, "weights")?;
    text.push('[')?;
    let mut between = "";
    for weight in story.members.weights().iter() {
        write!(text, "{between}{weight}")?;
        between = ", ";
    }
    text.push_str("],\n")
}

// Each with its name escaped, as lines have it.
fn push_versions(alloc: Global, text: &mut String, story: &Story) -> Result<(), AllocError> {
    push_name(text, "versions")?;
    text.push('[')?;
    let mut between = "";
    for slot in story.versions().iter() {
        let mut name = String::new(alloc);
        push_escaped(&mut name, slot.object())?;
        write!(&mut name, " {}", slot.version())?;
        text.push_str(between)?;
        push_text(text, name.as_str())?;
        between = ", ";
    }
    text.push_str("],\n")
}

fn push_datagrams(alloc: Global, text: &mut String, story: &Story) -> Result<(), AllocError> {
    push_name(text, "datagrams")?;
    text.push('[')?;
    let mut between = "\n";
    for before in 0..story.count() {
        if let Some(datagram) = story.datagram(before.saturating_add(1)) {
            text.push_str(between)?;
            push_datagram(alloc, text, story, datagram)?;
            between = ",\n";
        }
    }
    text.push_str("],\n")
}

fn push_datagram(
    alloc: Global,
    text: &mut String,
    story: &Story,
    datagram: &Datagram,
) -> Result<(), AllocError> {
    text.push('{')?;
    push_number(text, "from", usize::from(datagram.from), ", ")?;
    push_number(text, "to", usize::from(datagram.to), ", ")?;
    push_number(text, "bag", datagram.tree as usize, ", ")?;
    let words = message_of(alloc, story, datagram)?;
    push_string(text, "says", words.as_str(), "}")
}

// What a datagram says.
fn message_of(alloc: Global, story: &Story, datagram: &Datagram) -> Result<String, AllocError> {
    let mut text = String::new(alloc);
    if let Some(event) = story.events.get(datagram.event) {
        let scene = Scene {
            story,
            event,
            datagram: Some(datagram),
            count: None,
        };
        scene.say(&mut text, datagram.head())?;
        scene.say(&mut text, datagram.tail())?;
    }
    Ok(text)
}
