//! The words beside an event.

use run_story::{Datagram, Deed, Event, Kind, Outcome, Scene, Story};
use std::alloc::{AllocError, Global};

/// The words beside each event.
pub(crate) fn labels_of(alloc: Global, story: &Story) -> Result<Vec<String>, AllocError> {
    let mut labels = Vec::new(alloc);
    for (place, event) in story.events.iter().enumerate() {
        labels.push(label_of(alloc, story, place, event)?)?;
    }
    Ok(labels)
}

/// What a datagram says, with its number.
pub(crate) fn message_of(
    alloc: Global,
    story: &Story,
    number: usize,
    datagram: &Datagram,
) -> Result<String, AllocError> {
    let mut text = format!(in alloc; "#{number} ")?;
    if let Some(event) = story.events.get(datagram.event) {
        let scene = Scene {
            story,
            event,
            datagram: Some(datagram),
            count: None,
        };
        scene.say(&mut text, datagram.head())?;
        scene.say(&mut text, datagram.tail())?;
    }
    Ok(text)
}

fn label_of(
    alloc: Global,
    story: &Story,
    place: usize,
    event: &Event,
) -> Result<String, AllocError> {
    let scene = Scene::of(story, place, event);
    let sentences = match story.delivered(event) {
        Some(datagram) => [
            "#$n ",
            datagram.head(),
            datagram.tail(),
            note(&scene, datagram),
        ],
        None => [deed(event), outcome(event), "", ""],
    };
    let mut text = String::new(alloc);
    for sentence in sentences.iter() {
        scene.say(&mut text, sentence)?;
    }
    Ok(text)
}

// What came of a datagram that arrived.
fn note(scene: &Scene<'_>, datagram: &Datagram) -> &'static str {
    match scene.event.outcome {
        Outcome::Skipped(_) => " · down",
        Outcome::Down if scene.event.has_recorded() => " · recorded, stops",
        Outcome::Down => " · stops, no record",
        Outcome::Failed => " · device fails",
        Outcome::Unopened => " · not heard",
        Outcome::Done | Outcome::Learned => heard(scene, datagram),
        _ => " · refused",
    }
}

// How much was heard: if each weight is 1, only as long as that is no more than what is needed.
fn heard(scene: &Scene<'_>, datagram: &Datagram) -> &'static str {
    match (datagram.kind, scene.count) {
        (Kind::Prepare | Kind::Accept, _) => answer(scene),
        (_, Some(_)) if scene.story.has_weights() => " · weight $h, $q needed",
        (_, Some(count)) if count.heard <= scene.story.quorum() => " · $h of $q",
        _ => "",
    }
}

fn answer(scene: &Scene<'_>) -> &'static str {
    match scene.story.first_sent(scene.event) {
        Some(
            Datagram {
                kind: Kind::Refused,
                ..
            },
        ) => " · refused",
        _ => "",
    }
}

// What a site is asked to do.
fn deed(event: &Event) -> &'static str {
    match event.deed {
        Deed::Deposit if matches!(event.outcome, Outcome::Registered) => "deposit$u: ",
        Deed::Deposit => "deposit of tree $n$u: ",
        Deed::Propose if event.is_done() => "proposes$u in $b",
        Deed::Propose => "proposal$u: ",
        Deed::Recover if event.is_done() => "recovers$u in $b",
        Deed::Recover => "recovery$u: ",
        Deed::Ask if event.is_done() => "asks $n$u",
        Deed::Ask => "question to $n$u: ",
        Deed::Query => "asked$u: ",
        Deed::Raw => "foreign bytes: ",
        Deed::Start => "starts, $c on record",
        Deed::Stop | Deed::Tree | Deed::Folder | Deed::File | Deed::Deliver => "",
    }
}

fn outcome(event: &Event) -> &'static str {
    match event.outcome {
        Outcome::Registered => "bag $t",
        Outcome::Known => "bag $t is known",
        Outcome::Pending => "bag $t is pending",
        Outcome::Nothing => "nothing",
        Outcome::Invalid => "no valid bag",
        Outcome::Refused => "refused",
        Outcome::Failed => "device fails",
        Outcome::Unopened => "needs opening",
        Outcome::Dropped => "dropped",
        Outcome::Down => "stops",
        Outcome::Done | Outcome::Learned | Outcome::Skipped(_) | Outcome::Up => "",
    }
}
