//! Datagrams that arrive.

use crate::datagram::{Datagram, Kind};
use crate::event::Outcome;
use crate::scene::Scene;
use crate::story::Count;

/// What a site did with a datagram that it heard.
pub(crate) fn heard(scene: &Scene<'_>, datagram: &Datagram) -> &'static str {
    match datagram.kind {
        Kind::Prepare => answer(scene, "; site $s promises"),
        Kind::Accept => answer(scene, "; site $s votes for it"),
        Kind::Promise | Kind::Accepted => counted(scene, datagram),
        Kind::Refused => "; the next round of site $s is above $r",
        Kind::Ask if scene.event.sent() == 0 => "; site $s knows of no bag",
        Kind::Ask => "; site $s tells it",
        Kind::Known => "",
    }
}

// An acceptor's answer: it does what it was asked to, or refuses.
fn answer(scene: &Scene<'_>, does: &'static str) -> &'static str {
    match scene.story.first_sent(scene.event) {
        Some(
            Datagram {
                kind: Kind::Refused,
                ..
            },
        ) => { "; site $s refuses, since it has promised $x" }
        _ if scene.event.record.is_some() => does,
        _ => "; site $s has done so before",
    }
}

const UNCOUNTED: &str =
    "; not counted: the ballot isn't the last that the site has issued since it was opened";

// How many have promised, or voted.
fn counted(scene: &Scene<'_>, datagram: &Datagram) -> &'static str {
    let Some(count) = scene.count else {
        return UNCOUNTED;
    };
    let is_promise = datagram.kind == Kind::Promise;
    if scene.story.has_weights() {
        return pick(
            is_promise,
            "; weight $h promised, $q needed",
            "; weight $h voted so, $q needed",
        );
    }
    if count.heard <= scene.story.quorum() {
        return pick(is_promise, "; $h of $q promised", "; $h of $q voted so");
    }
    pick(
        is_promise,
        "; $h promised, $q needed",
        "; $h voted so, $q needed",
    )
}

fn pick(is_promise: bool, promised: &'static str, voted: &'static str) -> &'static str {
    if is_promise { promised } else { voted }
}

/// What the site does since then: it has learned a bag, or proposes one, its own or, if votes were
/// named, that of the highest.
pub(crate) fn consequence(scene: &Scene<'_>, datagram: &Datagram) -> &'static str {
    match scene.event.outcome {
        Outcome::Learned => ": site $s knows that bag $t was chosen",
        Outcome::Done if datagram.kind == Kind::Promise && scene.event.sent() != 0 => {
            proposal(scene)
        }
        _ => "",
    }
}

fn proposal(scene: &Scene<'_>) -> &'static str {
    match scene.count {
        Some(
            Count {
                highest: Some(_),
                ..
            },
        ) => { ": it proposes the bag of the highest vote, $w" }
        _ => ", no vote named: it proposes its own deposit",
    }
}
