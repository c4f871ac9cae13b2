//! Events that couldn't apply.

use crate::event::{Deed, Event};
use crate::paths::path_fault;
use crate::scene::Scene;
use lines::Reason;

/// Why an event couldn't apply.
pub(crate) fn skip(scene: &Scene<'_>, reason: Reason) -> &'static str {
    let event = scene.event;
    match reason {
        Reason::Site => "there is no such site: the sites are 1 to $m",
        Reason::Tree => tree(event),
        Reason::Path => path_fault(scene.path()),
        Reason::Datagram => unsent(event),
        Reason::Formed => "the bytes are a message, which only a site can send",
        Reason::Down => down(event),
        Reason::Up => "site $s is up already",
    }
}

fn tree(event: &Event) -> &'static str {
    match event.deed {
        Deed::Tree => "tree $n is declared already",
        _ => "tree $n isn't declared",
    }
}

fn unsent(event: &Event) -> &'static str {
    match event.sent_before {
        0 => "no datagram was sent yet",
        1 => "only one datagram was sent so far",
        _ => "only $d datagrams were sent so far",
    }
}

fn down(event: &Event) -> &'static str {
    match event.deed {
        Deed::Deliver => "site $s is down, and #$n is lost",
        _ => "site $s is down",
    }
}
