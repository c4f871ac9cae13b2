//! What an event sent.

use crate::event::Event;
use crate::scene::Scene;
use std::alloc::AllocError;

/// Appends the datagrams that the event sent, all of one message, if it sent any.
pub(crate) fn push_sends(text: &mut String, scene: &Scene<'_>) -> Result<(), AllocError> {
    let Some(datagram) = scene.datagram else {
        return Ok(());
    };
    text.push_str("; sends")?;
    push_numbers(text, scene.event)?;
    text.push(' ')?;
    scene.say(text, datagram.head())?;
    scene.say(text, datagram.tail())?;
    push_addressees(text, scene)
}

fn push_numbers(text: &mut String, event: &Event) -> Result<(), AllocError> {
    for before in event.sent_before..event.sent_after {
        let number = before.saturating_add(1);
        write!(text, " #{number}")?;
    }
    Ok(())
}

fn push_addressees(text: &mut String, scene: &Scene<'_>) -> Result<(), AllocError> {
    let mut between = ", to ";
    for before in scene.event.sent_before..scene.event.sent_after {
        if let Some(datagram) = scene.story.datagram(before.saturating_add(1)) {
            let to = datagram.to;
            write!(text, "{between}{to}")?;
            between = ", ";
        }
    }
    Ok(())
}
