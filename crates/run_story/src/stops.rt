//! Sites that stop.

use crate::event::Event;
use schedule::{DeviceCall, Fate};

/// How a site stopped.
pub(crate) fn stop(event: &Event) -> &'static str {
    match event.fate {
        Fate::StopsIn(device, _) => stop_in(event, device),
        Fate::StopsAfter(_) => stop_after(event),
        Fate::Whole | Fate::FailsIn(..) => "",
    }
}

// In a device call, if there was one.
fn stop_in(event: &Event, device: DeviceCall) -> &'static str {
    if !event.has_recorded() {
        return " before it is done, with nothing of it on record";
    }
    match device {
        DeviceCall::Append => " as it writes its record, which is kept",
        DeviceCall::Sync => " as it syncs its record, which is kept",
    }
}

fn stop_after(event: &Event) -> &'static str {
    match event.sent() {
        0 => " before any datagram of it went out",
        1 => " once a datagram of it went out",
        _ => " once $z datagrams of it went out",
    }
}
