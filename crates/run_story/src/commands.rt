//! The command of an event, as a schedule has it.

use crate::event::{Deed, Event};
use schedule::{DeviceCall, Fate};

/// What it asks for.
pub(crate) fn command(event: &Event) -> &'static str {
    match event.deed {
        Deed::Tree => "line $l, tree $n",
        Deed::Folder => "line $l, folder $n",
        Deed::File => "line $l, file $n $p",
        Deed::Deposit => "line $l, deposit $s $n$a",
        Deed::Propose => "line $l, propose $s$a",
        Deed::Recover => "line $l, recover $s$a",
        Deed::Ask => "line $l, ask $s $n$a",
        Deed::Deliver => "line $l, deliver $n",
        Deed::Query => "line $l, query $s$a",
        Deed::Raw => "line $l, raw $s",
        Deed::Stop => "line $l, stop $s",
        Deed::Start => "line $l, start $s",
    }
}

/// The fate that it ends in.
pub(crate) fn fate(event: &Event) -> &'static str {
    match event.fate {
        Fate::Whole => ": ",
        Fate::StopsIn(DeviceCall::Append, _) => " stop 1 $k: ",
        Fate::StopsIn(DeviceCall::Sync, _) => " stop 2 $k: ",
        Fate::StopsAfter(_) => " stop 3 $k: ",
        Fate::FailsIn(DeviceCall::Append, _) => " fail 1 $k: ",
        Fate::FailsIn(DeviceCall::Sync, _) => " fail 2 $k: ",
    }
}
