//! A mark for each event: the record that it made, a stop, a start, or that there was none of
//! these. Each has its middle at `$0 $1`.

use records::Entry;
use run_story::{Event, Outcome};

pub(crate) const DEPOSIT: &str = "<path class='m f$c' d='M$0 $1m-5 -7h7l4 4v10h-11z'/>\n";

pub(crate) const ROUND: &str = "<path class='m fp' d='M$0 $1m0 -6l6 11h-12z'/>\n";

pub(crate) const PROMISE: &str = "<circle class='o' cx='$0' cy='$1' r='5'/>\n";

pub(crate) const VOTE: &str = "<path class='m f$c' d='M$0 $1m-6 -6h12v12h-12z'/>\n";

pub(crate) const KNOWN: &str = "<circle class='m f$c' cx='$0' cy='$1' r='8'/>
<path class='c' d='M$0 $1m-4 0l3 3l5 -6'/>\n";

pub(crate) const START: &str = "<path class='m fp' d='M$0 $1m-4 -6l10 6l-10 6z'/>\n";

pub(crate) const CROSS: &str = "<path class='x s$c' d='M$0 $1m-4 -4l8 8m0 -8l-8 8'/>\n";

const STOP: &str = "<path class='x sr' d='M$0 $1m-4 4l8 8m0 -8l-8 8'/>\n";

const NOTHING: &str = "<circle class='fp' cx='$0' cy='$1' r='2.5'/>\n";

/// The mark of the record, if there is one.
pub(crate) fn record_mark(event: &Event) -> &'static str {
    match &event.record {
        Some(Entry::Deposit(_)) => DEPOSIT,
        Some(Entry::Round(_)) => ROUND,
        Some(Entry::Promise(_)) => PROMISE,
        Some(Entry::Vote(_)) => VOTE,
        Some(Entry::Known(_)) => KNOWN,
        None => "",
    }
}

/// The mark of an event's outcome. A stop is put a little lower.
pub(crate) fn outcome_mark(event: &Event) -> &'static str {
    match event.outcome {
        Outcome::Down | Outcome::Failed => STOP,
        Outcome::Up => START,
        Outcome::Skipped(_) => "",
        _ if event.record.is_some() => "",
        _ => NOTHING,
    }
}
