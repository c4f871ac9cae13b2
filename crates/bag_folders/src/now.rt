use std::time::{Clock, Instant, SystemTime, UNIX_EPOCH};

/// The time that it is.
#[derive(Clone, Copy, Debug)]
pub(crate) struct Now {
    /// In microseconds since a moment, by a clock that nobody sets.
    pub(crate) moment: u64,
    /// In seconds since 1970, by the clock that files are stamped by.
    pub(crate) second: i64,
}

impl Now {
    /// What these clocks say, if they can be read.
    pub(crate) fn of<R: Clock>(clock: &R, start: Option<Instant>) -> Option<Now> {
        let micros = start?.elapsed(clock).ok()?.as_micros();
        let since_1970 = SystemTime::now(clock)
            .ok()?
            .duration_since(UNIX_EPOCH)
            .ok()?;
        Some(Now {
            moment: u64::try_from(micros).ok()?,
            second: i64::try_from(since_1970.as_secs()).ok()?,
        })
    }
}
