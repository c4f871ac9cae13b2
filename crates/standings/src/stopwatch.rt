use std::time::{Clock, Instant};

/// Says how long it is since it was started. No contract says what the clock does.
#[derive(Clone, Copy)]
pub(crate) struct Stopwatch<'a, C: Clock> {
    clock: &'a C,
    /// When it was started, if that could be read.
    start: Option<Instant>,
}

impl<'a, C: Clock> Stopwatch<'a, C> {
    /// It is started.
    pub(crate) fn new(clock: &'a C) -> Stopwatch<'a, C> {
        Stopwatch {
            clock,
            start: Instant::now(clock).ok(),
        }
    }

    /// How many whole milliseconds have passed; 0 where that can't be read.
    pub(crate) fn millis(&self) -> u64 {
        match self.start {
            Some(start) => match start.elapsed(self.clock) {
                Ok(passed) => u64::try_from(passed.as_millis()).unwrap_or(u64::MAX),
                Err(_) => 0,
            },
            None => 0,
        }
    }
}
