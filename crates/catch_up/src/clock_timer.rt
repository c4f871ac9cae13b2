use crate::timer::Timer;
use std::thread;
use std::time::{Clock, Duration, Instant};

/// A timer by a clock of the system. No contract says what the clock does.
#[derive(Drop)]
pub struct ClockTimer<'a, C: Clock> {
    clock: &'a C,
    /// When it was started, if that could be read.
    start: Option<Instant>,
}

impl<'a, C: Clock> ClockTimer<'a, C> {
    /// It is started.
    pub fn new(clock: &'a C) -> ClockTimer<'a, C> {
        ClockTimer {
            clock,
            start: Instant::now(clock).ok(),
        }
    }
}

impl<'a, C: Clock> Timer for ClockTimer<'a, C> {
    fn seconds(&mut self) -> Option<u64> {
        let start = self.start?;
        let elapsed = start.elapsed(self.clock).ok()?;
        Some(elapsed.as_secs())
    }

    fn pause(&mut self, millis: u64) {
        thread::sleep(self.clock, Duration::from_millis(millis));
    }
}
