//! The time of a line.

use jiff::Timestamp;
use std::alloc::{AllocError, Global};
use std::time::Clock;

/// The time in UTC, to the millisecond, as `2026-11-25T20:15:09.042Z`; `-` where the clock can't be
/// read.
pub(crate) fn moment_text<R: Clock>(alloc: Global, clock: &R) -> Result<String, AllocError> {
    text_of(alloc, now(clock))
}

/// The time, where the clock can be read.
pub(crate) fn now<R: Clock>(clock: &R) -> Option<Timestamp> {
    match Timestamp::now(clock) {
        Ok(now) => Some(now),
        Err(_) => None,
    }
}

/// How many minutes were before that of a time.
pub(crate) fn minute_of(time: Timestamp) -> i64 {
    time.as_second().div_euclid(60)
}

/// The last moment of a minute.
pub(crate) fn end_of(minute: i64) -> Option<Timestamp> {
    let second = minute.checked_mul(60)?.checked_add(59)?;
    match Timestamp::new(second, 999_000_000) {
        Ok(end) => Some(end),
        Err(_) => None,
    }
}

/// A time as text; `-` where there is none.
pub(crate) fn text_of(alloc: Global, time: Option<Timestamp>) -> Result<String, AllocError> {
    match time {
        Some(time) => text_of_time(alloc, time),
        None => format!(in alloc; "-"),
    }
}

fn text_of_time(alloc: Global, time: Timestamp) -> Result<String, AllocError> {
    let Ok(second) = Timestamp::from_second(time.as_second()) else {
        return format!(in alloc; "-");
    };
    let whole = format!(in alloc; "{second}")?;
    let whole = whole.as_str().trim_end_matches('Z');
    let millis = time.subsec_millisecond();
    format!(in alloc; "{whole}.{millis:03}Z")
}
