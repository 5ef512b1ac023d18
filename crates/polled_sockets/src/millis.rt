//! Moments in milliseconds.

use std::time::{Clock, Duration};

/// The moment, in milliseconds from some start; 0 where the clock fails.
pub fn moment(clock: &impl Clock) -> u64 {
    match clock.monotonic() {
        Ok(time) => whole_millis(time),
        Err(_) => 0,
    }
}

/// The whole milliseconds of a time, or as many as can be counted.
fn whole_millis(time: Duration) -> u64 {
    time.as_secs()
        .saturating_mul(1000)
        .saturating_add(time.subsec_millis() as u64)
}
