//! The time of day.

use std::time::{Clock, SystemTime, UNIX_EPOCH};

/// The moment, in milliseconds since 1970. 0 where the system has no clock.
pub fn moment<R: Clock>(rt: &R) -> u64 {
    let Ok(now) = SystemTime::now(rt) else {
        return 0;
    };
    match now.duration_since(UNIX_EPOCH) {
        Ok(passed) => passed
            .as_secs()
            .saturating_mul(1000)
            .saturating_add(u64::from(passed.subsec_millis())),
        Err(_) => 0,
    }
}
