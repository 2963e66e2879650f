//! What a daemon that was just killed has left is waited for, two seconds in all.
use std::thread;
use std::time::{Clock, Duration};

/// How often it is asked for before the last time.
pub(crate) const TRIES: u32 = 100;

/// How long is waited behind each, in milliseconds.
const PAUSE: u64 = 20;

pub(crate) fn pause<R: Clock>(clock: &R) {
    thread::sleep(clock, Duration::from_millis(PAUSE));
}
