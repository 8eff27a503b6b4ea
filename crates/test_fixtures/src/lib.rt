//! What tests of threads share: how they wait for what other threads do.
#![tactic(auto)]

mod barrier;

pub use barrier::Barrier;
use std::sync::atomic::{AtomicBool, AtomicU64, Ordering};
use std::thread;

/// So often a thread yields to others at most.
pub const MOST_TURNS: u64 = 100_000_000;

/// Whether it is set in the end.
pub fn is_set(flag: &AtomicBool) -> bool {
    for _ in 0..MOST_TURNS {
        if flag.load(Ordering::SeqCst) {
            return true;
        }
        thread::yield_now();
    }
    false
}

/// Whether the number rises to `least`.
pub fn rises_to(number: &AtomicU64, least: u64) -> bool {
    for _ in 0..MOST_TURNS {
        if number.load(Ordering::SeqCst) >= least {
            return true;
        }
        thread::yield_now();
    }
    false
}
