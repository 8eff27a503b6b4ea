//! How workers tell whether callers rest.

use std::sync::Wait;
use std::sync::atomic::{AtomicU64, Ordering};
use std::time::Duration;

/// For so many milliseconds no call is made where callers rest.
const REST_MILLIS: u64 = 2;

/// Counts how often callers came, and remembers the last count at which it is known that they rested. It stands beside the
/// lock, under which alone it is counted up.
#[derive(Drop)]
pub(crate) struct CallerCounts {
    came: AtomicU64,
    rested: AtomicU64,
    ended: AtomicU64,
}

impl CallerCounts {
    /// Nobody came.
    pub(crate) fn new() -> CallerCounts {
        CallerCounts {
            came: AtomicU64::new(0),
            rested: AtomicU64::new(0),
            ended: AtomicU64::new(0),
        }
    }

    /// A caller comes, who has the lock: so nobody else counts, and a load and a store are enough.
    pub(crate) fn come(&self) {
        let came = self.came.load(Ordering::Relaxed);
        self.came.store(came.wrapping_add(1), Ordering::Release);
    }

    /// Workers are to end, now and from now on.
    pub(crate) fn close(&self) {
        self.ended.store(1, Ordering::SeqCst);
        self.ended.wake_all();
    }

    /// Waits until no caller came for some milliseconds, or workers are to end. Who waits sleeps, and no caller has to wake it.
    pub(crate) fn wait<R: Wait>(&self, rt: &R) {
        for _ in rt.forever() {
            let came = self.came.load(Ordering::Acquire);
            if self.is_ended() || came == self.rested.load(Ordering::SeqCst) {
                break;
            }
            self.ended
                .park_timeout(rt, 0, Duration::from_millis(REST_MILLIS));
            if self.came.load(Ordering::Acquire) == came {
                self.rested.store(came, Ordering::SeqCst);
            }
        }
    }

    /// How many callers came, where it is known that they rested since; `None` where it isn't.
    pub(crate) fn resting(&self) -> Option<u64> {
        let came = self.came.load(Ordering::Acquire);
        if came == self.rested.load(Ordering::SeqCst) {
            Some(came)
        } else {
            None
        }
    }

    /// Whether a caller came since there were so many, or workers are to end.
    pub(crate) fn is_disturbed(&self, came: u64) -> bool {
        self.is_ended() || self.came.load(Ordering::Acquire) != came
    }

    fn is_ended(&self) -> bool {
        self.ended.load(Ordering::SeqCst) != 0
    }
}
