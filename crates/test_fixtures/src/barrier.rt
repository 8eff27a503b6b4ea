//! Workers are held.

use crate::{is_set, rises_to};
use scm_expand::Gate;
use std::sync::atomic::{AtomicBool, AtomicU64, Ordering};

/// Holds workers until it is opened, and counts how many came, and how many left.
#[derive(Drop)]
pub struct Barrier {
    came: AtomicU64,
    left: AtomicU64,
    is_open: AtomicBool,
}

impl Barrier {
    /// Holds whoever comes.
    pub fn new() -> Barrier {
        Barrier {
            came: AtomicU64::new(0),
            left: AtomicU64::new(0),
            is_open: AtomicBool::new(false),
        }
    }

    /// Whether so many come in the end.
    pub fn holds(&self, least: u64) -> bool {
        rises_to(&self.came, least)
    }

    /// How many came.
    pub fn came(&self) -> u64 {
        self.came.load(Ordering::SeqCst)
    }

    /// How many left.
    pub fn left(&self) -> u64 {
        self.left.load(Ordering::SeqCst)
    }

    /// Lets all go.
    pub fn open(&self) {
        self.is_open.store(true, Ordering::SeqCst);
    }
}

impl Gate for Barrier {
    fn before_expand(&self, _worker: usize) {
        self.came.fetch_add(1, Ordering::SeqCst);
        let _ = is_set(&self.is_open);
        self.left.fetch_add(1, Ordering::SeqCst);
    }
}
