//! Operations that are to be visited.
use std::alloc::Global;
use std::collections::VecDeque;

/// Operations in the order in which they were flagged, each at most once.
#[derive(Drop)]
pub struct Flags {
    queue: VecDeque<u32>,
    is_flagged: Vec<bool>,
}

impl Flags {
    /// None of so many operations.
    pub fn new(alloc: Global, ops: u32) -> Option<Flags> {
        Some(Flags {
            queue: VecDeque::new(alloc),
            is_flagged: vec![in alloc; false; ops as usize].ok()?,
        })
    }

    /// Flags an operation.
    pub fn add(&mut self, x: u32) -> Option<()> {
        let flag = self.is_flagged.get_mut(x as usize)?;
        if *flag {
            return Some(());
        }
        *flag = true;
        self.queue.push_back(x).ok()
    }

    /// Takes the operation that was flagged first.
    pub fn next(&mut self) -> Option<u32> {
        let x = self.queue.pop_front()?;
        *self.is_flagged.get_mut(x as usize)? = false;
        Some(x)
    }

    /// Takes all.
    pub fn clear(&mut self) {
        for _ in 0..self.queue.len() {
            let _ = self.next();
        }
    }
}
