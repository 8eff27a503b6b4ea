//! How many operations each process has.
ghost use Rattle.std.specs.Prelude.{◌≡◌, ℕ, ◌<◌, ◌≤◌, ◌↔◌, List, length, slice_index, IsTrue};
ghost use Rattle.scm_sequences.specs.declared.limits.TheConstants.{MOST_PROCESSES};
ghost use Rattle.scm_sequences.specs.Sequences.{IsWithin};

use crate::MOST_PROCESSES;
use smallvec::SmallVec;
use std::alloc::Global;
use std::marker::Model;

/// One count of operations for each process. The counts lie inline, so no call takes memory.
#[derive(Drop)]
pub struct Lengths {
    counts: SmallVec<u32, MOST_PROCESSES>,
}

impl Model for Lengths {
    ghost use Rattle.std.specs.Prelude.{ℕ, List, ◌≤◌, length};
    ghost use Rattle.scm_sequences.specs.declared.limits.TheConstants.{MOST_PROCESSES};

    ghost Value = { List ℕ };

    ghost view = { λ l. l.counts.items };

    ghost invariant = { λ l. length l.counts.items ≤ MOST_PROCESSES };
}

impl Lengths {
    /// These counts, from process 0 on.
    pub fn new(alloc: Global, counts: &[u32]) -> Lengths
        requires { length counts.now ≤ MOST_PROCESSES }
        ensures { result ≡ counts.now }
    {
        Lengths {
            counts: SmallVec::from_slice(alloc, counts).unwrap(),
        }
    }

    /// The count of process `p`.
    pub fn get(&self, p: usize) -> u32
        requires { p < length self.now }
        ensures { result ≡ slice_index self.now p }
    {
        self.counts[p]
    }

    /// The counts, from process 0 on.
    pub fn counts(&self) -> &[u32]
        ensures counts { result.now ≡ self.now }
        ensures most { length self.now ≤ MOST_PROCESSES }
    {
        &self.counts
    }

    /// The number of processes.
    pub fn procs(&self) -> usize
        ensures procs { result ≡ length self.now }
        ensures most { length self.now ≤ MOST_PROCESSES }
    {
        self.counts.len()
    }

    /// Whether there are as many counts as processes, none greater than here.
    pub fn bound(&self, counts: &[u32]) -> bool
        ensures { IsTrue result ↔ IsWithin counts.now self.now }
    {
        counts.len() == self.counts.len()
            && counts
                .iter()
                .zip(self.counts.iter())
                .all(|(count, most)| count <= most)
    }
}
