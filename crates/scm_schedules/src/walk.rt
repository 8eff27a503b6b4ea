//! A walk along a list of process numbers.
ghost use Rattle.std.specs.Prelude.{◌≡◌, ◌-◌, ◌<◌, ◌≤◌, ◌^◌, ◌↔◌, length, IsTrue, MatchBool, None, Some, OnSome, option_and_then, slice_index};
ghost use Rattle.scm_sequences.specs.declared.limits.TheConstants.{MOST_CELLS, MOST_PROCESSES};
ghost use Rattle.scm_sequences.specs.Sequences.{cell_of, NamesCellsBelow, operation, cut_lists};
ghost use Rattle.scm_frontier.specs.Situations.{start_of, step_of};
ghost use Rattle.scm_schedules.specs.Refuting.{step_by, open_read_of};

use arrayvec::ArrayVec;
use scm_sequences::{Lengths, MOST_CELLS, MOST_PROCESSES, Op, Sequences};
use std::marker::Model;

/// How many operations of each process were passed so far, and what each cell holds there. It lies in the value
/// itself, so no call takes memory.
#[derive(Drop)]
pub(crate) struct Walk {
    counts: ArrayVec<u32, MOST_PROCESSES>,
    contents: ArrayVec<Option<u64>, MOST_CELLS>,
}

impl Model for Walk {
    ghost use Rattle.scm_frontier.specs.Situations.{Situated};

    ghost Value = { Situated };

    ghost view = { λ w. record { counts = w.counts.items; contents = w.contents.items } };
}

impl Walk {
    /// Before any operation, of cells that hold this at first and of this many processes.
    pub(crate) fn start(initials: &[Option<u64>], procs: usize) -> Walk
        requires procs { procs ≤ MOST_PROCESSES }
        requires cells { length initials.now ≤ MOST_CELLS }
        ensures { result ≡ start_of initials.now procs }
    {
        Walk {
            counts: ArrayVec::try_from(&[0; MOST_PROCESSES][..procs]).unwrap(),
            contents: ArrayVec::try_from(initials).unwrap(),
        }
    }

    /// Takes the next operation of process `p` within these lengths. False where there is none, or where it read a
    /// value that its cell neither holds nor leaves open.
    pub(crate) fn step(&mut self, p: usize, sequences: &Sequences, lengths: &Lengths) -> bool
        requires procs { length self.old.counts ≡ length lengths.now }
        requires cells { NamesCellsBelow (length self.old.contents) sequences.now }
        ensures { MatchBool result
            (step_by (cut_lists sequences.now lengths.now) self.old p ≡ Some self.new)
            (step_by (cut_lists sequences.now lengths.now) self.old p ≡ None) }
    {
        match self.next(p, sequences, lengths) {
            Some(op) => self.pass(p, op),
            None => false,
        }
    }

    /// What the next operation of process `p` within these lengths reads of a cell that is open here, and the number of
    /// that cell.
    pub(crate) fn open_read(
        &self,
        p: usize,
        sequences: &Sequences,
        lengths: &Lengths,
    ) -> Option<(usize, u64)>
        requires procs { length self.now.counts ≡ length lengths.now }
        requires cells { NamesCellsBelow (length self.now.contents) sequences.now }
        ensures { result ≡ option_and_then (open_read_of self.now) (operation (cut_lists sequences.now lengths.now) p (slice_index self.now.counts p)) }
    {
        match self.next(p, sequences, lengths) {
            Some(op) => self.open_read_of(op),
            None => None,
        }
    }

    // What this operation reads of its cell, and the number of that, where it is open here.
    fn open_read_of(&self, op: Op) -> Option<(usize, u64)>
        requires { cell_of op < length self.now.contents }
        ensures { result ≡ open_read_of self.now op }
    {
        let cell = op.cell();
        if self.contents[cell].is_some() {
            return None;
        }
        match op {
            Op::R { value, .. } | Op::Rw { old: value, .. } => Some((cell, value)),
            Op::W { .. } => None,
        }
    }

    // The operation of process `p` that comes next within these lengths.
    fn next(&self, p: usize, sequences: &Sequences, lengths: &Lengths) -> Option<Op>
        requires { length self.now.counts ≡ length lengths.now }
        ensures next { result ≡ operation (cut_lists sequences.now lengths.now) p (slice_index self.now.counts p) }
        ensures process { OnSome result (p < length self.now.counts) }
        ensures room { OnSome result (slice_index self.now.counts p < 2 ^ 32 - 1) }
    {
        if p < lengths.procs() && self.counts[p] < lengths.get(p) {
            sequences.next(p, self.counts[p] as usize)
        } else {
            None
        }
    }

    // Passes this operation of process `p`, unless its cell holds another value than it read.
    fn pass(&mut self, p: usize, op: Op) -> bool
        requires process { p < length self.old.counts }
        requires cell { cell_of op < length self.old.contents }
        requires room { slice_index self.old.counts p < 2 ^ 32 - 1 }
        ensures { MatchBool result (step_of self.old p op ≡ Some self.new) (step_of self.old p op ≡ None) }
    {
        let cell = op.cell();
        if !op.finds(self.contents[cell]) {
            return false;
        }
        self.counts[p] += 1;
        self.contents[cell] = Some(op.value_after());
        true
    }

    /// Whether every operation within these lengths was passed.
    pub(crate) fn has_all(&self, lengths: &Lengths) -> bool
        requires { length self.now.counts ≡ length lengths.now }
        ensures { IsTrue result ↔ (self.now.counts ≡ lengths.now) }
    {
        (0..lengths.procs()).all(|p| self.counts[p] == lengths.get(p))
    }
}
