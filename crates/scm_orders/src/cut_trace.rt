//! A trace cut to lengths, as it is asked about.
ghost use Rattle.std.specs.Prelude.{ℕ, ◌≡◌, ◌≤◌, length, slice_index, None, MatchOption};
ghost use Rattle.scm_sequences.specs.declared.limits.TheConstants.{MOST_OPERATIONS, MOST_PROCESSES};
ghost use Rattle.scm_sequences.specs.Sequences.{read_of as op_read_of, written_to as op_written_to, operations};
ghost use Rattle.scm_sequences.specs.Traces.{initial_of, trace_of, cut_to};
ghost use Rattle.scm_orders.specs.Facts.{operation_at, read_at, written_at, IsReading};

use crate::Place;
use scm_sequences::{Lengths, Op, Sequences};
use std::marker::Model;

/// A read: where it stands, the cell that it reads, and what it read there.
#[derive(Clone, Copy)]
pub(crate) struct Reading {
    pub(crate) place: Place,
    pub(crate) cell: usize,
    pub(crate) value: u64,
}

/// The trace of these first contents and these sequences, cut to these lengths.
#[derive(Drop)]
pub(crate) struct CutTrace<'a> {
    initials: &'a [Option<u64>],
    sequences: &'a Sequences,
    lengths: &'a Lengths,
}

// What the operation read of this cell, if it did.
fn read_of(op: Op, cell: usize) -> Option<u64>
    ensures { result ≡ op_read_of op cell }
{
    match op {
        Op::R { value, .. } | Op::Rw { old: value, .. } if op.cell() == cell => Some(value),
        _ => None,
    }
}

// What the operation wrote to this cell, if it did.
fn written_to(op: Op, cell: usize) -> Option<u64>
    ensures { result ≡ op_written_to op cell }
{
    match op {
        Op::W { value, .. } | Op::Rw { new: value, .. } if op.cell() == cell => Some(value),
        _ => None,
    }
}

// The length of process `p`, 0 where there is none.
fn length_of(lengths: &Lengths, p: usize) -> u32
    ensures { result ≡ slice_index lengths.now p }
{
    if p < lengths.procs() {
        lengths.get(p)
    } else {
        0
    }
}

impl<'a> Model for CutTrace<'a> {
    ghost use Rattle.scm_sequences.specs.Traces.{Trace, trace_of, cut_to};

    ghost Value = { Trace };

    ghost view = { λ t. cut_to (trace_of t.initials.now t.sequences.now) t.lengths.now };
}

impl<'a> CutTrace<'a> {
    pub(crate) fn new(
        initials: &'a [Option<u64>],
        sequences: &'a Sequences,
        lengths: &'a Lengths,
    ) -> CutTrace<'a>
        ensures { result ≡ cut_to (trace_of initials.now sequences.now) lengths.now }
    {
        CutTrace {
            initials,
            sequences,
            lengths,
        }
    }

    /// The number of processes.
    pub(crate) fn procs(&self) -> usize
        ensures procs { result ≡ length self.now.sequences }
        ensures most { result ≤ MOST_PROCESSES }
    {
        self.sequences.procs()
    }

    /// How many operations process `p` has: 0 where there is no such process.
    pub(crate) fn count(&self, p: usize) -> usize
        ensures count { result ≡ length (operations self.now.sequences p) }
        ensures most { result ≤ MOST_OPERATIONS }
    {
        self.sequences
            .count(p)
            .min(length_of(self.lengths, p) as usize)
    }

    /// The operation at this place, if there is one.
    pub(crate) fn operation(&self, place: Place) -> Option<Op>
        ensures { result ≡ operation_at self.now place }
    {
        let p = usize::from(place.process);
        if place.at < length_of(self.lengths, p) {
            self.sequences.next(p, place.at as usize)
        } else {
            None
        }
    }

    /// What the operation at this place read of this cell, if it did.
    pub(crate) fn read(&self, place: Place, cell: usize) -> Option<u64>
        ensures { result ≡ read_at self.now place cell }
    {
        read_of(self.operation(place)?, cell)
    }

    /// What the operation at this place wrote to this cell, if it did.
    pub(crate) fn written(&self, place: Place, cell: usize) -> Option<u64>
        ensures { result ≡ written_at self.now place cell }
    {
        written_to(self.operation(place)?, cell)
    }

    /// What the operation at this place reads, if it reads.
    pub(crate) fn reading(&self, place: Place) -> Option<Reading>
        ensures { MatchOption result ((cell : ℕ) → read_at self.now place cell ≡ None) (λ read. IsReading self.now place read) }
    {
        let op = self.operation(place)?;
        let cell = op.cell();
        let value = read_of(op, cell)?;
        Some(Reading { place, cell, value })
    }

    /// What this cell holds at first, if that is known.
    pub(crate) fn initial(&self, cell: usize) -> Option<u64>
        ensures { result ≡ initial_of self.now cell }
    {
        match self.initials.get(cell) {
            Some(initial) => *initial,
            None => None,
        }
    }
}
