//! The sequences of operations of a trace, one for each process.
ghost use Rattle.std.specs.Prelude.{◌≡◌, ◌<◌, ◌≤◌, ◌↔◌, List, length, replicate, [], IsTrue, IfOk, IfErr, OnOk, OnErr, All};
ghost use Rattle.scm_sequences.specs.declared.limits.TheConstants.{MOST_OPERATIONS, MOST_PROCESSES};
ghost use Rattle.scm_sequences.specs.Sequences.{Refuses, cell_of, NamesCellsBelow, IsWithin, operation, operations, pushed, lengths_of, push_refusal, cut_lists, AreSequences};

use crate::{Lengths, MOST_OPERATIONS, MOST_PROCESSES, NoMemory, Op, Refusal};
use std::alloc::Global;
use std::marker::Model;

/// One sequence of operations for each of 1 to `MOST_PROCESSES` processes, which are numbered from 0.
#[derive(Drop)]
pub struct Sequences {
    lists: Vec<Vec<Op>>,
}

/// Whether every operation of one sequence names a cell below `n`.
fn list_below(list: &Vec<Op>, n: usize) -> bool
    ensures { IsTrue result ↔ All (λ op. cell_of op < n) list.now.items }
{
    list.iter().all(|op| op.cell() < n)
}

/// Whether every operation of these sequences names a cell below `n`.
fn lists_below(lists: &[Vec<Op>], n: usize) -> bool
    ensures { IsTrue result ↔ All (λ list. All (λ op. cell_of op < n) list.items) lists.now }
{
    lists.iter().all(|list| list_below(list, n))
}

impl Model for Sequences {
    ghost use Rattle.std.specs.Prelude.{List, map, ◌≤◌, ◌<◌, length};
    ghost use Rattle.scm_sequences.specs.declared.op.Op.{Op};
    ghost use Rattle.scm_sequences.specs.Sequences.{AreSequences};

    ghost Value = { List (List Op) };

    ghost view = { λ s. map (λ list. list.items) s.lists.items };

    ghost invariant = { λ s. AreSequences (map (λ list. list.items) s.lists.items) };
}

impl Sequences {
    /// Empty sequences of this many processes.
    pub fn new(alloc: Global, procs: usize) -> Result<Sequences, NoMemory>
        requires least { 0 < procs }
        requires most { procs ≤ MOST_PROCESSES }
        ensures { IfOk result (λ s. s ≡ replicate procs []) }
    {
        let mut lists = Vec::with_capacity(alloc, procs)?;
        for _ in 0..procs {
            lists.push(Vec::new(alloc))?;
        }
        Ok(Sequences { lists })
    }

    /// The number of processes.
    pub fn procs(&self) -> usize
        ensures procs { result ≡ length self.now }
        ensures sequences { AreSequences self.now }
    {
        self.lists.len()
    }

    /// Adds an operation at the end of the sequence of process `p`, in amortized constant time.
    ///
    /// Refused `NoSuchProcess`, `SequenceFull`, or `NoMemory`; unchanged after a refusal.
    pub fn push(&mut self, p: usize, op: Op) -> Result<(), Refusal>
        ensures ok { OnOk result ((push_refusal self.old p ≡ None) × (self.new ≡ pushed self.old p op)) }
        ensures err { IfErr result (Refuses (push_refusal self.old p)) }
        ensures unchanged { OnErr result (self.new ≡ self.old) }
    {
        let Some(list) = self.lists.get_mut(p) else {
            return Err(Refusal::NoSuchProcess);
        };
        if list.len() >= MOST_OPERATIONS {
            return Err(Refusal::SequenceFull);
        }
        list.push(op).map_err(|_| Refusal::NoMemory)
    }

    /// The operation at place `at` of process `p`, if there is one.
    pub fn next(&self, p: usize, at: usize) -> Option<Op>
        ensures next { result ≡ operation self.now p at }
        ensures sequences { AreSequences self.now }
    {
        self.lists.get(p)?.get(at).copied()
    }

    /// How many operations process `p` has: 0 where there is no such process.
    pub fn count(&self, p: usize) -> usize
        ensures count { result ≡ length (operations self.now p) }
        ensures most { result ≤ MOST_OPERATIONS }
    {
        self.lists.get(p).map_or(0, |list| list.len())
    }

    /// The operations of process `p`, in order: none where there is no such process.
    pub fn operations(&self, p: usize) -> &[Op]
        ensures { result.now ≡ operations self.now p }
    {
        match self.lists.get(p) {
            Some(list) => list.as_slice(),
            None => &[],
        }
    }

    /// How many operations each process has.
    pub fn lengths(&self) -> Lengths
        ensures { result ≡ lengths_of self.now }
    {
        let mut counts = [0u32; MOST_PROCESSES];
        for (p, list) in self.lists.iter().enumerate() {
            counts[p] = list.len() as u32;
        }
        Lengths::new(*self.lists.allocator(), &counts[..self.lists.len()])
    }

    /// Keeps of each process as many of its first operations as these lengths say. It takes no memory.
    pub fn cut(&mut self, lengths: &Lengths)
        requires { IsWithin lengths.now (lengths_of self.old) }
        ensures { self.new ≡ cut_lists self.old lengths.now }
    {
        for (p, list) in self.lists.iter_mut().enumerate() {
            list.truncate(lengths.get(p) as usize);
        }
    }

    /// Whether every operation names a cell below `n`.
    pub fn names_cells_below(&self, n: usize) -> bool
        ensures { IsTrue result ↔ NamesCellsBelow n self.now }
    {
        lists_below(&self.lists, n)
    }
}
