//! One numbering of all operations.
use crate::part::Part;
use scm_sequences::Op;
use std::alloc::Global;

/// Operations under one number each: those of process 0 in order, then those of process 1, ..
#[derive(Drop)]
pub struct Numbering {
    ops: Vec<Op>,
    owners: Vec<u32>,
    firsts: Vec<u32>,
    counts: Vec<u32>,
}

impl Numbering {
    /// Of the operations of a part.
    pub(crate) fn new(alloc: Global, part: &Part) -> Option<Numbering> {
        let mut numbering = Numbering {
            ops: Vec::new(alloc),
            owners: Vec::new(alloc),
            firsts: Vec::new(alloc),
            counts: Vec::new(alloc),
        };
        for (p, (made, end)) in part.made.iter().zip(part.ends).enumerate() {
            let left = *made as usize..*end as usize;
            numbering.add(part.sequences.operations(p).get(left)?)?;
        }
        Some(numbering)
    }

    // Adds a process with these operations.
    fn add(&mut self, ops: &[Op]) -> Option<()> {
        let owner = self.procs()?;
        let first = self.len()?;
        self.firsts.push(first).ok()?;
        for op in ops {
            self.ops.push(*op).ok()?;
            self.owners.push(owner).ok()?;
        }
        self.counts.push(u32::try_from(ops.len()).ok()?).ok()
    }

    /// How many processes there are.
    pub fn procs(&self) -> Option<u32> {
        u32::try_from(self.counts.len()).ok()
    }

    /// How many operations the process has that has most.
    pub fn longest(&self) -> Option<u32> {
        self.counts.iter().copied().max()
    }

    /// How many operations there are.
    pub fn len(&self) -> Option<u32> {
        u32::try_from(self.ops.len()).ok()
    }

    /// How many operations a process has.
    pub fn count(&self, process: u32) -> Option<u32> {
        self.counts.get(process as usize).copied()
    }

    /// An operation, by its number.
    pub(crate) fn op(&self, x: u32) -> Option<Op> {
        self.ops.get(x as usize).copied()
    }

    /// The cell that an operation is about.
    pub fn cell(&self, x: u32) -> Option<u32> {
        u32::try_from(self.op(x)?.cell()).ok()
    }

    /// The process of an operation, and its place there.
    pub fn spot(&self, x: u32) -> Option<(u32, u32)> {
        let process = *self.owners.get(x as usize)?;
        let first = *self.firsts.get(process as usize)?;
        Some((process, x.checked_sub(first)?))
    }

    /// The number of the operation at a place of a process, if it has one there.
    pub fn number(&self, process: u32, place: u32) -> Option<u32> {
        if place < self.count(process)? {
            self.firsts.get(process as usize)?.checked_add(place)
        } else {
            None
        }
    }
}
