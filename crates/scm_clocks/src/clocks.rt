//! Vector clocks that can be taken back.
use crate::grid::Grid;
use crate::numbering::Numbering;
use std::alloc::Global;

/// For each operation, how many operations of each process come before it in every legal schedule.
#[derive(Drop)]
pub struct Clocks {
    counts: Grid,
    changes: Vec<Change>,
    is_recorded: bool,
}

/// What a number was before it rose.
#[derive(Clone, Copy)]
struct Change {
    x: u32,
    process: u32,
    count: u32,
}

impl Clocks {
    /// The order of each process alone.
    pub fn new(alloc: Global, numbering: &Numbering) -> Option<Clocks> {
        let mut counts = Grid::zeros(alloc, numbering.len()?, numbering.procs()?)?;
        for x in 0..numbering.len()? {
            let (process, place) = numbering.spot(x)?;
            counts.set(x, process, place)?;
        }
        Some(Clocks {
            counts,
            changes: Vec::new(alloc),
            is_recorded: false,
        })
    }

    /// From now on changes can be taken back.
    pub fn record(&mut self) {
        self.is_recorded = true;
    }

    /// How many operations of a process come before `x`.
    pub fn get(&self, x: u32, process: u32) -> Option<u32> {
        self.counts.get(x, process)
    }

    /// The clock of an operation.
    pub fn row(&self, x: u32) -> Option<&[u32]> {
        self.counts.row(x)
    }

    /// So many operations of a process come before `x` from now on.
    pub fn set(&mut self, x: u32, process: u32, count: u32) -> Option<()> {
        if self.is_recorded {
            let change = Change {
                x,
                process,
                count: self.get(x, process)?,
            };
            self.changes.push(change).ok()?;
        }
        self.counts.set(x, process, count)
    }

    /// How many changes were made.
    pub fn changes(&self) -> usize {
        self.changes.len()
    }

    /// Takes back all changes but the first so many.
    pub fn take_back(&mut self, kept: usize) -> Option<()> {
        for _ in kept..self.changes.len() {
            let change = self.changes.pop()?;
            self.counts.set(change.x, change.process, change.count)?;
        }
        Some(())
    }
}

/// Whether each number is at most the one at its place among `others`.
pub fn is_covered(numbers: &[u32], others: &[u32]) -> bool {
    let mut is_more = false;
    for (number, other) in numbers.iter().zip(others) {
        is_more |= number > other;
    }
    !is_more
}
