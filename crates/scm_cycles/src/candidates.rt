//! What is left for reads to see.
use crate::placed_lists::PlacedLists;
use crate::touching::Side;
use scm_clocks::Given;
use std::alloc::Global;

/// Where the writes of one process that are left stand in the list of the value: those from `low` on, below `high`; and the
/// first and the last of them.
#[derive(Clone, Copy, PartialEq, Eq)]
pub(crate) struct Bounds {
    pub(crate) low: u32,
    pub(crate) high: u32,
    pub(crate) ends: Option<(u32, u32)>,
}

impl Bounds {
    const NOTHING: Bounds = Bounds {
        low: 0,
        high: 0,
        ends: None,
    };

    // Of first contents.
    const FIRST: Bounds = Bounds {
        high: 1,
        ..Bounds::NOTHING
    };

    /// Of these places in the list of the value.
    pub(crate) fn new(writers: &[u32], low: u32, high: u32) -> Option<Bounds> {
        if low >= high {
            return Some(Bounds::NOTHING);
        }
        let last = high.checked_sub(1)?;
        let first = *writers.get(low as usize)?;
        let last = *writers.get(last as usize)?;
        Some(Bounds {
            low,
            high,
            ends: Some((first, last)),
        })
    }

    /// How many there are.
    pub(crate) fn len(self) -> u32 {
        self.high.saturating_sub(self.low)
    }
}

/// Of so much that is left, one is to be chosen.
const SEVERAL: u32 = 2;

/// A change of bounds: what they were before.
#[derive(Clone, Copy)]
struct BoundsChange {
    at: u32,
    bounds: Bounds,
}

/// For each operation and each process the bounds of what is left for it to see, but for what single steps rule out between
/// others that are left; and last whether first contents are left. Of a read whose source is known nothing is. With it how much
/// is left for each to see, for which several are left, and for each write of which bounds it is the first one, or the last.
#[derive(Drop)]
pub(crate) struct Candidates {
    procs: u32,
    bounds: Vec<Bounds>,
    changes: Vec<BoundsChange>,
    is_recorded: bool,
    lefts: Vec<u32>,
    open: PlacedLists,
    firsts: PlacedLists,
    lasts: PlacedLists,
}

impl Candidates {
    /// All writes of what each read finds, but for later ones of its process, and first contents.
    pub(crate) fn new(alloc: Global, given: &Given) -> Option<Candidates> {
        let (procs, ops) = (given.numbering.procs()?, given.numbering.len()?);
        let count = ops.checked_mul(procs.checked_add(1)?)?;
        let mut candidates = Candidates {
            procs,
            bounds: vec![in alloc; Bounds::NOTHING; count as usize].ok()?,
            changes: Vec::new(alloc),
            is_recorded: false,
            lefts: vec![in alloc; 0; ops as usize].ok()?,
            open: PlacedLists::new(alloc, 1, ops)?,
            firsts: PlacedLists::new(alloc, ops, count)?,
            lasts: PlacedLists::new(alloc, ops, count)?,
        };
        for x in 0..ops {
            if let Some(value) = given.values.found(x) {
                candidates.add(given, x, value)?;
            }
        }
        Some(candidates)
    }

    fn add(&mut self, given: &Given, read: u32, value: u32) -> Option<()> {
        let (owner, _) = given.numbering.spot(read)?;
        let (mut end, mut low) = (0u32, 0);
        for process in 0..self.procs {
            end = end.checked_add(given.numbering.count(process)?)?;
            let count = given.writers.count(value, end)?;
            let high = if process == owner {
                given.writers.count(value, read)?
            } else {
                count
            };
            let bounds = Bounds::new(given.writers.of(value)?, low, high)?;
            self.set(read, process, bounds)?;
            low = count;
        }
        self.set(read, self.procs, Bounds::FIRST)
    }

    /// From now on changes can be taken back.
    pub(crate) fn record(&mut self) {
        self.is_recorded = true;
    }

    // How many bounds a read has.
    fn width(&self) -> Option<u32> {
        self.procs.checked_add(1)
    }

    fn place(&self, read: u32, process: u32) -> Option<u32> {
        read.checked_mul(self.width()?)?.checked_add(process)
    }

    pub(crate) fn get(&self, read: u32, process: u32) -> Option<Bounds> {
        let at = self.place(read, process)?;
        self.bounds.get(at as usize).copied()
    }

    /// The bounds that a change of what comes before a write concerns, or after it: those of which it is the first one, or the
    /// last one.
    pub(crate) fn ending_with(&self, write: u32, side: Side) -> Option<&[u32]> {
        match side {
            Side::Before => self.firsts.get(write),
            Side::After => self.lasts.get(write),
        }
    }

    /// Of which read these bounds are.
    pub(crate) fn read_of(&self, at: u32) -> Option<u32> {
        at.checked_div(self.width()?)
    }

    /// How much is left for a read.
    pub(crate) fn left(&self, read: u32) -> Option<u32> {
        self.lefts.get(read as usize).copied()
    }

    /// The reads for which several are left.
    pub(crate) fn open_reads(&self) -> Option<&[u32]> {
        self.open.get(0)
    }

    /// Whether first contents are left for a read.
    pub(crate) fn is_first_left(&self, read: u32) -> Option<bool> {
        Some(self.get(read, self.procs)?.len() > 0)
    }

    /// The bounds of all processes.
    pub(crate) fn row(&self, read: u32) -> Option<&[Bounds]> {
        let start = self.place(read, 0)? as usize;
        self.bounds
            .get(start..start.checked_add(self.procs as usize)?)
    }

    /// First contents aren't left for a read any more.
    pub(crate) fn rule_out_first(&mut self, read: u32) -> Option<()> {
        self.set(read, self.procs, Bounds::NOTHING)
    }

    /// Puts new bounds in the place of a read's old ones.
    pub(crate) fn set(&mut self, read: u32, process: u32, bounds: Bounds) -> Option<()> {
        let at = self.place(read, process)?;
        if self.is_recorded {
            let bounds = self.get(read, process)?;
            self.changes.push(BoundsChange { at, bounds }).ok()?;
        }
        self.exchange(at, bounds)
    }

    fn exchange(&mut self, at: u32, bounds: Bounds) -> Option<()> {
        let place = self.bounds.get_mut(at as usize)?;
        let old = *place;
        *place = bounds;
        let read = self.read_of(at)?;
        let left = self.left(read)?.checked_sub(old.len())?;
        self.set_left(read, left.checked_add(bounds.len())?)?;
        if let Some((first, last)) = old.ends {
            self.firsts.remove(first, at)?;
            self.lasts.remove(last, at)?;
        }
        if let Some((first, last)) = bounds.ends {
            self.firsts.add(first, at)?;
            self.lasts.add(last, at)?;
        }
        Some(())
    }

    fn set_left(&mut self, read: u32, left: u32) -> Option<()> {
        let place = self.lefts.get_mut(read as usize)?;
        let (was_open, is_open) = (*place >= SEVERAL, left >= SEVERAL);
        *place = left;
        match (was_open, is_open) {
            (false, true) => self.open.add(0, read),
            (true, false) => self.open.remove(0, read),
            _ => Some(()),
        }
    }

    /// The source of the read is known: nothing is left.
    pub(crate) fn close(&mut self, read: u32) -> Option<()> {
        for process in 0..self.width()? {
            if self.get(read, process)?.len() > 0 {
                self.set(read, process, Bounds::NOTHING)?;
            }
        }
        Some(())
    }

    /// How many changes were made.
    pub(crate) fn changes(&self) -> usize {
        self.changes.len()
    }

    /// Takes back all changes but the first so many.
    pub(crate) fn take_back(&mut self, kept: usize) -> Option<()> {
        for _ in kept..self.changes.len() {
            let change = self.changes.pop()?;
            self.exchange(change.at, change.bounds)?;
        }
        Some(())
    }
}
