//! The walk: one operation after the other.
use crate::choosing::{Rank, RankedOperation};
use crate::numbers::Numbers;
use crate::order::Order;
use std::alloc::Global;

/// How much fuel a walk gets each time that it makes more operations than ever before: so much, and so much for each process.
/// Walks that come to their end burn less on the whole.
const INCOME: u64 = 4;

const INCOME_OF_PROCESS: u64 = 3;

/// A walk, with all that is needed to take back what it made.
#[derive(Drop)]
pub(crate) struct GuidedWalk {
    pub(crate) order: Order,
    /// What each cell holds.
    memory: Vec<Content>,
    pub(crate) last: u32,
    /// How many known readers of each writer are to be made.
    pub(crate) readers: Numbers,
    /// For each write the writer of what its cell holds, over which it may not be made.
    pub(crate) barred: Vec<Option<u32>>,
    bars: Vec<Bar>,
    made: Vec<MadeOperation>,
    decisions: Vec<Decision>,
    /// The most operations that were made.
    pub(crate) farthest: usize,
    // How much fuel there may be at a time.
    patience: u64,
}

/// The value that a cell holds, `None` where it is open, and which operation wrote it.
#[derive(Clone, Copy)]
pub(crate) struct Content {
    pub(crate) value: Option<u32>,
    pub(crate) writer: u32,
}

/// An operation that was made, and what its cell held before.
#[derive(Clone, Copy)]
struct MadeOperation {
    x: u32,
    process: u32,
    before: Content,
}

/// A write that was barred, and what barred it before.
#[derive(Clone, Copy)]
struct Bar {
    x: u32,
    before: Option<u32>,
}

/// A write that was chosen from several: how many operations were made before, how many clocks changed, and how many writes
/// were barred.
#[derive(Clone, Copy)]
struct Decision {
    x: u32,
    made: usize,
    changes: usize,
    bars: usize,
}

impl GuidedWalk {
    /// Before any operation. Where it makes no more operations than before, it burns no more than `patience`.
    pub(crate) fn new(alloc: Global, order: Order, patience: u64) -> Option<GuidedWalk> {
        let mut memory = Vec::new(alloc);
        for cell in 0..order.facts.cells {
            let value = order.facts.given.values.first(cell)?;
            let writer = order.facts.ops.checked_add(cell)?;
            memory.push(Content { value, writer }).ok()?;
        }
        let readers = order.facts.reader_counts(alloc)?;
        let barred = vec![in alloc; None; order.facts.ops as usize].ok()?;
        Some(GuidedWalk {
            order,
            memory,
            last: 0,
            readers,
            barred,
            bars: Vec::new(alloc),
            made: Vec::new(alloc),
            decisions: Vec::new(alloc),
            farthest: 0,
            patience,
        })
    }

    /// What the cell of `x` holds.
    pub(crate) fn content(&self, x: u32) -> Option<Content> {
        let cell = self.order.facts.given.numbering.cell(x)?;
        self.memory.get(cell as usize).copied()
    }

    // From now on the cell of `x` holds this.
    fn set_content(&mut self, x: u32, content: Content) -> Option<()> {
        let cell = self.order.facts.given.numbering.cell(x)?;
        *self.memory.get_mut(cell as usize)? = content;
        Some(())
    }

    /// Makes all operations, once the order is saturated. `None` where it gives up.
    pub(crate) fn make_all(&mut self) -> Option<()> {
        self.order.spread()?;
        self.order.begin_walk();
        self.order.fuel = self.order.fuel.min(self.patience);
        for _ in 0..u64::MAX {
            if self.made.len() == self.order.facts.ops as usize {
                return Some(());
            }
            self.earn();
            self.order.burn()?;
            match self.choose() {
                Some(choice) => self.try_out(choice)?,
                None => {
                    let decision = self.decisions.pop()?;
                    self.take_back(decision)?;
                }
            }
        }
        None
    }

    // Gets fuel where more operations are made than ever before.
    fn earn(&mut self) {
        if self.made.len() <= self.farthest {
            return;
        }
        self.farthest = self.made.len();
        let income = u64::from(self.order.facts.procs)
            .saturating_mul(INCOME_OF_PROCESS)
            .saturating_add(INCOME);
        self.order.fuel = self.order.fuel.saturating_add(income).min(self.patience);
    }

    // Makes an operation, and takes it back where its consequences contradict each other.
    fn try_out(&mut self, choice: RankedOperation) -> Option<()> {
        let decision = Decision {
            x: choice.x,
            made: self.made.len(),
            changes: self.order.clocks.changes(),
            bars: self.bars.len(),
        };
        self.make(choice.x)?;
        if choice.rank == Rank::Harmless {
            return Some(());
        }
        if self.draw(choice.x).is_none() {
            self.order.flags.clear();
            return self.take_back(decision);
        }
        if let Rank::Read { .. } = choice.rank {
            self.decisions.push(decision).ok()?;
        }
        Some(())
    }

    // Takes back all from a write on, and bars it. What was barred meanwhile was so because that write was made.
    fn take_back(&mut self, decision: Decision) -> Option<()> {
        self.order.clocks.take_back(decision.changes)?;
        for _ in decision.made..self.made.len() {
            self.order.burn()?;
            self.unmake()?;
        }
        for _ in decision.bars..self.bars.len() {
            let bar = self.bars.pop()?;
            *self.barred.get_mut(bar.x as usize)? = bar.before;
        }
        self.bar(decision.x)
    }

    // A write may not be made as long as its cell holds what it holds now.
    fn bar(&mut self, x: u32) -> Option<()> {
        let writer = self.content(x)?.writer;
        let before = self.barred.get_mut(x as usize)?.replace(writer);
        self.bars.push(Bar { x, before }).ok()
    }

    fn make(&mut self, x: u32) -> Option<()> {
        let (process, _) = self.order.facts.given.numbering.spot(x)?;
        let before = self.content(x)?;
        self.made.push(MadeOperation { x, process, before }).ok()?;
        self.last = process;
        self.order.counts.raise(process)?;
        self.order.flag_entering(process)?;
        if let Some(source) = self.order.facts.source(x) {
            self.readers.lower(source)?;
        }
        let content = if self.order.facts.is_harmless(x) {
            let found = self.order.facts.given.values.found(x);
            let value = found.or(before.value);
            Content { value, ..before }
        } else {
            let value = self.order.facts.given.values.written(x);
            Content { value, writer: x }
        };
        self.set_content(x, content)
    }

    fn unmake(&mut self) -> Option<()> {
        let MadeOperation { x, process, before } = self.made.pop()?;
        self.order.counts.lower(process)?;
        if let Some(source) = self.order.facts.source(x) {
            self.readers.raise(source)?;
        }
        self.set_content(x, before)
    }

    // Draws the consequences of a write that was just made: the next writes to its cell come after its readers.
    fn draw(&mut self, x: u32) -> Option<()> {
        let cell = self.order.facts.given.numbering.cell(x)?;
        for process in 0..self.order.facts.procs {
            let count = self.order.counts.get(process)?;
            let Some(place) = self.order.facts.given.writes.from(process, cell, count) else {
                continue;
            };
            let later = self.order.facts.given.numbering.number(process, place)?;
            if self.order.put_after_readers(later, x)? {
                self.order.flag(later)?;
                self.order.flag_dependents(later)?;
            }
        }
        self.order.spread()
    }

    /// Adds the processes of what was made, in order, to a schedule.
    pub(crate) fn add_to(&self, schedule: &mut Vec<u8>) -> Option<()> {
        for made in self.made.iter() {
            schedule.push(u8::try_from(made.process).ok()?).ok()?;
        }
        Some(())
    }
}
