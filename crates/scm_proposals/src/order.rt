//! What comes before what in every legal schedule that begins with what was made so far.
use crate::facts::Facts;
use crate::numbers::Numbers;
use scm_clocks::{Clocks, Flags, is_covered};
use scm_cycles::Guess;
use std::alloc::Global;

/// How many operations of a process ahead are visited during the walk.
const WINDOW: u32 = 24;

/// How many visits and moves a walk begins with for each operation that is left: so many, and as many for each process. It gets
/// more where it gets further.
const MOST_VISITS: u64 = 5;

/// The clocks of all operations, and how far each process has come. `None` from a method that raises clocks says that
/// the order contradicts itself, or that the fuel is spent.
#[derive(Drop)]
pub(crate) struct Order {
    pub(crate) facts: Facts,
    pub(crate) clocks: Clocks,
    pub(crate) counts: Numbers,
    pub(crate) flags: Flags,
    pub(crate) window: u32,
    pub(crate) fuel: u64,
    pub(crate) visits: u64,
}

impl Order {
    /// The order that the guessed clocks tell, with all operations flagged, where reads have the guessed sources, as far as there are
    /// some.
    pub(crate) fn new(alloc: Global, guess: Guess) -> Option<Order> {
        let Guess {
            given,
            sources,
            clocks,
        } = guess;
        let facts = Facts::new(alloc, given, sources)?;
        let most = u64::from(facts.procs)
            .saturating_add(1)
            .saturating_mul(MOST_VISITS);
        let fuel = u64::from(facts.ops).saturating_mul(most);
        let mut order = Order {
            clocks,
            counts: Numbers::zeros(alloc, facts.procs)?,
            flags: Flags::new(alloc, facts.ops)?,
            window: u32::MAX,
            fuel,
            visits: 0,
            facts,
        };
        order.flag_all()?;
        Some(order)
    }

    // Flags all operations, in turn for all processes.
    fn flag_all(&mut self) -> Option<()> {
        for place in 0..self.facts.ops {
            for process in 0..self.facts.procs {
                if let Some(x) = self.facts.given.numbering.number(process, place) {
                    self.flags.add(x)?;
                }
            }
        }
        Some(())
    }

    /// Ends the saturation: from now on clocks can be taken back, and only operations a little ahead are visited.
    pub(crate) fn begin_walk(&mut self) {
        self.clocks.record();
        self.window = WINDOW;
    }

    pub(crate) fn burn(&mut self) -> Option<()> {
        self.fuel = self.fuel.checked_sub(1)?;
        self.visits = self.visits.saturating_add(1);
        Some(())
    }

    /// Flags an operation that lies within the window.
    pub(crate) fn flag(&mut self, x: u32) -> Option<()> {
        let (process, place) = self.facts.given.numbering.spot(x)?;
        if place < self.counts.get(process)?.saturating_add(self.window) {
            self.flags.add(x)?;
        }
        Some(())
    }

    /// Flags the operation of a process that has just come into the window.
    pub(crate) fn flag_entering(&mut self, process: u32) -> Option<()> {
        let place = self
            .counts
            .get(process)?
            .saturating_add(self.window.saturating_sub(1));
        if let Some(x) = self.facts.given.numbering.number(process, place) {
            self.flags.add(x)?;
        }
        Some(())
    }

    /// Flags the first operation of each process whose clock has this one, and the one after it, where this one's clock is
    /// news to it.
    pub(crate) fn flag_dependents(&mut self, x: u32) -> Option<()> {
        let (owner, place) = self.facts.given.numbering.spot(x)?;
        for process in 0..self.facts.procs {
            let first = if process == owner {
                place.saturating_add(1)
            } else {
                self.first_after(process, owner, place)?
            };
            if let Some(y) = self.facts.given.numbering.number(process, first)
                && !is_covered(self.clocks.row(x)?, self.clocks.row(y)?)
            {
                self.flag(y)?;
            }
        }
        Some(())
    }

    // The place of the first operation of a process within the window that comes after the one at a place of `owner`, or
    // the end of the window.
    fn first_after(&self, process: u32, owner: u32, place: u32) -> Option<u32> {
        let mut low = self.counts.get(process)?;
        let mut high = low
            .saturating_add(self.window)
            .min(self.facts.given.numbering.count(process)?);
        for _ in 0..u32::BITS {
            if low >= high {
                break;
            }
            let middle = low.midpoint(high);
            let x = self.facts.given.numbering.number(process, middle)?;
            if self.clocks.get(x, owner)? > place {
                high = middle;
            } else {
                low = middle.saturating_add(1);
            }
        }
        Some(low)
    }

    // So many operations of a process come before `x`. Whether that is new.
    fn raise(&mut self, x: u32, process: u32, count: u32) -> Option<bool> {
        if self.clocks.get(x, process)? >= count {
            return Some(false);
        }
        let (owner, place) = self.facts.given.numbering.spot(x)?;
        if owner == process {
            return None;
        }
        if place >= self.counts.get(owner)? {
            self.clocks.set(x, process, count)?;
            return Some(true);
        }
        if count > self.counts.get(process)? {
            return None;
        }
        Some(false)
    }

    /// Puts `x` after `y` and all that comes before `y`. Whether something of that is new.
    pub(crate) fn absorb(&mut self, x: u32, y: u32) -> Option<bool> {
        let (owner, place) = self.facts.given.numbering.spot(y)?;
        let mut is_new = self.raise(x, owner, place.checked_add(1)?)?;
        if is_covered(self.clocks.row(y)?, self.clocks.row(x)?) {
            return Some(is_new);
        }
        for process in 0..self.facts.procs {
            let count = self.clocks.get(y, process)?;
            is_new = self.raise(x, process, count)? || is_new;
        }
        Some(is_new)
    }

    /// The same, but nothing is done where `x` is known to come after `y`.
    pub(crate) fn put_after(&mut self, x: u32, y: u32) -> Option<bool> {
        let (owner, place) = self.facts.given.numbering.spot(y)?;
        if self.clocks.get(x, owner)? > place {
            return Some(false);
        }
        self.absorb(x, y)
    }
}
