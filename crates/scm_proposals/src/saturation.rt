//! The consequences of what is known, until there are no more.
use crate::order::Order;
use scm_clocks::is_covered;

impl Order {
    /// Visits what is flagged until nothing is. `None` where the order contradicts itself or the fuel is spent.
    pub(crate) fn spread(&mut self) -> Option<()> {
        for _ in 0..self.fuel {
            let Some(x) = self.flags.next() else {
                return Some(());
            };
            self.burn()?;
            self.visit(x)?;
        }
        None
    }

    // Draws the consequences of what comes before `x`.
    fn visit(&mut self, x: u32) -> Option<()> {
        let (process, place) = self.facts.given.numbering.spot(x)?;
        let made = self.counts.get(process)?;
        if place < made {
            return Some(());
        }
        let before = if place > made { x.checked_sub(1) } else { None };
        let mut is_new = match before {
            Some(y) => self.absorb(x, y)?,
            None => false,
        };
        let source = self.facts.source(x);
        if let Some(source) = source
            && source < self.facts.ops
        {
            is_new = self.put_after(x, source)? || is_new;
        }
        is_new = self.follow_clock(x, before)? || is_new;
        if self.facts.given.values.written(x).is_some() {
            is_new = self.follow_readers(x)? || is_new;
        }
        if let Some(source) = source {
            self.push_source(x, source)?;
        }
        if is_new {
            self.flag_dependents(x)?;
        }
        Some(())
    }

    // What comes before `x` has itself something before it. Of its own process `before` was absorbed, where that isn't made.
    fn follow_clock(&mut self, x: u32, before: Option<u32>) -> Option<bool> {
        let mut is_new = false;
        for process in 0..self.facts.procs {
            let count = self.clocks.get(x, process)?;
            if count <= self.counts.get(process)? {
                continue;
            }
            if let Some(y) = before
                && self.clocks.get(y, process)? == count
            {
                continue;
            }
            let y = self.last_of(process, count)?;
            if y != x {
                is_new = self.absorb(x, y)? || is_new;
            }
        }
        Some(is_new)
    }

    // The last one of the first `count` operations of a process.
    fn last_of(&self, process: u32, count: u32) -> Option<u32> {
        self.facts
            .given
            .numbering
            .number(process, count.checked_sub(1)?)
    }

    // A write comes after all that read what an earlier write to its cell, or the first contents, left there.
    fn follow_readers(&mut self, x: u32) -> Option<bool> {
        let cell = self.facts.given.numbering.cell(x)?;
        let mut is_new = false;
        for process in 0..self.facts.procs {
            if let Some(earlier) = self.write_before(x, process, cell)? {
                is_new = self.put_after_readers(x, earlier)? || is_new;
            }
        }
        let first = self.facts.ops.checked_add(cell)?;
        Some(self.put_after_readers(x, first)? || is_new)
    }

    // The last write to a cell, of those of a process that come before `x` and aren't made.
    fn write_before(&self, x: u32, process: u32, cell: u32) -> Option<Option<u32>> {
        let made = self.counts.get(process)?;
        let count = self.clocks.get(x, process)?;
        if count <= made {
            return Some(None);
        }
        match self.facts.given.writes.before(process, cell, count) {
            Some(place) if place >= made => Some(self.facts.given.numbering.number(process, place)),
            _ => Some(None),
        }
    }

    /// Puts the write `x` after all that read from `writer`.
    pub(crate) fn put_after_readers(&mut self, x: u32, writer: u32) -> Option<bool> {
        if is_covered(self.facts.readers.row(writer)?, self.clocks.row(x)?) {
            return Some(false);
        }
        let (owner, place) = self.facts.given.numbering.spot(x)?;
        let is_own = self.facts.source(x) == Some(writer);
        let mut is_new = false;
        for process in 0..self.facts.procs {
            let count = self.facts.readers.get(writer, process)?;
            if process == owner {
                if count > place && !(is_own && count == place.saturating_add(1)) {
                    return None;
                }
            } else if count > self.counts.get(process)? {
                let reader = self.last_of(process, count)?;
                is_new = self.put_after(x, reader)? || is_new;
            }
        }
        Some(is_new)
    }

    // A write to the cell that comes before the read `x` comes before its source.
    fn push_source(&mut self, x: u32, source: u32) -> Option<()> {
        let cell = self.facts.given.numbering.cell(x)?;
        let mut is_new = false;
        for process in 0..self.facts.procs {
            let Some(earlier) = self.write_before(x, process, cell)? else {
                continue;
            };
            if earlier == source || earlier == x {
                continue;
            }
            if source >= self.facts.ops {
                return None;
            }
            is_new = self.put_after(source, earlier)? || is_new;
        }
        if is_new {
            self.flag(source)?;
            self.flag_dependents(source)?;
        }
        Some(())
    }
}
