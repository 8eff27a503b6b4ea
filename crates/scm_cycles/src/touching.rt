//! Which reads a change concerns.
use crate::claims::Kind;
use crate::search::Search;

/// What has changed of an operation: what comes before it, or what comes after it.
#[derive(Clone, Copy, PartialEq, Eq)]
pub(crate) enum Side {
    Before,
    After,
}

impl Search {
    /// What is known of this read may have changed.
    pub(crate) fn touch(&mut self, read: u32) -> Option<()> {
        let is_settled = self.read_facts.source(read)?.is_some();
        self.waiting.touch(read, is_settled)
    }

    /// All reads are to be looked at, and from now on those that a change concerns.
    pub(crate) fn touch_all(&mut self) -> Option<()> {
        self.waiting.note();
        for x in 0..self.ops {
            if self.given.values.found(x).is_some() {
                self.touch(x)?;
            }
        }
        Some(())
    }

    /// What comes before this operation, or after it, has changed: that concerns it and the reads that see it, or may see it.
    pub(crate) fn touch_around(&mut self, x: u32, side: Side) -> Option<()> {
        if self.given.values.found(x).is_some()
            && (side == Side::Before || self.read_facts.source(x)?.is_none())
        {
            self.touch(x)?;
        }
        if side == Side::After {
            self.touch_seeing(x)?;
        }
        self.touch_open(x, side)
    }

    // Reads that the write is the first one that is left for, of its process, or the last one.
    fn touch_open(&mut self, write: u32, side: Side) -> Option<()> {
        let ending = self.candidates.ending_with(write, side)?;
        let count = ending.len();
        for at in ending {
            self.waiting.touch(self.candidates.read_of(*at)?, false)?;
        }
        self.burn_for(count)
    }

    // The reads that are known to see the write.
    fn touch_seeing(&mut self, write: u32) -> Option<()> {
        let mut leaving = self.steps.newest(write);
        let mut count = 0usize;
        for _ in 0..self.steps.len()? {
            let Some(id) = leaving else {
                break;
            };
            count = count.saturating_add(1);
            let step = self.steps.get(id)?;
            if step.claim.kind == Kind::Sees {
                self.waiting.source_lowered(step.claim.to)?;
            }
            leaving = step.older;
        }
        self.burn_for(count)
    }

    /// `from` is about to come before `to`: what newly comes before `to` is concerned.
    pub(crate) fn touch_before(&mut self, from: u32, to: u32) -> Option<()> {
        if !self.waiting.is_noted() {
            return Some(());
        }
        for process in 0..self.procs {
            let (start, end) = (self.before(to, process)?, self.up_to(from, process)?);
            self.burn(end.saturating_sub(start))?;
            for at in start..end {
                let x = self.given.numbering.number(process, at)?;
                self.touch_around(x, Side::After)?;
            }
        }
        Some(())
    }

    /// An unset cell held this value at first, by this step: that concerns all its reads.
    pub(crate) fn set_first(&mut self, cell: u32, value: u32, id: u32) -> Option<()> {
        self.read_facts.set_first(cell, value, id)?;
        if !self.waiting.is_noted() {
            return Some(());
        }
        for x in 0..self.ops {
            if self.given.numbering.cell(x)? == cell && self.given.values.found(x).is_some() {
                self.touch(x)?;
            }
        }
        Some(())
    }
}
