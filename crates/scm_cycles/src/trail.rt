//! Suppositions, and what is taken back with each.
use crate::search::Search;

/// How much there was before a supposition.
#[derive(Clone, Copy)]
pub(crate) struct Sizes {
    pub(crate) steps: u32,
    rises: usize,
    changes: usize,
    afters: usize,
    candidates: usize,
}

impl Search {
    /// Before the next supposition.
    pub(crate) fn open_level(&mut self) -> Option<()> {
        let sizes = Sizes {
            steps: self.steps.len()?,
            rises: self.rises.len(),
            changes: self.clocks.changes(),
            afters: self.afters.changes(),
            candidates: self.candidates.changes(),
        };
        self.trail.push(sizes).ok()
    }

    /// Takes back all suppositions but the first so many.
    pub(crate) fn undo_to(&mut self, level: u32) -> Option<()> {
        self.contradiction = None;
        self.flags.clear();
        self.waiting.clear();
        let Some(sizes) = self.trail.get(level as usize).copied() else {
            return Some(());
        };
        self.trail.truncate(level as usize);
        self.clocks.take_back(sizes.changes)?;
        self.afters.take_back(sizes.afters)?;
        self.rises.take_back(sizes.rises)?;
        self.candidates.take_back(sizes.candidates)?;
        for _ in sizes.steps..self.steps.len()? {
            let step = self.steps.take_back()?;
            let read = step.claim.to;
            let cell = self.given.numbering.cell(read)?;
            self.read_facts.take_back(read, cell, self.steps.len()?)?;
        }
        Some(())
    }
}
