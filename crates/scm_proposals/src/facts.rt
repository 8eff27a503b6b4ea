//! What is known of a trace before the walk.
use crate::numbers::Numbers;
use scm_clocks::{Given, Grid};
use std::alloc::Global;

/// The operations by number, what each read finds and each write leaves, the writes of each cell, and the sources that are known.
#[derive(Drop)]
pub(crate) struct Facts {
    pub(crate) given: Given,
    // For each read its source, where that is known: the operation whose value it found, or the number of a cell after those
    // of the operations, for first contents.
    sources: Vec<Option<u32>>,
    /// For each writer and process the place after its last known reader there, or 0.
    pub(crate) readers: Grid,
    /// Whether the sources of all reads are known.
    pub(crate) are_sources_known: bool,
    pub(crate) procs: u32,
    pub(crate) ops: u32,
    pub(crate) cells: u32,
}

impl Facts {
    /// Where each read has this source, as far as it is known.
    pub(crate) fn new(alloc: Global, given: Given, sources: Vec<Option<u32>>) -> Option<Facts> {
        let procs = given.numbering.procs()?;
        let ops = given.numbering.len()?;
        let cells = u32::try_from(given.values.firsts().len()).ok()?;
        let mut readers = Grid::zeros(alloc, ops.checked_add(cells)?, procs)?;
        let mut are_sources_known = true;
        for x in 0..ops {
            if let Some(source) = *sources.get(x as usize)? {
                let (process, place) = given.numbering.spot(x)?;
                readers.set(source, process, place.checked_add(1)?)?;
            } else if given.values.found(x).is_some() {
                are_sources_known = false;
            }
        }
        Some(Facts {
            given,
            sources,
            readers,
            are_sources_known,
            procs,
            ops,
            cells,
        })
    }

    /// How many known readers each writer has, first contents too.
    pub(crate) fn reader_counts(&self, alloc: Global) -> Option<Numbers> {
        let mut counts = Numbers::zeros(alloc, self.ops.checked_add(self.cells)?)?;
        for source in self.sources.iter().flatten() {
            counts.raise(*source)?;
        }
        Some(counts)
    }

    /// The source of a read, if it is known.
    pub(crate) fn source(&self, x: u32) -> Option<u32> {
        *self.sources.get(x as usize)?
    }

    /// Whether an operation leaves its cell as it finds it, whoever wrote the value.
    pub(crate) fn is_harmless(&self, x: u32) -> bool {
        match self.given.values.written(x) {
            Some(value) => self.given.values.found(x) == Some(value) && self.source(x).is_none(),
            None => true,
        }
    }
}
