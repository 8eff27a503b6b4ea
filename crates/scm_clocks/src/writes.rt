//! The writes of each process to each cell.
use crate::grid::Grid;
use crate::numbering::Numbering;
use crate::values::Values;
use std::alloc::Global;

/// The most numbers of a table of counts: of a trace that needs more, counts are searched for.
const MOST_COUNTS: u32 = 1 << 22;

/// The places of the writes of each process to each cell, in order; and how many of them stand before each place.
#[derive(Drop)]
pub struct Writes {
    cells: u32,
    lists: Vec<Vec<u32>>,
    counts: Option<Counts>,
}

/// A row for each place of each process, and one for its end.
#[derive(Drop)]
struct Counts {
    // For each process its first row, and how many operations it has.
    parts: Vec<(u32, u32)>,
    rows: Grid,
}

/// How many of these numbers, which rise, are less than `bound`.
pub fn count_below(numbers: &[u32], bound: u32) -> usize {
    let (mut low, mut high) = (0, numbers.len());
    for _ in 0..numbers.len() {
        if low >= high {
            break;
        }
        let middle = low.midpoint(high);
        match numbers.get(middle) {
            Some(number) if *number < bound => low = middle.saturating_add(1),
            _ => high = middle,
        }
    }
    low
}

impl Writes {
    /// Of these operations and so many cells.
    pub(crate) fn new(
        alloc: Global,
        cells: u32,
        numbering: &Numbering,
        values: &Values,
    ) -> Option<Writes> {
        let mut writes = Writes {
            cells,
            lists: Vec::new(alloc),
            counts: None,
        };
        for _ in 0..numbering.procs()?.checked_mul(cells)? {
            writes.lists.push(Vec::new(alloc)).ok()?;
        }
        for x in 0..numbering.len()? {
            if values.written(x).is_some() {
                writes.add(numbering, x)?;
            }
        }
        let rows = numbering.len()?.checked_add(numbering.procs()?)?;
        if rows.checked_mul(cells)? <= MOST_COUNTS {
            writes.counts = Some(Counts::new(alloc, &writes, numbering, rows)?);
        }
        Some(writes)
    }

    fn add(&mut self, numbering: &Numbering, x: u32) -> Option<()> {
        let (process, place) = numbering.spot(x)?;
        let list = self.list(process, numbering.cell(x)?)?;
        self.lists.get_mut(list)?.push(place).ok()
    }

    // Where the list of a process and a cell stands.
    fn list(&self, process: u32, cell: u32) -> Option<usize> {
        let list = process.checked_mul(self.cells)?.checked_add(cell)?;
        Some(list as usize)
    }

    // The places of the writes of a process to a cell.
    fn of(&self, process: u32, cell: u32) -> Option<&[u32]> {
        Some(self.lists.get(self.list(process, cell)?)?.as_slice())
    }

    /// How many writes of a process to a cell stand before a place.
    pub fn count(&self, process: u32, cell: u32, place: u32) -> Option<u32> {
        if let Some(counts) = &self.counts {
            return counts.get(process, cell, place);
        }
        u32::try_from(count_below(self.of(process, cell)?, place)).ok()
    }

    /// The last write of a process to a cell before a place.
    pub fn before(&self, process: u32, cell: u32, place: u32) -> Option<u32> {
        let count = self.count(process, cell, place)?;
        self.of(process, cell)?
            .get(count.checked_sub(1)? as usize)
            .copied()
    }

    /// The first write of a process to a cell from a place on.
    pub fn from(&self, process: u32, cell: u32, place: u32) -> Option<u32> {
        let count = self.count(process, cell, place)?;
        self.of(process, cell)?.get(count as usize).copied()
    }
}

impl Counts {
    fn new(alloc: Global, writes: &Writes, numbering: &Numbering, rows: u32) -> Option<Counts> {
        let mut counts = Counts {
            parts: Vec::new(alloc),
            rows: Grid::zeros(alloc, rows, writes.cells)?,
        };
        let mut first: u32 = 0;
        for process in 0..numbering.procs()? {
            let count = numbering.count(process)?;
            counts.parts.push((first, count)).ok()?;
            for cell in 0..writes.cells {
                counts.fill(writes.of(process, cell)?, cell, first, count)?;
            }
            first = first.checked_add(count)?.checked_add(1)?;
        }
        Some(counts)
    }

    // Fills the column of a cell for a process of so many operations.
    fn fill(&mut self, places: &[u32], cell: u32, first: u32, count: u32) -> Option<()> {
        let mut number: u32 = 0;
        for place in 0..=count {
            self.rows.set(first.checked_add(place)?, cell, number)?;
            if places.get(number as usize) == Some(&place) {
                number = number.checked_add(1)?;
            }
        }
        Some(())
    }

    fn get(&self, process: u32, cell: u32, place: u32) -> Option<u32> {
        let (first, count) = *self.parts.get(process as usize)?;
        self.rows.get(first.checked_add(place.min(count))?, cell)
    }
}
