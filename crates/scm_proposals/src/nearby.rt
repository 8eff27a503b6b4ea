//! What others wrote and found at about a time.
use scm_clocks::{Given, Grid};
use std::alloc::Global;
use std::ops::Range;

/// A read mostly finds what was written in so many spans before its own; or after it, as times are guesses.
const BEFORE: u32 = 3;

const AFTER: u32 = 1;

/// So many more are supposed, of which each value has its share, that few tell little.
const SUPPOSED: u64 = 4;

/// More than all logarithms.
const MOST_FIT: u64 = 1 << 15;

/// How many operations were made before each span: a row for each value, and one for each cell.
#[derive(Drop)]
struct Counts {
    rows: u32,
    spans: u32,
    numbers: Grid,
}

impl Counts {
    fn new(alloc: Global, rows: u32, spans: u32) -> Option<Counts> {
        Some(Counts {
            rows,
            spans,
            numbers: Grid::zeros(alloc, rows, spans.checked_add(1)?)?,
        })
    }

    // One more in this span, before all are summed up.
    fn add(&mut self, row: u32, span: u32) -> Option<()> {
        let behind = span.checked_add(1)?;
        let number = self.numbers.get(row, behind)?.checked_add(1)?;
        self.numbers.set(row, behind, number)
    }

    fn sum_up(&mut self) -> Option<()> {
        for row in 0..self.rows {
            self.sum_up_row(row)?;
        }
        Some(())
    }

    fn sum_up_row(&mut self, row: u32) -> Option<()> {
        let mut sum: u32 = 0;
        for span in 0..=self.spans {
            sum = sum.checked_add(self.numbers.get(row, span)?)?;
            self.numbers.set(row, span, sum)?;
        }
        Some(())
    }

    fn within(&self, row: u32, spans: &Range<u32>) -> Option<u64> {
        let end = self.numbers.get(row, spans.end.min(self.spans))?;
        Some(u64::from(end.checked_sub(self.numbers.get(row, spans.start)?)?))
    }
}

/// What was written, and found, by when; and how many writes each cell has in the whole part.
#[derive(Drop)]
pub(crate) struct Nearby {
    writes: Counts,
    reads: Counts,
    totals: Vec<u32>,
}

impl Nearby {
    /// Of no operations, where the time has so many spans.
    pub(crate) fn new(alloc: Global, given: &Given, spans: u32) -> Option<Nearby> {
        let cells = u32::try_from(given.values.firsts().len()).ok()?;
        let rows = given.values.count().checked_add(cells)?;
        let mut nearby = Nearby {
            writes: Counts::new(alloc, rows, spans)?,
            reads: Counts::new(alloc, rows, spans)?,
            totals: vec![in alloc; 0; cells as usize].ok()?,
        };
        for x in 0..given.numbering.len()? {
            if given.values.written(x).is_some() {
                let total = nearby.totals.get_mut(given.numbering.cell(x)? as usize)?;
                *total = total.saturating_add(1);
            }
        }
        Some(nearby)
    }

    /// Adds an operation that was made in this span, before all are summed up.
    pub(crate) fn add(&mut self, given: &Given, x: u32, span: u32) -> Option<()> {
        let row = row_of(given, x)?;
        if let Some(value) = given.values.written(x) {
            self.writes.add(value, span)?;
            self.writes.add(row, span)?;
        }
        if let Some(value) = given.values.found(x) {
            self.reads.add(value, span)?;
            self.reads.add(row, span)?;
        }
        Some(())
    }

    /// All were added.
    pub(crate) fn sum_up(&mut self) -> Option<()> {
        self.writes.sum_up()?;
        self.reads.sum_up()
    }

    /// How well what an operation found and wrote fits the others, if it was made in this span.
    pub(crate) fn fit(&self, given: &Given, x: u32, span: u32) -> Option<u64> {
        let next = span.saturating_add(1);
        let mut fit = 0;
        if let Some(value) = given.values.found(x) {
            let spans = span.saturating_sub(BEFORE)..next.saturating_add(AFTER);
            fit = self.fit_of(given, x, value, &self.writes, spans)?;
        }
        if let Some(value) = given.values.written(x) {
            let spans = span.saturating_sub(AFTER)..next.saturating_add(BEFORE);
            let of_write = self.fit_of(given, x, value, &self.reads, spans)?;
            fit = fit.saturating_add(of_write);
        }
        Some(fit)
    }

    // How much likelier it is than by chance, by its logarithm, that a value is met as often as here: by chance it has its share of
    // the cell's writes.
    fn fit_of(
        &self,
        given: &Given,
        x: u32,
        value: u32,
        counts: &Counts,
        spans: Range<u32>,
    ) -> Option<u64> {
        let written = given.writers.of(value)?.len() as u64;
        let total = u64::from(*self.totals.get(given.numbering.cell(x)? as usize)?);
        let met = counts.within(value, &spans)?.saturating_mul(total);
        let all = counts.within(row_of(given, x)?, &spans)?;
        let by_chance = all.saturating_add(SUPPOSED).saturating_mul(written);
        let likely = logarithm(met.saturating_add(written.saturating_mul(SUPPOSED)));
        Some(
            MOST_FIT
                .saturating_add(likely)
                .saturating_sub(logarithm(by_chance)),
        )
    }
}

// The row of the cell that an operation is about.
fn row_of(given: &Given, x: u32) -> Option<u32> {
    given.values.count().checked_add(given.numbering.cell(x)?)
}

// To the base 2, in parts of 256; between powers by a straight line.
fn logarithm(number: u64) -> u64 {
    let number = number.max(1);
    let bits = number.ilog2();
    let part = number.saturating_mul(256).checked_shr(bits).unwrap_or(0);
    u64::from(bits).saturating_mul(256).saturating_add(part)
}
