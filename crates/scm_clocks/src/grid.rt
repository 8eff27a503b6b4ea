//! Numbers by row and column.
use std::alloc::Global;

/// The most numbers of a grid: a trace that needs more gets no proposal, and no refutation.
const MOST_NUMBERS: usize = 1 << 26;

/// Rows of numbers, all of one width.
#[derive(Drop)]
pub struct Grid {
    width: usize,
    numbers: Vec<u32>,
}

impl Grid {
    /// So many rows of so many zeros.
    pub fn zeros(alloc: Global, rows: u32, width: u32) -> Option<Grid> {
        let size = (rows as usize).checked_mul(width as usize)?;
        if size > MOST_NUMBERS {
            return None;
        }
        Some(Grid {
            width: width as usize,
            numbers: vec![in alloc; 0; size].ok()?,
        })
    }

    fn place(&self, row: u32, column: u32) -> usize {
        (row as usize)
            .wrapping_mul(self.width)
            .wrapping_add(column as usize)
    }

    /// The numbers of a row.
    pub fn row(&self, row: u32) -> Option<&[u32]> {
        let start = self.place(row, 0);
        self.numbers.get(start..start.checked_add(self.width)?)
    }

    /// The number at a place, if it is there.
    pub fn get(&self, row: u32, column: u32) -> Option<u32> {
        self.numbers.get(self.place(row, column)).copied()
    }

    /// Puts a number at a place.
    pub fn set(&mut self, row: u32, column: u32, number: u32) -> Option<()> {
        let place = self.place(row, column);
        *self.numbers.get_mut(place)? = number;
        Some(())
    }
}
