//! What a search begins with.
use crate::numbering::Numbering;
use crate::part::Part;
use crate::times::Times;
use crate::values::Values;
use crate::writers::Writers;
use crate::writes::Writes;
use std::alloc::Global;

/// The operations of a part of a trace under one number each, their values, and who writes what.
#[derive(Drop)]
pub struct Given {
    pub numbering: Numbering,
    pub values: Values,
    pub writes: Writes,
    pub writers: Writers,
    /// When each operation was made, as a guess, from the earliest one on.
    pub times: Vec<u32>,
}

impl Given {
    /// Of a part.
    pub fn new(alloc: Global, part: &Part) -> Option<Given> {
        let numbering = Numbering::new(alloc, part)?;
        let values = Values::new(alloc, part, &numbering)?;
        let cells = u32::try_from(part.contents.len()).ok()?;
        let writes = Writes::new(alloc, cells, &numbering, &values)?;
        let writers = Writers::new(alloc, &numbering, &values)?;
        let times = Times::of_part(alloc, part)?;
        Some(Given {
            numbering,
            values,
            writes,
            writers,
            times,
        })
    }

    /// How many values a cell has, in the mean.
    pub fn values_of_cell(&self) -> Option<u32> {
        let cells = u32::try_from(self.values.firsts().len()).ok()?;
        self.values
            .count()
            .saturating_add(1)
            .checked_div(cells.max(1))
    }
}
