//! The writes of each value.
use crate::numbering::Numbering;
use crate::values::Values;
use crate::writes::count_below;
use std::alloc::Global;

/// For each value the operations that write it, in the order of their numbers.
#[derive(Drop)]
pub struct Writers {
    lists: Vec<Vec<u32>>,
}

impl Writers {
    /// Of these operations.
    pub(crate) fn new(alloc: Global, numbering: &Numbering, values: &Values) -> Option<Writers> {
        let mut writers = Writers {
            lists: Vec::new(alloc),
        };
        for _ in 0..values.count() {
            writers.lists.push(Vec::new(alloc)).ok()?;
        }
        writers.add_all(numbering, values)?;
        Some(writers)
    }

    fn add_all(&mut self, numbering: &Numbering, values: &Values) -> Option<()> {
        for x in 0..numbering.len()? {
            if let Some(value) = values.written(x) {
                self.lists.get_mut(value as usize)?.push(x).ok()?;
            }
        }
        Some(())
    }

    /// The operations that write this value.
    pub fn of(&self, value: u32) -> Option<&[u32]> {
        Some(self.lists.get(value as usize)?.as_slice())
    }

    /// How many of them have a number below `x`.
    pub fn count(&self, value: u32, x: u32) -> Option<u32> {
        u32::try_from(count_below(self.of(value)?, x)).ok()
    }
}
