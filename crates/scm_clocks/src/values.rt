//! The values that cells hold, numbered.
use crate::numbering::Numbering;
use crate::part::Part;
use indexmap::IndexSet;
use scm_sequences::Op;
use std::alloc::Global;

/// For each operation the number of the value that it found and of the one that it wrote, and for each cell that of
/// its first contents. Each cell has values of its own. Of what isn't checked it doesn't tell what was found.
#[derive(Drop)]
pub struct Values {
    found: Vec<Option<u32>>,
    written: Vec<Option<u32>>,
    firsts: Vec<Option<u32>>,
    count: u32,
}

fn number_of(known: &mut IndexSet<(u32, u64)>, cell: u32, value: u64) -> Option<u32> {
    let (number, _) = known.insert_full((cell, value)).ok()?;
    u32::try_from(number).ok()
}

impl Values {
    /// Of a part, whose operations are numbered so.
    pub(crate) fn new(alloc: Global, part: &Part, numbering: &Numbering) -> Option<Values> {
        let mut known = IndexSet::new(alloc);
        let mut values = Values {
            found: Vec::new(alloc),
            written: Vec::new(alloc),
            firsts: Vec::new(alloc),
            count: 0,
        };
        values.add_all(&mut known, part, numbering)?;
        Some(values)
    }

    fn add_all(
        &mut self,
        known: &mut IndexSet<(u32, u64)>,
        part: &Part,
        numbering: &Numbering,
    ) -> Option<()> {
        self.add_firsts(known, part.contents)?;
        for x in 0..numbering.len()? {
            let (_, place) = numbering.spot(x)?;
            let is_checked = place < part.checked;
            self.add(known, numbering.cell(x)?, numbering.op(x)?, is_checked)?;
        }
        self.count = u32::try_from(known.len()).ok()?;
        Some(())
    }

    fn add_firsts(
        &mut self,
        known: &mut IndexSet<(u32, u64)>,
        initials: &[Option<u64>],
    ) -> Option<()> {
        for (cell, first) in initials.iter().enumerate() {
            let number = match first {
                Some(value) => Some(number_of(known, u32::try_from(cell).ok()?, *value)?),
                None => None,
            };
            self.firsts.push(number).ok()?;
        }
        Some(())
    }

    fn add(
        &mut self,
        known: &mut IndexSet<(u32, u64)>,
        cell: u32,
        op: Op,
        is_checked: bool,
    ) -> Option<()> {
        let (found, written) = match op {
            Op::R { value, .. } => (Some(number_of(known, cell, value)?), None),
            Op::W { value, .. } => (None, Some(number_of(known, cell, value)?)),
            Op::Rw { old, new, .. } => {
                let found = number_of(known, cell, old)?;
                (Some(found), Some(number_of(known, cell, new)?))
            }
        };
        let found = found.filter(|_| is_checked);
        self.found.push(found).ok()?;
        self.written.push(written).ok()
    }

    /// How many values there are.
    pub fn count(&self) -> u32 {
        self.count
    }

    /// The value that an operation found; `None` for a write, and where it isn't checked.
    pub fn found(&self, x: u32) -> Option<u32> {
        *self.found.get(x as usize)?
    }

    /// The value that an operation wrote; `None` for a read.
    pub fn written(&self, x: u32) -> Option<u32> {
        *self.written.get(x as usize)?
    }

    /// For each cell the value that it holds at first, if that is known.
    pub fn firsts(&self) -> &[Option<u32>] {
        self.firsts.as_slice()
    }

    /// The value that a cell holds at first, if that is known.
    pub fn first(&self, cell: u32) -> Option<Option<u32>> {
        self.firsts.get(cell as usize).copied()
    }

    /// A cell holds this value at first.
    pub fn set_first(&mut self, cell: u32, value: u32) -> Option<()> {
        *self.firsts.get_mut(cell as usize)? = Some(value);
        Some(())
    }
}
