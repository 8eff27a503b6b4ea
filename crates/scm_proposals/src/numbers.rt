//! Numbers by place.
use std::alloc::Global;

/// A list of numbers, read and written by place. A place beyond its end gives `None`.
#[derive(Drop)]
pub(crate) struct Numbers {
    list: Vec<u32>,
}

impl Numbers {
    /// So many zeros.
    pub(crate) fn zeros(alloc: Global, n: u32) -> Option<Numbers> {
        Some(Numbers {
            list: vec![in alloc; 0; n as usize].ok()?,
        })
    }

    /// The number at a place.
    pub(crate) fn get(&self, place: u32) -> Option<u32> {
        self.list.get(place as usize).copied()
    }

    /// All of them.
    pub(crate) fn list(&self) -> &[u32] {
        self.list.as_slice()
    }

    /// Adds one.
    pub(crate) fn raise(&mut self, place: u32) -> Option<()> {
        let number = self.list.get_mut(place as usize)?;
        *number = number.checked_add(1)?;
        Some(())
    }

    /// Takes one away.
    pub(crate) fn lower(&mut self, place: u32) -> Option<()> {
        let number = self.list.get_mut(place as usize)?;
        *number = number.checked_sub(1)?;
        Some(())
    }
}
