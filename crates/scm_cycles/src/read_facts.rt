//! What reads see, by the steps that tell it.
use crate::placed_lists::empty_lists;
use std::alloc::Global;

/// For each read the step that tells what it sees, once that is drawn, and those that tell what it doesn't see beside all that
/// the clocks tell; and for each unset cell the value that it held at first, with the step that tells so.
#[derive(Drop)]
pub(crate) struct ReadFacts {
    sources: Vec<Option<u32>>,
    unseen: Vec<Vec<u32>>,
    firsts: Vec<Option<(u32, u32)>>,
}

impl ReadFacts {
    pub(crate) fn new(alloc: Global, ops: u32, cells: u32) -> Option<ReadFacts> {
        Some(ReadFacts {
            sources: vec![in alloc; None; ops as usize].ok()?,
            unseen: empty_lists(alloc, ops)?,
            firsts: vec![in alloc; None; cells as usize].ok()?,
        })
    }

    pub(crate) fn source(&self, read: u32) -> Option<Option<u32>> {
        self.sources.get(read as usize).copied()
    }

    pub(crate) fn settle(&mut self, read: u32, id: u32) -> Option<()> {
        *self.sources.get_mut(read as usize)? = Some(id);
        Some(())
    }

    pub(crate) fn first(&self, cell: u32) -> Option<Option<(u32, u32)>> {
        self.firsts.get(cell as usize).copied()
    }

    pub(crate) fn set_first(&mut self, cell: u32, value: u32, id: u32) -> Option<()> {
        *self.firsts.get_mut(cell as usize)? = Some((value, id));
        Some(())
    }

    pub(crate) fn unseen(&self, read: u32) -> Option<&[u32]> {
        Some(self.unseen.get(read as usize)?.as_slice())
    }

    pub(crate) fn rule_out(&mut self, read: u32, id: u32) -> Option<()> {
        self.unseen.get_mut(read as usize)?.push(id).ok()
    }

    /// Takes back what this step, the newest, told of the read and its cell.
    pub(crate) fn take_back(&mut self, read: u32, cell: u32, id: u32) -> Option<()> {
        let source = self.sources.get_mut(read as usize)?;
        if *source == Some(id) {
            *source = None;
        }
        let first = self.firsts.get_mut(cell as usize)?;
        if first.is_some_and(|(_, by)| by == id) {
            *first = None;
        }
        let unseen = self.unseen.get_mut(read as usize)?;
        if unseen.last().is_some_and(|last| *last == id) {
            let _ = unseen.pop();
        }
        Some(())
    }
}
