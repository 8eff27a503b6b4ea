//! Clocks backward.
use crate::search::Search;
use scm_clocks::{Clocks, Numbering};
use std::alloc::Global;

/// From which places on operations come after others, by the order of each process alone.
pub(crate) fn afters_of(alloc: Global, numbering: &Numbering) -> Option<Clocks> {
    let mut afters = Clocks::new(alloc, numbering)?;
    let procs = numbering.procs()?;
    for x in 0..numbering.len()? {
        let (owner, at) = numbering.spot(x)?;
        for process in 0..procs {
            afters.set(x, process, numbering.count(process)?)?;
        }
        afters.set(x, owner, at.checked_add(1)?)?;
    }
    Some(afters)
}

impl Search {
    /// The first so many operations of a process come before this place of its owner: the last of them of which that is known
    /// tells it of those before.
    pub(crate) fn lower_afters(
        &mut self,
        spot: (u32, u32),
        process: u32,
        count: u32,
    ) -> Option<()> {
        let (owner, place) = spot;
        for at in (0..count).rev() {
            let x = self.given.numbering.number(process, at)?;
            if self.after(x, owner)? <= place {
                break;
            }
            self.burn(1)?;
            self.afters.set(x, owner, place)?;
        }
        Some(())
    }
}
