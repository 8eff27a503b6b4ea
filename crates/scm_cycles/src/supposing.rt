//! Orders that are supposed before anything is drawn.
use crate::claims::{Claim, Kind};
use crate::search::Search;
use scm_clocks::Clocks;
use scm_orders::Rule;

impl Search {
    /// Supposes all orders that these clocks tell, by one step.
    pub(crate) fn suppose(&mut self, clocks: Clocks) -> Option<()> {
        let nothing = Claim {
            kind: Kind::Unseen,
            from: 0,
            to: 0,
        };
        let id = self.add(nothing, Rule::Assumed, &[])?;
        self.supposed = Some(id);
        self.clocks = clocks;
        for x in 0..self.ops {
            self.burn(self.procs)?;
            self.suppose_at(x, id)?;
        }
        Some(())
    }

    // Notes what the clocks tell of `x` and not of the operation before.
    fn suppose_at(&mut self, x: u32, id: u32) -> Option<()> {
        let spot = self.given.numbering.spot(x)?;
        let (owner, place) = spot;
        for process in 0..self.procs {
            let count = self.before(x, process)?;
            let known = match place {
                0 => 0,
                _ => self.before(x.checked_sub(1)?, process)?,
            };
            if process != owner && count > known {
                self.rises.add(spot, process, count, id)?;
                self.lower_afters(spot, process, count)?;
            }
        }
        Some(())
    }
}
