//! What each read sees in some schedule, as a guess.
use crate::claims::Kind;
use crate::search::{Search, Sought};
use scm_clocks::{Clocks, Given};
use std::alloc::Global;

/// What each read may see in a schedule: the number of a write; or, where it is first contents, the number of the cell after
/// those of the operations. With it the clocks of what was drawn from that.
#[derive(Drop)]
pub struct Guess {
    pub given: Given,
    pub sources: Vec<Option<u32>>,
    pub clocks: Clocks,
}

/// What reads may see in a schedule that keeps these orders. `None` where nothing was found: where no schedule exists as far as was
/// seen, after `fuel` steps, where the trace is too large, and where memory is refused. Nothing is promised of it. What is left of
/// the fuel stays.
pub fn find_sources(alloc: Global, given: Given, clocks: Clocks, fuel: &mut u64) -> Option<Guess> {
    let mut search = Search::new(alloc, Sought::Schedule, given, *fuel)?;
    let settled = search.settle_after(clocks);
    *fuel = search.fuel;
    settled?;
    let sources = search.sources()?;
    Some(Guess {
        given: search.given,
        sources,
        clocks: search.clocks,
    })
}

impl Search {
    // Finds what each read may see where these orders are kept.
    fn settle_after(&mut self, clocks: Clocks) -> Option<()> {
        self.suppose(clocks)?;
        self.try_cases()?.is_none().then_some(())
    }

    fn sources(&self) -> Option<Vec<Option<u32>>> {
        let mut sources = Vec::new(self.alloc);
        for x in 0..self.ops {
            let source = match self.given.values.found(x) {
                Some(_) => Some(self.source(x)?),
                None => None,
            };
            sources.push(source).ok()?;
        }
        Some(sources)
    }

    // First contents of cells that aren't open settle no read.
    fn source(&self, read: u32) -> Option<u32> {
        if let Some(id) = self.read_facts.source(read)? {
            let claim = self.steps.get(id)?.claim;
            if claim.kind == Kind::Sees {
                return Some(claim.from);
            }
        }
        self.ops.checked_add(self.given.numbering.cell(read)?)
    }
}
