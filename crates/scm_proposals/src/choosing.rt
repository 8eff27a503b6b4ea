//! The choice of the next operation.
use crate::guided_walk::GuidedWalk;
use scm_clocks::is_covered;

/// The kinds of operations that can be made, best first.
#[derive(Clone, Copy, PartialEq, Eq, PartialOrd, Ord)]
pub(crate) enum Rank {
    /// It leaves its cell as it finds it.
    Harmless,
    /// A write that takes nothing away: it has to come next on its cell, or nobody reads it, as all sources are known.
    Safe,
    /// Another write: how far its readers are away.
    Read { distance: u32 },
}

/// An operation that can be made, and its rank.
#[derive(Clone, Copy)]
pub(crate) struct RankedOperation {
    pub(crate) x: u32,
    pub(crate) rank: Rank,
}

impl GuidedWalk {
    /// The best operation that can be made, if there is one.
    pub(crate) fn choose(&self) -> Option<RankedOperation> {
        let mut best = self.choice(self.last);
        for process in 0..self.order.facts.procs {
            if best.is_some_and(|choice| choice.rank == Rank::Harmless) {
                break;
            }
            if let Some(other) = self.choice(process)
                && best.is_none_or(|choice| other.rank < choice.rank)
            {
                best = Some(other);
            }
        }
        best
    }

    // The next operation of a process, if it can be made.
    fn choice(&self, process: u32) -> Option<RankedOperation> {
        let place = self.order.counts.get(process)?;
        let x = self.order.facts.given.numbering.number(process, place)?;
        let is_ready = is_covered(self.order.clocks.row(x)?, self.order.counts.list());
        if !is_ready || !self.finds(x)? {
            return None;
        }
        Some(RankedOperation {
            x,
            rank: self.rank(x)?,
        })
    }

    // Whether `x` finds what it read, written by its source if that is known.
    fn finds(&self, x: u32) -> Option<bool> {
        let facts = &self.order.facts;
        let Some(found) = facts.given.values.found(x) else {
            return Some(true);
        };
        let content = self.content(x)?;
        Some(match facts.source(x) {
            Some(source) => content.writer == source,
            None => content.value.is_none_or(|value| value == found),
        })
    }

    // `None` for a write that can't be made now.
    fn rank(&self, x: u32) -> Option<Rank> {
        let facts = &self.order.facts;
        if facts.is_harmless(x) {
            return Some(Rank::Harmless);
        }
        let writer = self.content(x)?.writer;
        let is_own = facts.source(x) == Some(writer);
        let is_barred = *self.barred.get(x as usize)? == Some(writer);
        if is_barred || self.readers.get(writer)? > u32::from(is_own) {
            return None;
        }
        if is_own || facts.are_sources_known && self.readers.get(x)? == 0 {
            return Some(Rank::Safe);
        }
        Some(Rank::Read {
            distance: self.distance(x)?,
        })
    }

    // How many operations have to be made until all readers of `x` are.
    fn distance(&self, x: u32) -> Option<u32> {
        let mut distance: u32 = 0;
        let lasts = self.order.facts.readers.row(x)?;
        for (last, count) in lasts.iter().zip(self.order.counts.list()) {
            distance = distance.saturating_add(last.saturating_sub(*count));
        }
        Some(distance)
    }
}
