//! What was learned from contradictions.
use crate::claims::Claim;
use crate::placed_lists::empty_lists;
use scm_orders::Derivation;
use std::alloc::Global;

/// The most lines of all blocks together.
const MOST_BLOCK_LINES: usize = 1 << 22;

/// Claims of which one is true, and where the two stand that are watched; the block that shows it, and how many steps were
/// outside of blocks then.
#[derive(Drop)]
pub(crate) struct Clause {
    pub(crate) claims: Vec<Claim>,
    pub(crate) watched: [usize; 2],
    pub(crate) block: Derivation,
    pub(crate) base: u32,
}

/// All clauses, and for each operation those of which a watched claim may turn out to be false at its change.
#[derive(Drop)]
pub(crate) struct Clauses {
    list: Vec<Clause>,
    watching: Vec<Vec<u32>>,
    lines: usize,
}

impl Clauses {
    pub(crate) fn new(alloc: Global, ops: u32) -> Option<Clauses> {
        Some(Clauses {
            list: Vec::new(alloc),
            watching: empty_lists(alloc, ops)?,
            lines: 0,
        })
    }

    pub(crate) fn len(&self) -> Option<u32> {
        u32::try_from(self.list.len()).ok()
    }

    pub(crate) fn get(&self, k: u32) -> Option<&Clause> {
        self.list.get(k as usize)
    }

    /// Adds one, and gives its number.
    pub(crate) fn add(&mut self, clause: Clause) -> Option<u32> {
        let k = self.len()?;
        self.lines = self.lines.saturating_add(clause.block.lines.len());
        if self.lines > MOST_BLOCK_LINES {
            return None;
        }
        self.list.push(clause).ok()?;
        self.watch_two(k)?;
        Some(k)
    }

    // One claim alone isn't watched, since it holds from then on.
    fn watch_two(&mut self, k: u32) -> Option<()> {
        if self.get(k)?.claims.len() < 2 {
            return Some(());
        }
        let (first, second) = (self.watched(k, 0)?.watched(), self.watched(k, 1)?.watched());
        self.watch(first, k)?;
        if second == first {
            return Some(());
        }
        self.watch(second, k)
    }

    pub(crate) fn watch(&mut self, x: u32, k: u32) -> Option<()> {
        self.watching.get_mut(x as usize)?.push(k).ok()
    }

    /// The clauses that wait for a change of this operation.
    pub(crate) fn watching(&self, x: u32) -> Option<&[u32]> {
        Some(self.watching.get(x as usize)?.as_slice())
    }

    /// The one at this place doesn't any more: the last one takes its place.
    pub(crate) fn unwatch(&mut self, x: u32, at: usize) -> Option<()> {
        let list = self.watching.get_mut(x as usize)?;
        let last = list.pop()?;
        if let Some(place) = list.get_mut(at) {
            *place = last;
        }
        Some(())
    }

    /// One of the two claims of a clause that are watched.
    pub(crate) fn watched(&self, k: u32, which: usize) -> Option<Claim> {
        let clause = self.get(k)?;
        clause.claims.get(*clause.watched.get(which)?).copied()
    }

    /// Another claim is watched in the place of this one of the two.
    pub(crate) fn watch_other(&mut self, k: u32, which: usize, place: usize) -> Option<()> {
        *self.list.get_mut(k as usize)?.watched.get_mut(which)? = place;
        Some(())
    }
}
