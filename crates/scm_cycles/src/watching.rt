//! Clauses of which all but one claim is false.
use crate::search::Search;

impl Search {
    /// Looks at the clauses that wait for a change of this operation.
    pub(crate) fn review_all(&mut self, x: u32) -> Option<()> {
        let mut at = 0usize;
        for _ in 0..self.clauses.watching(x)?.len() {
            if self.contradiction.is_some() {
                break;
            }
            let k = *self.clauses.watching(x)?.get(at)?;
            self.burn(1)?;
            if self.review(k, x)? {
                self.clauses.unwatch(x, at)?;
            } else {
                at = at.checked_add(1)?;
            }
        }
        Some(())
    }

    // Whether the clause waits for another operation in the place of this one from now on.
    fn review(&mut self, k: u32, x: u32) -> Option<bool> {
        for (which, other) in [(0, 1), (1, 0)] {
            let claim = self.clauses.watched(k, which)?;
            if claim.watched() != x || !self.is_false(claim)? {
                continue;
            }
            let left = self.clauses.watched(k, other)?;
            if self.truth(left)? == Some(true) {
                return Some(false);
            }
            let Some(new) = self.other_open(k)? else {
                self.infer(k, left)?;
                return Some(false);
            };
            self.clauses.watch_other(k, which, new)?;
            return self.rewatch(k, which, x, left.watched());
        }
        Some(false)
    }

    // A claim that isn't watched and isn't false.
    fn other_open(&mut self, k: u32) -> Option<Option<usize>> {
        let count = self.clauses.get(k)?.claims.len();
        self.burn(u32::try_from(count).ok()?)?;
        let clause = self.clauses.get(k)?;
        for (place, claim) in clause.claims.iter().enumerate() {
            if !clause.watched.contains(&place) && !self.is_false(*claim)? {
                return Some(Some(place));
            }
        }
        Some(None)
    }

    // This one of the two is another claim now. Whether the clause doesn't wait for `x` any more.
    fn rewatch(&mut self, k: u32, which: usize, x: u32, other: u32) -> Option<bool> {
        let watched = self.clauses.watched(k, which)?.watched();
        if watched == x {
            return Some(false);
        }
        if watched != other {
            self.clauses.watch(watched, k)?;
        }
        Some(other != x)
    }
}
