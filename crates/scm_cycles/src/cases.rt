//! The search by cases: for a contradiction, or for what reads see in some schedule.
use crate::claims::Claim;
use crate::clauses::Clause;
use crate::conflict::Conflict;
use crate::gathering::gather;
use crate::search::{Search, Sought};
use crate::touching::Side;
use scm_orders::{Derivation, Rule};

/// After how many contradictions the cases are chosen anew, at least.
const UNIT: u64 = 30;

/// How often the cases were chosen anew, with the first time, and how many contradictions there were since.
#[derive(Clone, Copy)]
pub(crate) struct Restarts {
    pub(crate) count: u64,
    conflicts: u64,
}

impl Restarts {
    pub(crate) const FIRST: Restarts = Restarts {
        count: 1,
        conflicts: 0,
    };

    // Whether the cases are to be chosen anew: after twice as many contradictions each second time, four times as many each
    // fourth, ..
    fn are_due(self) -> bool {
        let times = 1u64.checked_shl(self.count.trailing_zeros()).unwrap_or(1);
        self.conflicts > UNIT.saturating_mul(times)
    }
}

impl Search {
    /// Tries cases until nothing is left to be tried, or a contradiction needs none: that, if there is one.
    pub(crate) fn try_cases(&mut self) -> Option<Option<Conflict>> {
        self.clocks.record();
        self.afters.record();
        self.candidates.record();
        self.touch_all()?;
        for _ in 0..self.fuel {
            self.burn(1)?;
            self.propagate()?;
            if let Some(contradiction) = self.contradiction {
                let conflict = self.explain(contradiction)?;
                if conflict.level == 0 {
                    return Some(Some(conflict));
                }
                self.learn(conflict)?;
                self.restarts.conflicts = self.restarts.conflicts.saturating_add(1);
                continue;
            }
            if self.restarts.are_due() {
                self.restarts.count = self.restarts.count.saturating_add(1);
                self.restarts.conflicts = 0;
                self.undo_to(0)?;
            }
            self.open_level()?;
            let Some(claim) = self.choose()? else {
                return Some(None);
            };
            self.assert(claim, Rule::Assumed, &[])?;
        }
        None
    }

    // Draws all that follows, until a cycle is closed or nothing is left to be looked at.
    fn propagate(&mut self) -> Option<()> {
        for _ in 0..self.fuel {
            if self.contradiction.is_some() {
                return Some(());
            }
            if let Some(x) = self.waiting.raised.next() {
                self.burn(1)?;
                self.touch_around(x, Side::Before)?;
                self.review_all(x)?;
            } else if let Some(read) = self.waiting.next_read() {
                self.look_again(read)?;
            } else {
                return Some(());
            }
        }
        None
    }

    fn look_again(&mut self, read: u32) -> Option<()> {
        let value = self.given.values.found(read)?;
        self.burn(1)?;
        self.visit(read, value)?;
        if self.contradiction.is_none() {
            self.review_all(read)?;
        }
        Some(())
    }

    // Keeps what contradicts itself as a clause, and goes back to where that tells something new; for a schedule half way there, since
    // most of what was chosen may stay. A clause of one claim isn't watched: what it tells has to stay.
    fn learn(&mut self, conflict: Conflict) -> Option<()> {
        let block = match self.sought {
            Sought::Schedule => Derivation {
                lines: Vec::new(self.alloc),
                hints: Vec::new(self.alloc),
            },
            Sought::Refutation => gather(self, &conflict)?,
        };
        let (claims, second, level) = self.negations(&conflict)?;
        let (newest, others) = claims.split_last()?;
        let (newest, watched) = (*newest, [others.len(), second]);
        let clause = Clause {
            claims,
            watched,
            block,
            base: self.trail.first()?.steps,
        };
        self.choices.age();
        let kept = match self.sought {
            Sought::Schedule if level > 0 => level.midpoint(conflict.level),
            _ => level,
        };
        self.undo_to(kept)?;
        let k = self.clauses.add(clause)?;
        self.infer(k, newest)
    }

    // The negations of the steps that contradict each other; where one stands of the highest level but that of the newest step;
    // and this level.
    fn negations(&self, conflict: &Conflict) -> Option<(Vec<Claim>, usize, u32)> {
        let mut claims = Vec::new(self.alloc);
        let (mut second, mut level) = (0, 0);
        for id in &conflict.steps {
            let step = self.steps.get(*id)?;
            if level < step.level && step.level < conflict.level {
                (second, level) = (claims.len(), step.level);
            }
            claims.push(step.claim.negation()).ok()?;
        }
        Some((claims, second, level))
    }
}
