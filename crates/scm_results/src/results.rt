//! How many tasks were taken, and what became of their outcomes.
ghost use Rattle.std.specs.Prelude.{◌≡◌, ◌+◌};
ghost use Rattle.scm_results.specs.Totals.{capped, none_counted, with_taken, with_fate, sum_of, delivered_of, total_of};

use crate::Fate;

/// How many tasks were taken, and how many outcomes met each fate. Each total counts up to 2^64 - 1 and stays there.
#[derive(Clone, Copy, Debug, Default, PartialEq, Eq)]
pub struct Results {
    pub taken: u64,
    pub accepted: u64,
    pub known: u64,
    pub stale: u64,
    pub full: u64,
    pub refused: u64,
}

impl Results {
    /// Nothing was taken and nothing delivered.
    pub fn new() -> Results
        ensures { result ≡ none_counted }
    {
        Results {
            taken: 0,
            accepted: 0,
            known: 0,
            stale: 0,
            full: 0,
            refused: 0,
        }
    }

    /// How many outcomes were delivered, of all fates.
    pub fn delivered(&self) -> u64
        ensures { result ≡ delivered_of self.now }
    {
        self.accepted
            .saturating_add(self.known)
            .saturating_add(self.stale)
            .saturating_add(self.full)
            .saturating_add(self.refused)
    }

    /// How many outcomes met this fate.
    pub fn of(&self, fate: Fate) -> u64
        ensures { result ≡ total_of self.now fate }
    {
        match fate {
            Fate::Accepted => self.accepted,
            Fate::Known => self.known,
            Fate::Stale => self.stale,
            Fate::Full => self.full,
            Fate::Refused => self.refused,
        }
    }

    /// Counts this many tasks that were taken.
    pub fn take(&mut self, n: usize)
        ensures { self.new ≡ with_taken self.old n }
    {
        self.taken = self.taken.saturating_add(n as u64);
    }

    /// Counts an outcome that met this fate.
    pub fn deliver(&mut self, fate: Fate)
        ensures totals { self.new ≡ with_fate self.old fate }
        ensures delivered { delivered_of self.new ≡ capped (delivered_of self.old + 1) }
    {
        match fate {
            Fate::Accepted => self.accepted = self.accepted.saturating_add(1),
            Fate::Known => self.known = self.known.saturating_add(1),
            Fate::Stale => self.stale = self.stale.saturating_add(1),
            Fate::Full => self.full = self.full.saturating_add(1),
            Fate::Refused => self.refused = self.refused.saturating_add(1),
        }
    }

    /// Adds the totals of another count.
    pub fn add(&mut self, other: &Results)
        ensures totals { self.new ≡ sum_of self.old other.now }
        ensures delivered { delivered_of self.new ≡ capped (delivered_of self.old + delivered_of other.now) }
    {
        self.taken = self.taken.saturating_add(other.taken);
        self.accepted = self.accepted.saturating_add(other.accepted);
        self.known = self.known.saturating_add(other.known);
        self.stale = self.stale.saturating_add(other.stale);
        self.full = self.full.saturating_add(other.full);
        self.refused = self.refused.saturating_add(other.refused);
    }
}
