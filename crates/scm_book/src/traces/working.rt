//! What workers take and deliver.
ghost use Rattle.std.specs.Prelude.{◌≡◌, ◌↔◌, false, IfSome, MatchOption, MatchResult};
ghost use Rattle.scm_book.specs.inner.Sets.{machine_in, sets_in, InKept};
ghost use Rattle.scm_book.specs.inner.Workers.{Offers, OffersNew, OffersNothing, OffersNothingNew, ComesFirst, TakesTasks, Meets, Delivers};

use super::Traces;
use scm_cells::Name;
use scm_expand::{Outcome, Task};
use scm_results::{Fate, Results};
use scm_sequences::NoMemory;

impl Traces {
    /// Takes at most `n` tasks, of one trace: at least one where `n` isn't 0 and some trace has a next operation that is
    /// still to be looked at and room in its budget. A trace with such operations that weren't handed out comes first.
    /// Unchanged where memory is refused.
    pub(crate) fn take(&mut self, n: usize) -> Result<Vec<Task>, NoMemory>
        ensures machine { machine_in self.new ≡ machine_in self.old }
        ensures takes { MatchResult result (λ tasks. TakesTasks (machine_in self.old) (sets_in self.old) n tasks.items (sets_in self.new)) (λ _. sets_in self.new ≡ sets_in self.old) }
    {
        if n == 0 {
            return Ok(Vec::new(self.alloc));
        }
        let Some(name) = self.offering() else {
            return Ok(Vec::new(self.alloc));
        };
        let trace = self.traces.get_mut(&name).unwrap();
        trace.tasks(self.alloc, name, n)
    }

    /// The trace that tasks are taken of next.
    fn offering(&self) -> Option<Name>
        ensures { MatchOption result (OffersNothing (machine_in self.now) (sets_in self.now)) (λ name. InKept self.now name (ComesFirst (machine_in self.now) (sets_in self.now))) }
    {
        if let Some(name) = self.small_new() {
            return Some(name);
        }
        match self.first_new() {
            Some(name) => Some(name),
            None => self.first(),
        }
    }

    /// The first trace that is worked on by tasks, with operations to be looked at that weren't handed out, and room in its
    /// budget.
    fn small_new(&self) -> Option<Name>
        ensures { IfSome result (λ name. InKept self.now name OffersNew) }
    {
        for place in 0..self.traces.len() {
            let (name, _) = self.traces.get_index(place).unwrap();
            if self
                .traces
                .get(name)
                .is_some_and(|trace| trace.offers_small_new())
            {
                return Some(*name);
            }
        }
        None
    }

    /// Whether tasks would be taken of a trace that is worked on by them; where they may not come again, some that weren't
    /// handed out.
    pub(crate) fn has_small_tasks(&self, again: bool) -> bool {
        let Some(name) = self.offering() else {
            return false;
        };
        let Some(trace) = self.traces.get(&name) else {
            return false;
        };
        trace.offers_small_new() || again && trace.is_for_tasks()
    }

    /// The first trace with operations to be looked at that weren't handed out, and room in its budget.
    fn first_new(&self) -> Option<Name>
        ensures { MatchOption result (OffersNothingNew (machine_in self.now) (sets_in self.now)) (λ name. InKept self.now name OffersNew) }
    {
        for place in 0..self.traces.len() {
            let (name, _) = self.traces.get_index(place).unwrap();
            if self
                .traces
                .get(name)
                .is_some_and(|trace| trace.offers_new())
            {
                return Some(*name);
            }
        }
        None
    }

    /// Whether a trace has operations to be looked at that weren't handed out, and room in its budget.
    pub(crate) fn has_new_tasks(&self) -> bool
        ensures { (result ≡ false) ↔ OffersNothingNew (machine_in self.now) (sets_in self.now) }
    {
        self.first_new().is_some()
    }

    /// The first trace with operations to be looked at, and room in its budget.
    fn first(&self) -> Option<Name>
        ensures { MatchOption result (OffersNothing (machine_in self.now) (sets_in self.now)) (λ name. InKept self.now name Offers) }
    {
        for place in 0..self.traces.len() {
            let (name, _) = self.traces.get_index(place).unwrap();
            if self.traces.get(name).is_some_and(|trace| trace.offers()) {
                return Some(*name);
            }
        }
        None
    }

    /// Takes outcomes back, one after the other.
    pub(crate) fn deliver(&mut self, outcomes: Vec<Outcome>) -> Results
        ensures machine { machine_in self.new ≡ machine_in self.old }
        ensures delivers { Delivers (machine_in self.old) (sets_in self.old) outcomes.items result (sets_in self.new) }
    {
        let mut delivered = Results::new();
        for outcome in outcomes {
            delivered.deliver(self.accept(outcome));
        }
        delivered
    }

    /// Takes an outcome back. Where its trace isn't there it is stale.
    fn accept(&mut self, outcome: Outcome) -> Fate
        ensures machine { machine_in self.new ≡ machine_in self.old }
        ensures meets { Meets (machine_in self.old) (sets_in self.old) outcome result (sets_in self.new) }
    {
        let name = outcome.task().trace;
        let Some(trace) = self.traces.get_mut(&name) else {
            drop(outcome);
            return Fate::Stale;
        };
        trace.accept(outcome)
    }
}
