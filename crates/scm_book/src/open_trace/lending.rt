//! Questions about an open trace that are searched beside it.
ghost use Rattle.std.specs.Prelude.{◌≡◌, ◌↔◌, IfSome, IsTrue, MatchOption, None, Ok};
ghost use Rattle.scm_sequences.specs.Traces.{trace_of};
ghost use Rattle.scm_cells.specs.CellLists.{initials_of};
ghost use Rattle.scm_reach.specs.Kept.{IsKept};
ghost use Rattle.scm_book.specs.inner.Sets.{asked_lengths};
ghost use Rattle.scm_book.specs.inner.Loans.{IsAlike, IsMore, Lends, TakesBack, TakesSet};

use super::asking::lengths_at;
use super::{OpenTrace, Purpose};
use crate::copying::copy_of_sequences;
use crate::known_schedules::KnownSchedules;
use crate::loan::Loan;
use crate::proposing::{Proposing, has_few_situations};
use scm_cells::{Cells, Name};
use scm_proposals::Beginning;
use scm_reach::Reach;
use scm_sequences::{Lengths, Sequences};
use std::alloc::Global;
use std::mem;

impl OpenTrace {
    /// The question about the present trace, or as it stood at a mark, to be searched elsewhere, with the set that is kept
    /// for the trace; the start alone stays here. `None`, with everything as it was, where the mark isn't there or memory is
    /// refused.
    pub(super) fn lend(
        &mut self,
        alloc: Global,
        name: Name,
        mark: Option<u64>,
        purpose: Purpose,
    ) -> Option<Loan>
        ensures state { self.new.state ≡ self.old.state }
        ensures lends { MatchOption result (self.new.set ≡ self.old.set) (λ loan. Lends name mark self.old.state self.old.set loan self.new.set) }
    {
        let _most = self.most_steps();
        let lengths = self.lengths_of_question(alloc, mark)?;
        let schedules = self.schedules.copy()?;
        let Ok(sequences) = copy_of_sequences(alloc, &self.sequences) else {
            return None;
        };
        let Ok(start) = Reach::new(alloc, &self.cells, &self.sequences) else {
            return None;
        };
        self.loan_state.lend();
        Some(Loan {
            alloc,
            name,
            sequences,
            lengths,
            limit: self.budget.limit(),
            reach: mem::replace(&mut self.reach, start),
            schedules,
            purpose,
            fuel: None,
            is_unfinished: true,
        })
    }

    /// A copy of the lengths that a question is about, where they are there.
    fn lengths_of_question(&self, alloc: Global, mark: Option<u64>) -> Option<Lengths>
        ensures { IfSome result (λ lengths. asked_lengths self.now.state mark ≡ Ok lengths) }
    {
        let present = self.sequences.lengths();
        match lengths_at(&self.marks, &present, mark) {
            Ok(lengths) => Some(Lengths::new(alloc, lengths.counts())),
            Err(_) => None,
        }
    }

    /// Whether a question about it would search.
    fn wants_work(&self, alloc: Global) -> bool {
        let lengths = self.sequences.lengths();
        let proposing = Proposing {
            alloc,
            sequences: &self.sequences,
            lengths: &lengths,
            limit: self.budget.limit(),
            schedules: &self.schedules,
            purpose: Purpose::Work,
        };
        proposing.wants_work(&self.reach)
    }

    /// Whether its set is to be lent for work, as far as can be told with no look at it.
    pub(crate) fn may_want_work(&self) -> bool {
        self.loan_state.may_want_work() && self.budget.room(self.reach.held()) && !self.is_small()
    }

    /// Whether it is worked on by tasks: it has few situations at most, and its set is here.
    pub(crate) fn is_for_tasks(&self) -> bool {
        self.loan_state.is_here() && self.is_small()
    }

    /// Whether it has few situations at most.
    fn is_small(&self) -> bool {
        has_few_situations(&self.sequences.lengths(), self.budget.limit())
    }

    /// The set, to be searched elsewhere for what questions will want. `None`, with everything as it was, where it is settled,
    /// a schedule is known or memory is refused. It isn't asked for again until it grows or its budget is raised.
    pub(crate) fn lend_work(&mut self, alloc: Global, name: Name) -> Option<Loan>
        ensures state { self.new.state ≡ self.old.state }
        ensures lends { MatchOption result (self.new.set ≡ self.old.set) (λ loan. Lends name None self.old.state self.old.set loan self.new.set) }
    {
        self.loan_state.look();
        if matches!(self.follow_reports(alloc), Some(0)) || !self.wants_work(alloc) {
            return None;
        }
        self.lend(alloc, name, None, Purpose::Work)
    }

    /// Follows the order of the reports on from where the last look ended, as far as it is a schedule. Gives how many operations
    /// are left.
    fn follow_reports(&mut self, alloc: Global) -> Option<usize>
        ensures { self.new ≡ self.old }
    {
        let lengths = self.sequences.lengths();
        let mut followed = match self.followed.take() {
            Some(followed) => followed,
            None => Beginning::new(alloc, self.reach.initials(), lengths.procs())?,
        };
        let places = self.schedules.reported(&lengths)?;
        followed.follow(&self.sequences, &lengths, places.get(followed.made()..)?);
        let left = followed.left(&lengths);
        self.followed = Some(followed);
        Some(left)
    }

    /// Takes a question back that may have been lent of another trace: its set stands in the place of the present one where
    /// it holds more, once it is cut to what both traces have in common, and no more than the budget.
    pub(crate) fn take_back(&mut self, loan: Loan)
        ensures state { self.new.state ≡ self.old.state }
        ensures takes { TakesBack self.old.state loan self.old.set self.new.set }
    {
        let Loan {
            alloc: _,
            name: _,
            sequences,
            lengths,
            limit,
            mut reach,
            mut schedules,
            purpose: _,
            fuel: _,
            is_unfinished,
        } = loan;
        self.loan_state.take_back(is_unfinished);
        self.take_found(&sequences, limit, &mut reach, &mut schedules);
        drop(schedules);
        drop(reach);
        drop(lengths);
        drop(sequences);
    }

    /// The same of the parts of a question, which hold anything afterwards.
    fn take_found(
        &mut self,
        sequences: &Sequences,
        limit: usize,
        reach: &mut Reach,
        schedules: &mut KnownSchedules,
    )
        requires { IsKept (trace_of reach.old.initials sequences.now) reach.old.members }
        ensures state { self.new.state ≡ self.old.state }
        ensures takes { TakesSet self.old.state sequences.now reach.old self.old.set self.new.set }
    {
        if !self.is_alike(sequences, reach) {
            return;
        }
        let begins = reach.carry_over(sequences, &self.sequences);
        let is_same = begins && limit == self.budget.limit();
        self.schedules
            .take_back(schedules, &self.sequences.lengths(), is_same);
        if self.is_more(reach) {
            mem::swap(&mut self.reach, reach);
        }
    }

    /// Whether a trace with these sequences and first contents has as many processes and the same first contents.
    fn is_alike(&self, sequences: &Sequences, reach: &Reach) -> bool
        ensures { IsTrue result ↔ IsAlike self.now.state sequences.now reach.now }
    {
        sequences.procs() == self.sequences.procs() && has_initials(&self.cells, reach.initials())
    }

    /// Whether the set holds more than the present one, and no more than the budget.
    fn is_more(&self, reach: &Reach) -> bool
        ensures { IsTrue result ↔ IsMore self.now.state.budget self.now.set reach.now }
    {
        let held = reach.held();
        held > self.reach.held() && held <= self.budget.limit()
    }
}

/// Whether the cells hold this at first.
fn has_initials(cells: &Cells, initials: &[Option<u64>]) -> bool
    ensures { IsTrue result ↔ (initials.now ≡ initials_of cells.now) }
{
    if cells.len() != initials.len() {
        return false;
    }
    for c in 0..initials.len() {
        if cells.initial(c) != initials[c] {
            return false;
        }
    }
    true
}
