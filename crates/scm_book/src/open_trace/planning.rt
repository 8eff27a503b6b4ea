//! What is to be done before a question about an open trace is asked.
ghost use Rattle.std.specs.Prelude.{◌≡◌, IfOk, IfSome, MatchOption, None};
ghost use Rattle.scm_book.specs.Machine.{reply_data};
ghost use Rattle.scm_book.specs.inner.Loans.{Lends};
ghost use Rattle.scm_book.specs.inner.Plans.{IsExplained, reply_in, loan_in};

use super::asking::lengths_at;
use super::{OpenTrace, Purpose};
use crate::proposing::{Distance, Proposing};
use crate::question::Question;
use crate::{Outlook, Plan, Reply};
use scm_cells::Name;
use scm_sequences::Refusal;
use std::alloc::Global;

impl OpenTrace {
    /// The plan of a question about the present trace, or as it stood at a mark. What is known of its schedules is found out
    /// once: a legal one is carried, and that none is legal is remembered.
    pub(crate) fn plan(&mut self, alloc: Global, name: Name, mark: Option<u64>) -> Plan
        ensures state { self.new.state ≡ self.old.state }
        ensures lends { MatchOption (loan_in result) (self.new.set ≡ self.old.set) (λ loan. Lends name mark self.old.state self.old.set loan self.new.set) }
        ensures known { IfSome (reply_in result) (λ reply. IsExplained self.old.state mark reply) }
    {
        match self.known_reply(alloc, mark) {
            Ok(None) => self.plan_search(alloc, name, mark),
            Ok(Some(reply)) => Plan::Ready(Outlook::Known(reply)),
            Err(_) => Plan::Ready(Outlook::Unknown),
        }
    }

    /// The reply that a known schedule is. Refused `NoSuchMark`.
    fn known_reply(&mut self, alloc: Global, mark: Option<u64>) -> Result<Option<Reply>, Refusal>
        ensures same { self.new ≡ self.old }
        ensures known { IfOk result (λ known. IfSome known (λ reply. IsExplained self.old.state mark (reply_data reply))) }
    {
        let _most = self.most_steps();
        let present = self.sequences.lengths();
        let lengths = lengths_at(&self.marks, &present, mark)?;
        let question = Question {
            alloc,
            cells: &self.cells,
            sequences: &self.sequences,
            lengths,
            limit: self.budget.limit(),
            explains: false,
            is_near: false,
            schedules: &self.schedules,
        };
        let known = question.known(&self.reach)?;
        self.schedules.learn_known(known.as_ref(), lengths);
        Ok(known)
    }

    /// The plan where no schedule is known.
    fn plan_search(&mut self, alloc: Global, name: Name, mark: Option<u64>) -> Plan
        ensures state { self.new.state ≡ self.old.state }
        ensures lends { MatchOption (loan_in result) (self.new.set ≡ self.old.set) (λ loan. Lends name mark self.old.state self.old.set loan self.new.set) }
        ensures known { reply_in result ≡ None }
    {
        if !self.loan_state.is_here() {
            return Plan::Waits;
        }
        match self.distance(alloc, mark) {
            Distance::Near => return Plan::Ready(Outlook::Near),
            Distance::Unknown => return Plan::Ready(Outlook::Unknown),
            Distance::Far => {}
        }
        match self.lend(alloc, name, mark, Purpose::Answer) {
            Some(loan) => Plan::Long(loan),
            None => Plan::Ready(Outlook::Unknown),
        }
    }

    /// How far the answer to a question is, to which no schedule is known.
    fn distance(&self, alloc: Global, mark: Option<u64>) -> Distance {
        let present = self.sequences.lengths();
        let Ok(lengths) = lengths_at(&self.marks, &present, mark) else {
            return Distance::Unknown;
        };
        let proposing = Proposing {
            alloc,
            sequences: &self.sequences,
            lengths,
            limit: self.budget.limit(),
            schedules: &self.schedules,
            purpose: Purpose::Answer,
        };
        proposing.distance(&self.reach)
    }
}
