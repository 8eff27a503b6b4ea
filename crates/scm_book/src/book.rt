//! The book of open traces.
ghost use Rattle.std.specs.Prelude.{◌≡◌, ◌≢◌, ◌↔◌, ◌+◌, ◌-◌, [], false, map, None, Some, true, IsTrue, MatchResult};
ghost use Rattle.scm_book.specs.Machine.{call_data, reply_data, entry_data, refused, empty_machine};
ghost use Rattle.scm_sequences.specs.declared.refusal.Refusal.TheVariants.{BadLine, TooManySessions};
ghost use Rattle.scm_book.specs.inner.Sets.{HasRoom, HasRoomFor, HoldsFor, LeavesSets};
ghost use Rattle.scm_results.specs.Totals.{capped, none_counted};
ghost use Rattle.scm_book.specs.inner.Workers.{IsTaking, IsDelivery, OffersNothingNew};
ghost use Rattle.scm_book.specs.inner.Loans.{IsLending, IsLendingForWork, IsTakingBack};
ghost use Rattle.scm_book.specs.inner.Plans.{IsKnown, known_reply, reply_in, loan_in};
ghost use Rattle.scm_book.specs.inner.Changes.{tells_of_change};
ghost use Rattle.scm_book.specs.Journal.{count_of as count_in, IsCall, IsLegalBook};

mod calls;

use crate::journal::Journal;
use crate::loan::Loan;
use crate::traces::Traces;
use crate::{Call, Entry, Outlook, Plan, Reply};
use scm_cells::Name;
use scm_expand::{Outcome, Task};
use scm_frontier::Steps;
use scm_results::Results;
use scm_sequences::{NoMemory, Refusal};
use std::alloc::Global;
use std::marker::Model;

/// The open traces, with a journal of the calls that were answered.
///
/// Contracts see a record: `machine` is the machine that the book stands for, and `journal` its entries, a legal history
/// that ends in this machine. Beside the machine stand `sets`, what questions and outcomes found out about each trace, and
/// `results`, the totals of tasks and outcomes, and `steps`, how many steps questions made. A session is a number that the
/// caller gives.
///
/// Each call answers `Refused(JournalFull)` where the journal is full, before all else; then what the machine answers, or
/// `Refused(NoMemory)`. After these two refusals machine and journal are as they were, and after the first the sets too;
/// with any other reply the call and its reply stand last in the journal.
#[derive(Drop)]
pub struct Book {
    traces: Traces,
    journal: Journal,
    results: Results,
    steps: u64,
}

impl Model for Book {
    ghost use Rattle.scm_book.specs.Journal.{BookState, IsLegalHistory};
    ghost use Rattle.scm_book.specs.inner.Sets.{machine_in, sets_in};

    ghost Value = { BookState };

    ghost view = { λ b. record { journal = b.journal.entries; machine = machine_in b.traces; sets = sets_in b.traces; results = b.results; steps = b.steps } };

    ghost invariant = { λ b. IsLegalHistory b.journal.entries (machine_in b.traces) };
}

impl Book {
    /// A book with no traces and no entries.
    pub fn new(alloc: Global) -> Book
        ensures machine { result.machine ≡ empty_machine }
        ensures journal { result.journal ≡ [] }
        ensures sets { result.sets ≡ [] }
        ensures results { result.results ≡ none_counted }
        ensures steps { result.steps ≡ 0 }
    {
        Book {
            traces: Traces::new(alloc),
            journal: Journal::new(alloc),
            results: Results::new(),
            steps: 0,
        }
    }

    /// The journal's entries, in order.
    pub fn entries(&self) -> &[Entry]
        ensures entries { map entry_data result.now ≡ self.now.journal }
        ensures legal { IsLegalBook self.now }
    {
        self.journal.entries()
    }

    /// How many entries are of a session.
    pub fn count_of(&self, session: u16) -> u64
        ensures { result ≡ count_in session self.now.journal }
    {
        self.journal.count_of(session)
    }

    /// How many situations are kept for the trace of this name, `None` where it isn't there. What is kept is a kept set of
    /// the trace as it stands.
    pub fn held(&self, name: &Name) -> Option<usize>
        ensures { HoldsFor self.now.machine self.now.sets name.now result }
    {
        self.traces.held(name)
    }

    /// How many tasks were taken, and what became of the outcomes that were delivered.
    pub fn results(&self) -> Results
        ensures { result ≡ self.now.results }
    {
        self.results
    }

    /// How many steps questions made in all, up to 2^64 - 1.
    pub fn steps(&self) -> u64
        ensures { result ≡ self.now.steps }
    {
        self.steps
    }

    /// Takes at most `n` tasks for workers, all of one trace: at least one where `n` isn't 0 and some trace has a next
    /// operation that is still to be looked at and room in its budget. A trace with such operations that weren't handed out
    /// comes first, among these one with few situations. Neither machine nor journal changes. Where memory is refused nothing is
    /// handed out.
    pub fn take(&mut self, n: usize) -> Result<Vec<Task>, NoMemory>
        ensures taken { MatchResult result (λ tasks. IsTaking self.old n (Some tasks.items) self.new) (λ _. IsTaking self.old n None self.new) }
        ensures legal { IsLegalBook self.new }
    {
        let tasks = self.traces.take(n)?;
        self.results.take(tasks.len());
        Ok(tasks)
    }

    /// Whether a trace has a next operation that is still to be looked at and wasn't handed out, and room in its budget.
    pub fn has_new_tasks(&self) -> bool
        ensures { (result ≡ false) ↔ OffersNothingNew self.now.machine self.now.sets }
    {
        self.traces.has_new_tasks()
    }

    /// Whether the next tasks that `take` gives are for workers: of a trace with few situations, whose set isn't lent; larger
    /// sets are lent. Where tasks may not come `again`, whether some of them weren't handed out. Nothing rests on it.
    pub fn has_small_tasks(&self, again: bool) -> bool {
        self.traces.has_small_tasks(again)
    }

    /// Takes outcomes back, whatever they are: late, repeated, of a trace that was returned, closed or opened again since.
    /// Gives what became of them. Neither machine nor journal changes.
    pub fn deliver(&mut self, outcomes: Vec<Outcome>) -> Results
        ensures delivered { IsDelivery self.old outcomes.items result self.new }
        ensures none_taken { result.taken ≡ 0 }
        ensures legal { IsLegalBook self.new }
    {
        let delivered = self.traces.deliver(outcomes);
        self.results.add(&delivered);
        delivered
    }

    /// What is to be done before a call is made. Known schedules of what a question is about are judged here, once: a legal
    /// one is the reply, to be handed to `call_planned` before anything changes. Else a question waits while its set is lent.
    /// Else, where its answer is likely to be near, the plan says so; where not, it is lent, to be searched with no book at hand,
    /// with the set that is kept for its trace; the start alone stays in its place. With no loan everything is as it was, also
    /// where memory is refused.
    /// Neither machine nor journal changes.
    pub fn plan(&mut self, call: &Call) -> Plan
        ensures lends { IsLending self.old (call_data call.now) (loan_in result) self.new }
        ensures known { IsKnown self.new.machine (call_data call.now) (reply_in result) }
        ensures legal { IsLegalBook self.new }
    {
        match call {
            Call::Ask { name, mark } | Call::Why { name, mark } => self.traces.plan(name, *mark),
            _ => Plan::Ready(Outlook::Unknown),
        }
    }

    /// The set of a trace with many situations, to be searched with no book at hand for what questions will want, as the question
    /// whether the trace is consistent; the start alone stays in its place. `None`, with everything as it was, where no trace
    /// wants it, where the first one that might turns out to have a schedule or a settled set, or memory is refused:
    /// `may_want_work` tells whether to try again. Neither machine nor journal changes.
    pub fn lend_work(&mut self) -> Option<Loan>
        ensures lends { IsLendingForWork self.old result self.new }
        ensures legal { IsLegalBook self.new }
    {
        self.traces.lend_work()
    }

    /// Whether a trace may want work: it may have many situations, and grew since it was looked at for work, or nothing changed
    /// and something was left. Nothing rests on it.
    pub fn may_want_work(&self) -> bool {
        self.traces.may_want_work()
    }

    /// Takes a question back that was lent, whatever happened since. Where its trace is there, what it found out is kept as
    /// far as it is true of the trace as it stands, in place of what was found out meanwhile, if it is more and no more than
    /// the budget allows. Neither machine nor journal changes. It takes no memory.
    pub fn take_back(&mut self, loan: Loan)
        ensures taken { IsTakingBack self.old loan self.new }
        ensures legal { IsLegalBook self.new }
    {
        self.traces.take_back(loan);
    }

    /// Whether the counter has room for the steps of a question about the trace of this name. A new counter always has.
    pub fn has_room(&self, name: &Name, steps: &Steps) -> bool
        ensures exact { IsTrue result ↔ HasRoomFor self.now.machine name.now steps.now }
        ensures new { steps.now ≡ 0 → IsTrue result }
    {
        self.traces.has_room(name, steps)
    }

    /// Makes a call of a session. The machine is as it was after every reply but `Done` and `MarkSet`. No call is refused
    /// `BadLine` or `TooManySessions`. The steps of a question are counted in the book's total.
    pub fn call(&mut self, session: u16, call: Call) -> Reply
        ensures called { IsCall self.old session (call_data call) (reply_data result) self.new }
        ensures kept { tells_of_change (reply_data result) ≡ false → self.new.machine ≡ self.old.machine }
        ensures good { reply_data result ≢ refused BadLine }
        ensures sessions { reply_data result ≢ refused TooManySessions }
        ensures legal { IsLegalBook self.new }
    {
        self.call_planned(session, call, Outlook::Unknown)
    }

    /// Makes a call of a session. Where its plan carries a reply, that is the answer. Where there is no memory for the call it
    /// is refused, and nothing changes but what a question finds out.
    pub fn call_planned(&mut self, session: u16, call: Call, outlook: Outlook) -> Reply
        requires { IsKnown self.old.machine (call_data call) (known_reply outlook) }
        ensures called { IsCall self.old session (call_data call) (reply_data result) self.new }
        ensures kept { tells_of_change (reply_data result) ≡ false → self.new.machine ≡ self.old.machine }
        ensures good { reply_data result ≢ refused BadLine }
        ensures sessions { reply_data result ≢ refused TooManySessions }
        ensures legal { IsLegalBook self.new }
    {
        let mut steps = self.traces.new_counter(&call);
        self.make(session, call, outlook, &mut steps)
    }

    /// Makes a call of a session, unless its reply is known, and counts the steps of a question.
    fn make(&mut self, session: u16, call: Call, outlook: Outlook, steps: &mut Steps) -> Reply
        requires room { HasRoom self.old.machine (call_data call) steps.old }
        requires known { IsKnown self.old.machine (call_data call) (known_reply outlook) }
        ensures called { IsCall self.old session (call_data call) (reply_data result) self.new }
        ensures machine { tells_of_change (reply_data result) ≡ false → self.new.machine ≡ self.old.machine }
        ensures sets { LeavesSets self.old.machine self.old.sets (call_data call) (reply_data result) steps.old steps.new self.new.sets }
        ensures counted { self.new.steps ≡ capped (self.old.steps + (steps.new - steps.old)) }
        ensures legal { IsLegalBook self.new }
    {
        if self.journal.is_full() {
            return Reply::Refused(Refusal::JournalFull);
        }
        if self.journal.make_room(session).is_err() {
            return Reply::Refused(Refusal::NoMemory);
        }
        let before = steps.made();
        let reply = self.traces.call(session, &call, outlook, steps);
        self.steps = self.steps.saturating_add(steps.made() - before);
        if !reply.makes_entry() {
            return reply;
        }
        let Ok(entered) = reply.copy() else {
            return Reply::Refused(Refusal::NoMemory);
        };
        self.journal.enter(session, call, entered);
        reply
    }
}
