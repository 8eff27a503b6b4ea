//! What lies under the lock of a shared book.
ghost use Rattle.std.specs.Prelude.{◌≡◌, ◌+◌, ◌<◌, ◌≤◌, [], IfErr, IfOk, None, Some, MatchOption, MatchResult, vec_len};
ghost use Rattle.scm_sequences.specs.declared.refusal.Refusal.TheVariants.{TooManySessions};
ghost use Rattle.scm_sequences.specs.declared.limits.TheConstants.{MOST_SESSIONS};
ghost use Rattle.scm_results.specs.declared.naming.TheConstants.{MOST_TALLIES};
ghost use Rattle.scm_results.specs.Tallies.{nothing, nothing_counted};
ghost use Rattle.scm_book.specs.Machine.{call_data, reply_data};
ghost use Rattle.scm_book.specs.Journal.{IsCall};
ghost use Rattle.scm_book.specs.inner.Plans.{IsKnown, known_reply};
ghost use Rattle.scm_book.specs.inner.Workers.{IsTaking, IsDelivery};
ghost use Rattle.scm_shared.specs.inner.Locking.{with_one_entered, KeepsCounts};
ghost use Rattle.scm_shared.specs.Passes.{newcomer, IsPassCall};
ghost use Rattle.scm_shared.specs.inner.Seats.{IsKeeper};

use crate::length_word::LengthWord;
use crate::word::View;
use crate::{BookNaming, Made, Pass};
use atomic_table::Seat;
use scm_book::{Book, Call, Entry, Outlook, Reply};
use scm_expand::{Outcome, Task};
use scm_results::{Results, Tally, Token, Totals};
use scm_sequences::{MOST_ENTRIES, MOST_SESSIONS, NoMemory, Refusal};
use std::alloc::Global;
use std::marker::{Model, PhantomData};
use std::sync::ledger;
use std::sync::ledger::{Blank, Share};

/// The book, with its seat, which knows the journal; how many passes entered; the totals of tasks and outcomes, which are those
/// of the book; and how many sets that it had lent were taken back.
#[derive(Drop)]
pub(crate) struct Locked<B: BookNaming> {
    pub(crate) book: Book,
    pub(crate) entered: u16,
    pub(crate) seat: Seat<Entry, View>,
    pub(crate) totals: Totals<B>,
    pub(crate) taken_back: u64,
    pub(crate) made: ledger::Book<Made<B>>,
    // What isn't issued yet: the shares of passes that are still to enter.
    pub(crate) unissued: Share<Made<B>>,
}

impl<B: BookNaming> Model for Locked<B> {
    ghost use Rattle.std.specs.Prelude.{◌≡◌, ◌+◌, ◌≤◌, length};
    ghost use Rattle.scm_sequences.specs.declared.limits.TheConstants.{MOST_SESSIONS};
    ghost use Rattle.scm_shared.specs.inner.Locking.{LockedState};
    ghost use Rattle.scm_shared.specs.inner.Seats.{IsKeeper};

    ghost Value = { LockedState };

    ghost view = { λ d. record { book = d.book; entered = d.entered; totals = d.totals } };

    ghost invariant = { λ d.
        (d.seat.table_id ≡ B.table)
        × IsKeeper d.seat.me d.book.journal d.entered
        × (d.entered ≤ MOST_SESSIONS)
        × (d.made.total ≡ length d.book.journal)
        × (d.unissued.parts + d.entered ≡ MOST_SESSIONS + 1)
        × (d.unissued.amount ≡ 0)
        × (B.seats ≡ MOST_SESSIONS + 1)
        × (d.totals.results ≡ d.book.results) };
}

impl<B: BookNaming> Locked<B> {
    /// An empty book, into which nobody entered.
    pub(crate) fn new(
        alloc: Global,
        totals: Token,
        made: Blank,
        seat: Seat<Entry, View>,
    ) -> Locked<B>
        requires seat { (seat.table_id ≡ B.table) × IsKeeper seat.me [] 0 }
        requires made { (made.name ≡ B.made) × (made.parts ≡ B.seats) × (made.parts ≡ MOST_SESSIONS + 1) }
        requires taken { totals.taken.name ≡ B.taken }
        requires delivered { totals.delivered.name ≡ B.delivered }
        requires parts { totals.taken.parts ≡ B.parts }
        ensures entered { result.entered ≡ 0 }
        ensures totals { result.totals ≡ nothing }
        ensures journal { result.book.journal ≡ [] }
    {
        let (made, unissued) = made.open::<Made<B>>();
        Locked {
            book: Book::new(alloc),
            entered: 0,
            seat,
            totals: Totals::new(totals),
            taken_back: 0,
            made,
            unissued,
        }
    }

    /// A new pass.
    pub(crate) fn enter(&mut self, length_word: &LengthWord<B>) -> Result<Pass<B>, Refusal>
        ensures entered { MatchResult result (λ p. (p ≡ newcomer self.old.entered) × (self.old.entered < MOST_SESSIONS)) (λ r. (r ≡ TooManySessions) × (self.old.entered ≡ MOST_SESSIONS)) }
        ensures locked { MatchResult result (λ _. self.new ≡ with_one_entered self.old) (λ _. self.new ≡ self.old) }
    {
        if usize::from(self.entered) >= MOST_SESSIONS {
            return Err(Refusal::TooManySessions);
        }
        let number = self.entered;
        let badge = length_word.admit(&mut self.seat);
        self.entered += 1;
        Ok(Pass {
            number,
            made: 0,
            front: 0,
            badge,
            share: self.unissued.split_off(1, 0),
            of: PhantomData,
        })
    }

    /// Makes a call of the pass's session, with what the call's plan says of its answer.
    pub(crate) fn call(
        &mut self,
        length_word: &LengthWord<B>,
        pass: &mut Pass<B>,
        call: Call,
        outlook: Outlook,
    ) -> Reply
        requires { IsKnown self.old.book.machine (call_data call) (known_reply outlook) }
        ensures answered { IsPassCall pass.old (call_data call) (reply_data result) pass.new }
        ensures book { IsCall self.old.book pass.old.number (call_data call) (reply_data result) self.new.book }
        ensures counts { KeepsCounts self.old self.new }
    {
        let reply = self.book.call_planned(pass.number, call, outlook);
        if reply.makes_entry() {
            let entries = self.book.entries();
            let front = length_word.commit_last(&mut self.seat, &mut pass.badge, entries);
            // By this, which does nothing at run time, the pass made no more calls than there were entries: so no sum wraps.
            self.made.audit(&mut pass.share);
            self.made.add(&mut pass.share, 1);
            pass.made += 1;
            pass.front = front;
        } else if matches!(reply, Reply::Refused(Refusal::JournalFull)) {
            length_word.catch_up(&mut self.seat, &mut pass.badge);
            pass.front = MOST_ENTRIES as u64;
        }
        reply
    }

    /// Takes at most `n` tasks, and counts them.
    pub(crate) fn take(&mut self, n: usize, tally: &mut Tally<B>) -> Result<Vec<Task>, NoMemory>
        ensures book { MatchResult result (λ tasks. IsTaking self.old.book n (Some tasks.items) self.new.book) (λ _. IsTaking self.old.book n None self.new.book) }
        ensures most { IfOk result (λ tasks. vec_len tasks ≤ n) }
        ensures taken { IfOk result (λ tasks. tally.new.taken ≤ tally.old.taken + vec_len tasks) }
        ensures delivered { tally.new.delivered ≡ tally.old.delivered }
        ensures refused { IfErr result (λ _. tally.new ≡ tally.old) }
        ensures counts { (self.new.entered ≡ self.old.entered) × (self.new.totals.given ≡ self.old.totals.given) }
    {
        let tasks = self.book.take(n)?;
        self.totals.take(tasks.len(), tally);
        Ok(tasks)
    }

    /// Delivers outcomes, and counts what became of them, which it gives.
    pub(crate) fn deliver(&mut self, outcomes: Vec<Outcome>, tally: &mut Tally<B>) -> Results
        ensures book { IsDelivery self.old.book outcomes.items result self.new.book }
        ensures taken { tally.new.taken ≡ tally.old.taken }
        ensures delivered { tally.new.delivered ≤ tally.old.delivered + vec_len outcomes }
        ensures counts { (self.new.entered ≡ self.old.entered) × (self.new.totals.given ≡ self.old.totals.given) }
    {
        let _counted = self.totals.results();
        let delivered = self.book.deliver(outcomes);
        self.totals.add(&delivered, tally);
        delivered
    }

    /// A new tally.
    pub(crate) fn tally(&mut self) -> Option<Tally<B>>
        ensures tally { MatchOption result (self.old.totals.given ≡ MOST_TALLIES) (λ tally. (tally ≡ nothing_counted) × (self.old.totals.given < MOST_TALLIES)) }
        ensures given { MatchOption result (self.new.totals.given ≡ self.old.totals.given) (λ _. self.new.totals.given ≡ self.old.totals.given + 1) }
        ensures others { (self.new.book ≡ self.old.book) × (self.new.entered ≡ self.old.entered) }
    {
        self.totals.tally()
    }
}
