//! Loans of the sets that a shared book has, and the calls that lend one, wait for it or bring it back: none is lost, and those who
//! wait are told once it is back.
ghost use Rattle.std.specs.Prelude.{◌≡◌, IfErr, IfOk, None, Some, MatchResult};
ghost use Rattle.std.specs.Option.{option_map};
ghost use Rattle.scm_book.specs.Machine.{call_data, reply_data};
ghost use Rattle.scm_book.specs.Journal.{IsCall};
ghost use Rattle.scm_book.specs.inner.Loans.{IsLending, IsLendingForWork, IsTakingBack};
ghost use Rattle.scm_shared.specs.Passes.{IsPassCall};
ghost use Rattle.scm_shared.specs.inner.Locking.{KeepsCounts, IsSearchedCall};

use crate::length_word::LengthWord;
use crate::locked::Locked;
use crate::{BookNaming, Pass};
use scm_book::{Call, Loan, Outlook, Plan, Reply};
use scm_expand::Bell;
use std::marker::PhantomData;
use std::sync::Wait;

/// A set that the book lent, for a question or for work. It has no `Drop`, so it can't be lost: it is given back to its book.
pub(crate) struct BookLoan<B: BookNaming> {
    lent: Loan,
    of: PhantomData<B>,
}

impl<B: BookNaming> BookLoan<B> {
    fn new(lent: Loan) -> BookLoan<B>
        ensures { result.lent ≡ lent }
    {
        BookLoan {
            lent,
            of: PhantomData,
        }
    }

    /// What was lent.
    pub(crate) fn lent(&mut self) -> &mut Loan {
        &mut self.lent
    }

    /// Gives the set back, of which those who wait for it are to be told.
    pub(crate) fn give_back(self, locked: &mut Locked<B>) -> CameBack<B>
        ensures book { IsTakingBack locked.old.book self.lent locked.new.book }
        ensures counts { KeepsCounts locked.old locked.new }
    {
        let BookLoan { lent, of: _ } = self;
        locked.book.take_back(lent);
        locked.taken_back = locked.taken_back.wrapping_add(1);
        CameBack { of: PhantomData }
    }
}

/// That a set of the book came back. It has no `Drop` either: it is told.
pub(crate) struct CameBack<B: BookNaming> {
    of: PhantomData<B>,
}

/// That a call's set was lent when it was looked for, with how many were taken back by then. Only that look makes it, and it has
/// no `Drop` either: it is waited for.
pub(crate) struct StillLent<B: BookNaming> {
    taken_back: u64,
    of: PhantomData<B>,
}

impl<B: BookNaming> StillLent<B> {
    fn at(taken_back: u64) -> StillLent<B> {
        StillLent {
            taken_back,
            of: PhantomData,
        }
    }
}

/// How often a new bell rang.
const RANG_AT_FIRST: u64 = 1;

/// The bell at which those wait who want a set of the book that is lent. It stands beside the lock.
#[derive(Drop)]
pub(crate) struct SetBell<B: BookNaming> {
    bell: Bell,
    of: PhantomData<B>,
}

impl<B: BookNaming> SetBell<B> {
    pub(crate) fn new() -> SetBell<B> {
        SetBell {
            bell: Bell::new(),
            of: PhantomData,
        }
    }

    /// Tells all who wait. Who tells has no lock.
    pub(crate) fn tell(&self, back: CameBack<B>) {
        let CameBack { of: _ } = back;
        self.bell.ring();
    }

    /// Waits until it was told of more sets than were taken back by the look. It may come back earlier.
    pub(crate) fn wait<R: Wait>(&self, rt: &R, seen: StillLent<B>) {
        let StillLent { taken_back, of: _ } = seen;
        let _rang = self.bell.wait(rt, taken_back.wrapping_add(RANG_AT_FIRST));
    }
}

impl<B: BookNaming> Locked<B> {
    /// Makes the call where it is ready. Else it comes back: with its loan where it asks a question that is to be searched
    /// without the lock first; where it has to wait for a set, with what was seen of it.
    pub(crate) fn call_if_ready(
        &mut self,
        length_word: &LengthWord<B>,
        pass: &mut Pass<B>,
        call: Call,
    ) -> Result<Reply, (Call, Result<BookLoan<B>, StillLent<B>>)>
        ensures answered { IfOk result (λ reply. IsPassCall pass.old (call_data call) (reply_data reply) pass.new) }
        ensures called { IfOk result (λ reply. IsCall self.old.book pass.old.number (call_data call) (reply_data reply) self.new.book) }
        ensures asked { IfErr result (λ asked. call_data asked.0 ≡ call_data call) }
        ensures lent { IfErr result (λ asked. MatchResult asked.1 (λ loan. IsLending self.old.book (call_data call) (Some loan.lent) self.new.book) (λ _. IsLending self.old.book (call_data call) None self.new.book)) }
        ensures pass { IfErr result (λ _. pass.new ≡ pass.old) }
        ensures counts { KeepsCounts self.old self.new }
    {
        match self.book.plan(&call) {
            Plan::Ready(outlook) => Ok(self.call(length_word, pass, call, outlook)),
            Plan::Waits => Err((call, Err(StillLent::at(self.taken_back)))),
            Plan::Long(lent) => Err((call, Ok(BookLoan::new(lent)))),
        }
    }

    /// Takes a question back that was lent, and makes its call. Of the set that came back those who wait for it are to be told.
    pub(crate) fn call_searched(
        &mut self,
        length_word: &LengthWord<B>,
        pass: &mut Pass<B>,
        call: Call,
        loan: BookLoan<B>,
    ) -> (Reply, CameBack<B>)
        ensures answered { IsPassCall pass.old (call_data call) (reply_data result.0) pass.new }
        ensures book { IsSearchedCall self.old.book loan.lent pass.old.number (call_data call) (reply_data result.0) self.new.book }
        ensures counts { KeepsCounts self.old self.new }
    {
        let back = loan.give_back(self);
        (self.call(length_word, pass, call, Outlook::Unknown), back)
    }

    /// The set of a trace, lent for work.
    pub(crate) fn lend_work(&mut self) -> Option<BookLoan<B>>
        ensures book { IsLendingForWork self.old.book (option_map (λ loan. loan.lent) result) self.new.book }
        ensures counts { KeepsCounts self.old self.new }
    {
        let lent = self.book.lend_work()?;
        Some(BookLoan::new(lent))
    }
}
