//! Sets that are lent for work, and what is taken back of it.

use crate::lending::{
    FORBIDDEN, OPEN, SITUATIONS, WITH_FEW, assert_carried, assert_held, assert_spared, forbidden,
    forbidden_in, report_stores,
};
use crate::words::{call_of, play, played};
use scm_book::{Book, Loan, Plan};
use std::alloc::Global;
use std::process::Abort;

/// So many situations are looked for at a time.
const AT_ONCE: usize = 300;

fn lent(rt: &impl Abort, book: &mut Book) -> Loan {
    book.lend_work().expect(rt, "a set")
}

/// Whether a question has to wait until its set is back. One that is lent instead comes back unsearched.
pub(crate) fn awaits(rt: &impl Abort, alloc: Global, book: &mut Book, line: &str) -> bool {
    match book.plan(&call_of(rt, alloc, line)) {
        Plan::Waits => true,
        Plan::Long(loan) => {
            book.take_back(loan);
            false
        }
        Plan::Ready(_) => false,
    }
}

/// Whether a set is lent for work, which is lost then.
fn lends(book: &mut Book) -> bool {
    let lent = book.lend_work();
    let is_lent = lent.is_some();
    drop(lent);
    is_lent
}

/// Whether a set is lent for work, however often one is asked for.
fn is_ever_lent(book: &mut Book) -> bool {
    for _ in 0..10 {
        if lends(book) {
            return true;
        }
    }
    false
}

/// How often work has to be done until nothing is left.
fn times_of_work(loan: &mut Loan) -> usize {
    let mut times: usize = 1;
    for _ in 0..10 {
        if loan.work(AT_ONCE) {
            times = times.saturating_add(1);
        }
    }
    times
}

/// No set is lent for work any more.
fn assert_wants_no_work(rt: &impl Abort, book: &mut Book) {
    assert!(rt; !is_ever_lent(book) && !book.may_want_work());
}

/// A budget that is too small is refused, and brings no work. A look would forget that it did.
fn assert_raise_refused(rt: &impl Abort, alloc: Global, book: &mut Book) {
    play(rt, alloc, book, "raise t 1 => refused bad-budget");
    assert!(rt; !book.may_want_work());
}

#[test]
fn work_spares_the_question(rt: HostRuntime) {
    let mut book = forbidden(&rt, rt.alloc());
    let mut loan = lent(&rt, &mut book);
    let times = times_of_work(&mut loan);
    assert_held(&rt, &book, 1);
    book.take_back(loan);
    assert!(rt; times == 4);
    assert_held(&rt, &book, SITUATIONS);
    assert_spared(&rt, &mut book);
    assert_raise_refused(&rt, rt.alloc(), &mut book);
    assert_wants_no_work(&rt, &mut book);
    drop(book);
}

/// A schedule is looked for first. The order of the reports is none, since the load sees a store that is reported after it.
#[test]
fn work_finds_a_schedule(rt: HostRuntime) {
    let mut book = played(&rt, rt.alloc(), OPEN);
    play(&rt, rt.alloc(), &mut book, "do t 3 lw x 1");
    report_stores(&rt, rt.alloc(), &mut book, 1);
    let mut loan = lent(&rt, &mut book);
    assert!(rt; loan.propose());
    book.take_back(loan);
    assert_carried(&rt, rt.alloc(), &mut book);
    drop(book);
}

/// A set is lent, worked on once and given back, and some work is left.
fn lend_once(rt: &impl Abort, book: &mut Book) {
    let mut loan = lent(rt, book);
    let is_left = loan.work(AT_ONCE);
    book.take_back(loan);
    assert!(rt; is_left && book.may_want_work());
}

#[test]
fn work_that_is_given_back_is_gone_on_with(rt: HostRuntime) {
    let mut book = forbidden(&rt, rt.alloc());
    for times in 1..3 {
        lend_once(&rt, &mut book);
        assert_held(&rt, &book, times * AT_ONCE + 1);
    }
    drop(book);
}

/// All that the budget allows is found, and more once it is raised.
#[test]
fn a_raised_budget_wants_work(rt: HostRuntime) {
    let mut book = forbidden_in(&rt, rt.alloc(), WITH_FEW);
    let mut loan = lent(&rt, &mut book);
    let _times = times_of_work(&mut loan);
    book.take_back(loan);
    assert_wants_no_work(&rt, &mut book);
    play(&rt, rt.alloc(), &mut book, "raise t 5000");
    assert!(rt; book.may_want_work());
    drop(book);
}

/// The raise comes while the set is lent, in which all is found that the budget allowed.
#[test]
fn a_budget_that_is_raised_meanwhile_wants_work(rt: HostRuntime) {
    let mut book = forbidden_in(&rt, rt.alloc(), WITH_FEW);
    let mut loan = lent(&rt, &mut book);
    let _times = times_of_work(&mut loan);
    play(&rt, rt.alloc(), &mut book, "raise t 5000");
    book.take_back(loan);
    assert!(rt; book.may_want_work());
    drop(book);
}

/// Work may be wanted, and no question waits for a set.
fn assert_wants_work(rt: &impl Abort, alloc: Global, book: &mut Book) {
    assert!(rt; book.may_want_work() && !awaits(rt, alloc, book, "ask t"));
}

/// No set is lent while one is away, and a question waits for it once the trace has grown.
#[test]
fn a_set_is_lent_once(rt: HostRuntime) {
    let mut book = forbidden(&rt, rt.alloc());
    assert_wants_work(&rt, rt.alloc(), &mut book);
    let loan = lent(&rt, &mut book);
    assert!(rt; !lends(&mut book) && !book.may_want_work());
    play(&rt, rt.alloc(), &mut book, "do t 0 sw x 9");
    assert!(rt; !lends(&mut book) && !book.may_want_work());
    assert!(rt; awaits(&rt, rt.alloc(), &mut book, "ask t"));
    book.take_back(loan);
    assert_wants_work(&rt, rt.alloc(), &mut book);
    drop(book);
}

/// A set is lent, and lost. Then the question waits for it.
fn lose(rt: &impl Abort, alloc: Global, book: &mut Book) {
    assert!(rt; lends(book) && awaits(rt, alloc, book, "ask t"));
}

#[test]
fn what_is_explained_wants_no_work(rt: HostRuntime) {
    let mut book = played(&rt, rt.alloc(), OPEN);
    report_stores(&rt, rt.alloc(), &mut book, 1);
    assert_wants_no_work(&rt, &mut book);
    play(&rt, rt.alloc(), &mut book, FORBIDDEN);
    assert!(rt; book.may_want_work());
    lose(&rt, rt.alloc(), &mut book);
    drop(book);
}

/// The trace is explained as it stood at mark 0, and not as it is.
#[test]
fn a_question_that_is_explained_awaits_nothing(rt: HostRuntime) {
    let mut book = played(&rt, rt.alloc(), OPEN);
    report_stores(&rt, rt.alloc(), &mut book, 1);
    play(
        &rt,
        rt.alloc(),
        &mut book,
        "ask t => consistent; mark t => ok 0",
    );
    play(&rt, rt.alloc(), &mut book, FORBIDDEN);
    lose(&rt, rt.alloc(), &mut book);
    assert!(rt; !awaits(&rt, rt.alloc(), &mut book, "ask t 0"));
    drop(book);
}
