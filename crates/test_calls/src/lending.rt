//! Questions that are lent by a book, and what is taken back after whatever happened meanwhile.

ghost use Rattle.scm_book.specs.Machine.{call_data};
ghost use Rattle.scm_book.specs.inner.Plans.{IsKnown, known_reply};

use crate::words::{ANNA, call_of, name, play, played, says};
use crate::work::awaits;
use scm_book::{Book, Call, Event, Loan, Outlook, Plan, Reply, run_events};
use scm_frontier::Steps;
use std::alloc::Global;
use std::process::Abort;

/// So many stores each of three writers makes, in a cell of its own.
const STORES: u64 = 9;

/// What a question about them finds: each number of stores of each writer.
pub(crate) const SITUATIONS: usize = 1_000;

/// Each of three processes stores in its own cell, and the fourth loads from the first one what nobody stored.
pub(crate) const OPEN: &str = "open t 4 5000 x y z; claim t 0; claim t 1; claim t 2; claim t 3";

/// The same, with a budget of half of them.
pub(crate) const WITH_FEW: &str = "open t 4 500 x y z; claim t 0; claim t 1; claim t 2; claim t 3";

pub(crate) const FORBIDDEN: &str = "do t 3 lw x 10";

const STORE: [&str; 3] = ["do t 0 sw x", "do t 1 sw y", "do t 2 sw z"];

pub(crate) fn report_stores(rt: &impl Abort, alloc: Global, book: &mut Book, from: u64) {
    for value in from..=STORES {
        for store in STORE {
            let line = format!(in alloc; "{store} {value}").expect(rt, "memory");
            play(rt, alloc, book, &line);
        }
    }
}

/// A book with such a trace.
pub(crate) fn forbidden(rt: &impl Abort, alloc: Global) -> Book {
    forbidden_in(rt, alloc, OPEN)
}

pub(crate) fn forbidden_in(rt: &impl Abort, alloc: Global, open: &str) -> Book {
    let mut book = played(rt, alloc, open);
    report_stores(rt, alloc, &mut book, 1);
    play(rt, alloc, &mut book, FORBIDDEN);
    book
}

fn asked(rt: &impl Abort, alloc: Global, book: &mut Book, line: &str) -> Loan {
    let Plan::Long(loan) = book.plan(&call_of(rt, alloc, line)) else {
        panic!(rt; "a question");
    };
    loan
}

fn searched(rt: &impl Abort, alloc: Global, book: &mut Book) -> Loan {
    let mut loan = asked(rt, alloc, book, "ask t");
    loan.search();
    loan
}

/// The set of t holds so many situations.
pub(crate) fn assert_held(rt: &impl Abort, book: &Book, count: usize) {
    let held = book.held(&name(rt, b"t"));
    assert!(rt; held == Some(count));
}

/// Adds the call to the events.
pub(crate) fn add_call(rt: &impl Abort, alloc: Global, events: &mut Vec<Event>, line: &str) {
    let call = call_of(rt, alloc, line);
    let session = ANNA;
    events
        .push(Event::CallBy { session, call })
        .expect(rt, "memory");
}

/// By how many steps t gets this answer under the book.
pub(crate) fn steps_to_ask(rt: &impl Abort, book: &mut Book, wanted: &str) -> u64 {
    let t = name(rt, b"t");
    let mut steps = Steps::new();
    assert!(rt; book.has_room(&t, &steps));
    let reply = book.ask(ANNA, t, None, &mut steps);
    assert!(rt; says(&reply, wanted));
    steps.made()
}

/// The question is inconsistent, and takes no step.
pub(crate) fn assert_spared(rt: &impl Abort, book: &mut Book) {
    assert!(rt; steps_to_ask(rt, book, "inconsistent") == 0);
}

/// It is inconsistent, and takes steps.
fn assert_searched(rt: &impl Abort, book: &mut Book) {
    assert!(rt; steps_to_ask(rt, book, "inconsistent") > 0);
}

/// A process that reported nothing makes no trace short.
#[test]
fn a_question_beside_a_silent_process_is_lent(rt: HostRuntime) {
    let mut book = played(&rt, rt.alloc(), OPEN);
    play(&rt, rt.alloc(), &mut book, "do t 0 lw x 10");
    report_stores(&rt, rt.alloc(), &mut book, 1);
    assert!(rt; book.may_want_work());
    let loan = searched(&rt, rt.alloc(), &mut book);
    book.take_back(loan);
    assert_spared(&rt, &mut book);
    drop(book);
}

#[test]
fn what_was_found_spares_the_question(rt: HostRuntime) {
    let mut book = forbidden(&rt, rt.alloc());
    let loan = searched(&rt, rt.alloc(), &mut book);
    assert_held(&rt, &book, 1);
    book.take_back(loan);
    assert_held(&rt, &book, SITUATIONS);
    assert_spared(&rt, &mut book);
    drop(book);
}

/// Whether a short search of the question finds all, and then the set holds so many situations.
fn search_shortly(
    rt: &impl Abort,
    alloc: Global,
    book: &mut Book,
    line: &str,
    finds_all: bool,
    count: usize,
) {
    let mut loan = asked(rt, alloc, book, line);
    assert!(rt; loan.search_shortly() == finds_all);
    book.take_back(loan);
    assert_held(rt, book, count);
}

/// A short search looks for a sixteenth of the budget, once, and not at a mark.
#[test]
fn a_short_search_finds_a_part(rt: HostRuntime) {
    let mut book = played(&rt, rt.alloc(), OPEN);
    report_stores(&rt, rt.alloc(), &mut book, 1);
    play(
        &rt,
        rt.alloc(),
        &mut book,
        "do t 3 lw x 10; mark t => ok 0; do t 3 lw x 9",
    );
    search_shortly(&rt, rt.alloc(), &mut book, "ask t 0", false, 1);
    for _ in 0..2 {
        search_shortly(&rt, rt.alloc(), &mut book, "ask t", false, 5_000 / 16);
    }
    drop(book);
}

#[test]
fn a_short_search_spares_the_question(rt: HostRuntime) {
    let mut book = forbidden(&rt, rt.alloc());
    play(&rt, rt.alloc(), &mut book, "raise t 50000");
    search_shortly(&rt, rt.alloc(), &mut book, "ask t", true, SITUATIONS);
    assert_spared(&rt, &mut book);
    drop(book);
}

/// Where a question is searched, another one about the trace waits, and none of its work is lent.
#[test]
fn a_question_waits_for_another(rt: HostRuntime) {
    let mut book = forbidden(&rt, rt.alloc());
    let loan = searched(&rt, rt.alloc(), &mut book);
    assert!(rt; awaits(&rt, rt.alloc(), &mut book, "why t") && !book.may_want_work());
    book.take_back(loan);
    assert_ready(&rt, rt.alloc(), &mut book, "why t", true);
    drop(book);
}

/// No tasks of a set that is lent are for workers, also where its trace got small meanwhile.
#[test]
fn a_lent_set_has_no_tasks(rt: HostRuntime) {
    let mut book = forbidden_in(&rt, rt.alloc(), MARKED);
    let loan = searched(&rt, rt.alloc(), &mut book);
    play(&rt, rt.alloc(), &mut book, SMALL_AGAIN);
    assert!(rt; !book.has_small_tasks(true));
    book.take_back(loan);
    assert!(rt; book.has_small_tasks(true));
    drop(book);
}

#[test]
fn a_lost_question_is_asked_anew(rt: HostRuntime) {
    let mut book = forbidden(&rt, rt.alloc());
    let lost = searched(&rt, rt.alloc(), &mut book);
    drop(lost);
    assert_searched(&rt, &mut book);
    assert_held(&rt, &book, SITUATIONS);
    drop(book);
}

/// What happens to a trace while a question about it is away: how it was opened, the calls meanwhile, from which store on it
/// has stores then, how many situations are held once the question was taken back, and the answer to the next one.
///
/// - A report cuts nothing.
/// - A return leaves what is in common: what was reported since the mark is reported anew, the last store of x otherwise.
/// - Another trace of the name takes what is in common, but for other first contents or a smaller budget.
const MEANWHILE: [(&str, &str, u64, usize, &str); 5] = [
    (OPEN, "do t 0 sw x 77", 10, SITUATIONS, "inconsistent"),
    (MARKED, "back t 0", STORES, 1, "consistent"),
    (OPEN, REOPENED, 1, SITUATIONS, "consistent"),
    (OPEN, WITH_FIVE, 1, 1, "consistent"),
    (OPEN, WITH_LESS, 1, 1, "consistent"),
];

const MARKED: &str =
    "open t 4 5000 x y z; claim t 0; claim t 1; claim t 2; claim t 3; mark t => ok 0";

/// After a return to the mark another store than was there, and a load that it doesn't explain.
const SMALL_AGAIN: &str = "back t 0; do t 0 sw x 5; do t 3 lw x 10";

const REOPENED: &str = "close t; open t 4 5000 x y z; claim t 0; claim t 1; claim t 2; claim t 3";

const WITH_FIVE: &str =
    "close t; open t 4 5000 x=5 y z; claim t 0; claim t 1; claim t 2; claim t 3";

const WITH_LESS: &str = "close t; open t 4 999 x y z; claim t 0; claim t 1; claim t 2; claim t 3";

#[test]
fn what_happens_meanwhile_is_told_apart(rt: HostRuntime) {
    for (open, calls, from, held, answer) in MEANWHILE {
        let mut book = forbidden_in(&rt, rt.alloc(), open);
        let loan = searched(&rt, rt.alloc(), &mut book);
        play(&rt, rt.alloc(), &mut book, calls);
        report_stores(&rt, rt.alloc(), &mut book, from);
        book.take_back(loan);
        assert_held(&rt, &book, held);
        let _steps = steps_to_ask(&rt, &mut book, answer);
    }
}

#[test]
fn a_closed_trace_takes_nothing_back(rt: HostRuntime) {
    let mut book = forbidden(&rt, rt.alloc());
    let loan = searched(&rt, rt.alloc(), &mut book);
    play(&rt, rt.alloc(), &mut book, "close t");
    book.take_back(loan);
    assert!(rt; book.held(&name(&rt, b"t")).is_none());
    drop(book);
}

/// The budget is spent, and raised while the question is away: the next one goes on from there.
#[test]
fn a_raised_budget_goes_on(rt: HostRuntime) {
    let mut book = forbidden_in(&rt, rt.alloc(), WITH_FEW);
    let loan = searched(&rt, rt.alloc(), &mut book);
    play(&rt, rt.alloc(), &mut book, "raise t 5000");
    book.take_back(loan);
    assert_held(&rt, &book, 500);
    let spared = steps_to_ask(&rt, &mut book, "inconsistent");
    let steps = steps_to_ask(&rt, &mut forbidden(&rt, rt.alloc()), "inconsistent");
    assert!(rt; 0 < spared && spared < steps);
    drop(book);
}

/// Of this trace no schedule is found within a budget of 300, and one is within 4,000.
const IN_VAIN: &str = "open t 4 300 x0 x1 x2; claim t 0; claim t 1; claim t 2; claim t 3;\
    do t 0 sw x0 3; do t 0 lw x1 2; do t 0 rw x2 0 1; do t 0 lw x1 1; do t 0 rw x0 0 3; do t 0 sw x0 0;\
    do t 0 lw x0 2; do t 0 lw x1 2; do t 0 sw x2 2; do t 1 sw x1 2; do t 1 sw x0 0; do t 1 sw x1 2;\
    do t 1 sw x0 3; do t 1 rw x0 3 1; do t 1 sw x2 3; do t 1 lw x0 1; do t 1 sw x0 3; do t 1 sw x0 2;\
    do t 2 sw x0 0; do t 2 lw x0 0; do t 2 lw x1 1; do t 2 lw x2 1; do t 2 sw x2 1; do t 2 sw x2 2;\
    do t 2 sw x1 3; do t 2 lw x1 3; do t 2 rw x1 3 0; do t 3 sw x2 0; do t 3 lw x2 0; do t 3 sw x1 1;\
    do t 3 lw x1 1; do t 3 sw x0 0; do t 3 sw x1 3; do t 3 lw x2 1; do t 3 sw x0 2; do t 3 rw x1 2 2";

/// A schedule that a lent question looked for in vain is looked for again after a raise meanwhile.
#[test]
fn a_raised_budget_proposes_again(rt: HostRuntime) {
    let mut book = played(&rt, rt.alloc(), IN_VAIN);
    let loan = searched(&rt, rt.alloc(), &mut book);
    play(&rt, rt.alloc(), &mut book, "raise t 4000");
    book.take_back(loan);
    assert_held(&rt, &book, 300);
    let _steps = steps_to_ask(&rt, &mut book, "consistent");
    drop(book);
}

/// The call is made at once, and its answer is near or not.
fn assert_ready(rt: &impl Abort, alloc: Global, book: &mut Book, line: &str, is_near: bool) {
    let call = call_of(rt, alloc, line);
    let plan = book.plan(&call);
    let is_ready = match &plan {
        Plan::Ready(Outlook::Near) => is_near,
        Plan::Ready(Outlook::Unknown) => !is_near,
        _ => false,
    };
    drop(plan);
    drop(call);
    assert!(rt; is_ready);
}

#[test]
fn nothing_is_lent_where_the_answer_is_there(rt: HostRuntime) {
    let mut book = forbidden(&rt, rt.alloc());
    assert_searched(&rt, &mut book);
    for (line, is_near) in [("ask t", true), ("list", false)] {
        assert_ready(&rt, rt.alloc(), &mut book, line, is_near);
    }
    assert_held(&rt, &book, SITUATIONS);
    drop(book);
}

/// What the plan of a call carries of its answer.
fn carried(book: &mut Book, call: &Call) -> Outlook
    ensures { IsKnown book.new.machine (call_data call.now) (known_reply result) }
{
    match book.plan(call) {
        Plan::Ready(outlook) => outlook,
        other => {
            drop(other);
            Outlook::Unknown
        }
    }
}

/// A known schedule of t is carried by the plan of a question, and answers it with no step.
pub(crate) fn assert_carried(rt: &impl Abort, alloc: Global, book: &mut Book) {
    let ask = call_of(rt, alloc, "ask t");
    let outlook = carried(book, &ask);
    let is_known = matches!(outlook, Outlook::Known(_));
    let before = book.count_of(ANNA);
    let reply = book.call_planned(ANNA, ask, outlook);
    let is_consistent = says(&reply, "consistent");
    drop(reply);
    assert!(rt; is_known && is_consistent && book.steps() == 0);
    assert!(rt; book.count_of(ANNA) == before.saturating_add(1));
}

#[test]
fn a_known_schedule_is_carried(rt: HostRuntime) {
    let mut book = played(&rt, rt.alloc(), OPEN);
    report_stores(&rt, rt.alloc(), &mut book, 1);
    assert_carried(&rt, rt.alloc(), &mut book);
    drop(book);
}

/// Where no schedule was legal, as many operations in another order are judged anew.
#[test]
fn a_return_makes_schedules_legal(rt: HostRuntime) {
    let mut book = forbidden_in(&rt, rt.alloc(), MARKED);
    let loan = searched(&rt, rt.alloc(), &mut book);
    book.take_back(loan);
    play(&rt, rt.alloc(), &mut book, "back t 0");
    report_stores(&rt, rt.alloc(), &mut book, 1);
    play(&rt, rt.alloc(), &mut book, "do t 3 lw x 9");
    assert_carried(&rt, rt.alloc(), &mut book);
    drop(book);
}

fn add_event(rt: &impl Abort, events: &mut Vec<Event>, event: Event) {
    events.push(event).expect(rt, "memory");
}

/// The book after these events, of which the calls got these replies.
fn after_events(
    rt: &impl Abort,
    alloc: Global,
    book: Book,
    events: Vec<Event>,
    wanted: &[&str],
) -> Book {
    let Ok((book, replies)) = run_events(alloc, book, events) else {
        panic!(rt; "no memory");
    };
    assert_said(rt, &replies, wanted);
    book
}

fn assert_said(rt: &impl Abort, replies: &[Reply], wanted: &[&str]) {
    let mut said = replies.iter().zip(wanted);
    assert!(rt; replies.len() == wanted.len() && said.all(|(reply, wanted)| says(reply, wanted)));
}

/// What was found comes back after a loan for work, and spares the question its steps.
#[test]
fn a_set_comes_back_among_events(rt: HostRuntime) {
    let mut book = forbidden(&rt, rt.alloc());
    let loan = searched(&rt, rt.alloc(), &mut book);
    let mut events = Vec::new(rt.alloc());
    add_event(&rt, &mut events, Event::LendWork);
    add_event(&rt, &mut events, Event::TakeBack(loan));
    add_call(&rt, rt.alloc(), &mut events, "ask t");
    let book = after_events(&rt, rt.alloc(), book, events, &["inconsistent"]);
    assert_held(&rt, &book, SITUATIONS);
    assert!(rt; book.steps() == 0);
    drop(book);
}

/// What is lent among events is lost: the start alone stays.
#[test]
fn a_set_is_lost_among_events(rt: HostRuntime) {
    let mut book = forbidden(&rt, rt.alloc());
    let loan = searched(&rt, rt.alloc(), &mut book);
    let ask = call_of(&rt, rt.alloc(), "ask t");
    let mut events = Vec::new(rt.alloc());
    add_event(&rt, &mut events, Event::TakeBack(loan));
    add_call(&rt, rt.alloc(), &mut events, "do t 0 sw x 77");
    add_event(&rt, &mut events, Event::Lend(ask));
    let book = after_events(&rt, rt.alloc(), book, events, &["ok"]);
    assert_held(&rt, &book, 1);
    drop(book);
}

/// What comes back to another book, which has no such trace any more, changes nothing.
#[test]
fn another_book_takes_nothing(rt: HostRuntime) {
    let loan = searched(&rt, rt.alloc(), &mut forbidden(&rt, rt.alloc()));
    let mut events = Vec::new(rt.alloc());
    add_call(&rt, rt.alloc(), &mut events, "close t");
    add_event(&rt, &mut events, Event::TakeBack(loan));
    let book = played(&rt, rt.alloc(), OPEN);
    let book = after_events(&rt, rt.alloc(), book, events, &["ok"]);
    assert!(rt; book.held(&name(&rt, b"t")).is_none() && book.entries().len() == 6);
    drop(book);
}
