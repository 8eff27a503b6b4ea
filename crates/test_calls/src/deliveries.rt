//! What workers take and deliver, between the calls of a session.

use crate::expand::expanded;
use crate::lending::{add_call, steps_to_ask};
use crate::words::{ANNA, STORE_BUFFERING, name, play, played};
use scm_book::{Book, Event, Reply, run_events};
use scm_expand::{Outcome, Task};
use scm_frontier::Steps;
use scm_results::{Fate, Results};
use scm_sequences::Op;
use std::alloc::Global;
use std::process::Abort;

/// A process stores 1.
const STORE: &str = "open t 1 100 x; claim t 0; do t 0 sw x 1";

/// The next task, if there is one.
fn take_one(rt: &impl Abort, book: &mut Book) -> Option<Task> {
    book.take(1).expect(rt, "memory").pop()
}

/// What comes of the next task.
fn next_outcome(rt: &impl Abort, book: &mut Book) -> Outcome {
    expanded(rt, take_one(rt, book).expect(rt, "a task"))
}

/// A list of one outcome.
fn only(rt: &impl Abort, alloc: Global, outcome: Outcome) -> Vec<Outcome> {
    vec![in alloc; outcome].expect(rt, "memory")
}

/// The totals of one outcome that met this fate.
fn one(fate: Fate) -> Results {
    let mut results = Results::new();
    results.deliver(fate);
    results
}

/// Delivers a copy of an outcome, which meets this fate.
fn deliver(rt: &impl Abort, alloc: Global, book: &mut Book, outcome: &Outcome, fate: Fate) {
    let copy = outcome.copy().expect(rt, "memory");
    let results = book.deliver(only(rt, alloc, copy));
    assert!(rt; results == one(fate));
}

fn is_same(task: &Task, other: &Task) -> bool {
    task.trace == other.trace
        && task.process == other.process
        && task.op == other.op
        && task.situation == other.situation
}

/// By how many steps it is found out why t is inconsistent.
fn steps_to_refute(rt: &impl Abort, book: &mut Book) -> u64 {
    let t = name(rt, b"t");
    let mut steps = Steps::new();
    assert!(rt; book.has_room(&t, &steps));
    let reply = book.why(ANNA, t, None, &mut steps);
    assert!(rt; matches!(reply, Reply::Because(_)));
    steps.made()
}

/// Takes the next task and delivers what comes of it, if there is one.
fn work_once(rt: &impl Abort, alloc: Global, book: &mut Book) -> bool {
    let Some(task) = take_one(rt, book) else {
        return false;
    };
    let _results = book.deliver(only(rt, alloc, expanded(rt, task)));
    true
}

/// Takes one task after the other, and delivers what comes of it, while there is one.
fn work_off(rt: &impl Abort, alloc: Global, book: &mut Book) {
    for _ in 0..100 {
        if !work_once(rt, alloc, book) {
            return;
        }
    }
    panic!(rt; "tasks without end");
}

// An outcome is stale where its trace is gone, whatever else is open. It counts for a trace that was opened again, where it
// is a step of that trace too.
#[test]
fn reopened(rt: HostRuntime) {
    let mut book = played(&rt, rt.alloc(), STORE);
    let outcome = next_outcome(&rt, &mut book);
    play(&rt, rt.alloc(), &mut book, "close t; open u 1 100 x");
    deliver(&rt, rt.alloc(), &mut book, &outcome, Fate::Stale);
    play(&rt, rt.alloc(), &mut book, STORE);
    deliver(&rt, rt.alloc(), &mut book, &outcome, Fate::Accepted);
    deliver(&rt, rt.alloc(), &mut book, &outcome, Fate::Known);
    play(&rt, rt.alloc(), &mut book, "ask t => consistent 0");
    drop(book);
}

fn assert_comes_again(rt: &impl Abort, first: &Task, second: &Task, third: &Task) {
    assert!(rt; first.process == 0);
    assert!(rt; first.process != second.process);
    assert!(rt; is_same(third, first) || is_same(third, second));
}

/// Two tasks, which are different. A third one is one of them again.
fn take_two(rt: &impl Abort, book: &mut Book) -> (Task, Task) {
    let first = take_one(rt, book).expect(rt, "a first task");
    let second = take_one(rt, book).expect(rt, "a second task");
    let third = take_one(rt, book).expect(rt, "a task again");
    assert_comes_again(rt, &first, &second, &third);
    (first, second)
}

/// Delivers two outcomes at once. The set has room for the first alone.
fn overfill(rt: &impl Abort, alloc: Global, book: &mut Book, first: Outcome, second: &Outcome) {
    let second = second.copy().expect(rt, "memory");
    let mut expected = one(Fate::Accepted);
    expected.deliver(Fate::Full);
    let results = book.deliver(vec![in alloc; first, second].expect(rt, "memory"));
    assert!(rt; results == expected);
}

// Two takings give different tasks, and a third one of them again. Under a budget of 2 the outcome of the second finds the
// set full, and room once the budget was raised.
#[test]
fn full_then_room(rt: HostRuntime) {
    let mut book = played(
        &rt,
        rt.alloc(),
        "open t 2 2 x; claim t 0; claim t 1; do t 0 sw x 1; do t 1 sw x 2",
    );
    let (first, second) = take_two(&rt, &mut book);
    let first = expanded(&rt, first);
    let second = expanded(&rt, second);
    overfill(&rt, rt.alloc(), &mut book, first, &second);
    play(&rt, rt.alloc(), &mut book, "raise t 5");
    deliver(&rt, rt.alloc(), &mut book, &second, Fate::Accepted);
    drop(book);
}

/// It leads nowhere.
fn next_illegal(rt: &impl Abort, book: &mut Book) -> Outcome {
    let outcome = next_outcome(rt, book);
    assert!(rt; outcome.next().is_none());
    outcome
}

fn assert_nothing_to_take(rt: &impl Abort, book: &mut Book) {
    assert!(rt; take_one(rt, book).is_none());
}

// A load of another value than its cell holds leads nowhere, and that is found out once.
#[test]
fn no_step(rt: HostRuntime) {
    let mut book = played(&rt, rt.alloc(), "open t 1 100 x; claim t 0; do t 0 lw x 1");
    let outcome = next_illegal(&rt, &mut book);
    deliver(&rt, rt.alloc(), &mut book, &outcome, Fate::Known);
    assert_nothing_to_take(&rt, &mut book);
    drop(book);
}

/// Process 0 stores 1 in x.
fn next_store(rt: &impl Abort, book: &mut Book) -> Outcome {
    let outcome = next_outcome(rt, book);
    let task = outcome.task();
    assert!(rt; task.process == 0 && task.op == Op::W { cell: 0, value: 1 });
    outcome
}

// The situation of an outcome is still there after a return, but another operation is the next one.
#[test]
fn late_outcome(rt: HostRuntime) {
    let mut book = played(
        &rt,
        rt.alloc(),
        "open t 2 100 x; claim t 0; claim t 1; mark t => ok 0; do t 0 sw x 1",
    );
    let outcome = next_store(&rt, &mut book);
    play(&rt, rt.alloc(), &mut book, "back t 0; do t 0 sw x 2");
    deliver(&rt, rt.alloc(), &mut book, &outcome, Fate::Stale);
    play(
        &rt,
        rt.alloc(),
        &mut book,
        "do t 1 lw x 2; ask t => consistent 01",
    );
    deliver(&rt, rt.alloc(), &mut book, &outcome, Fate::Stale);
    drop(book);
}

/// What workers found out about the stores.
fn assert_worked_off(rt: &impl Abort, results: &Results) {
    assert!(rt; results.accepted == 7 && results.known == 5);
    assert!(rt; results.delivered() == 12 && results.taken == 12);
}

// What a question found out is spared the next one, and what workers found out too. The book counts all steps.
#[test]
fn steps_kept(rt: HostRuntime) {
    let mut book = played(&rt, rt.alloc(), STORE_BUFFERING);
    let made = steps_to_ask(&rt, &mut book, "inconsistent");
    let again = steps_to_ask(&rt, &mut book, "inconsistent");
    let refuting = steps_to_refute(&rt, &mut book);
    play(&rt, rt.alloc(), &mut book, "close t");
    play(&rt, rt.alloc(), &mut book, STORE_BUFFERING);
    work_off(&rt, rt.alloc(), &mut book);
    assert_worked_off(&rt, &book.results());
    let spared = steps_to_ask(&rt, &mut book, "inconsistent");
    assert!(rt; 0 < made && made <= 14 && book.steps() == made);
    assert!(rt; [again, refuting, spared] == [0, 0, 0]);
    drop(book);
}

/// Calls of Anna, with a taking and a delivery between them.
fn mixed_events(rt: &impl Abort, alloc: Global, outcome: Outcome) -> Vec<Event> {
    let mut events = Vec::new(alloc);
    add_call(rt, alloc, &mut events, "list");
    events.push(Event::Take(3)).expect(rt, "memory");
    add_call(rt, alloc, &mut events, "ask t");
    add_delivery(rt, alloc, &mut events, outcome);
    add_call(rt, alloc, &mut events, "close t");
    events
}

fn add_delivery(rt: &impl Abort, alloc: Global, events: &mut Vec<Event>, outcome: Outcome) {
    let event = Event::Deliver(only(rt, alloc, outcome));
    events.push(event).expect(rt, "memory");
}

/// Calls alone get a reply. One task was taken before the events, and one was left for the taking among them.
fn assert_mixed(rt: &impl Abort, book: &Book, replies: &[Reply]) {
    assert!(rt;
        matches!(
            replies,
            [Reply::Traces(_), Reply::Inconsistent, Reply::Done]
        )
    );
    let results = book.results();
    assert!(rt; results.taken == 2 && results.delivered() == 1);
}

#[test]
fn events_mixed(rt: HostRuntime) {
    let mut book = played(&rt, rt.alloc(), STORE_BUFFERING);
    let outcome = next_outcome(&rt, &mut book);
    let events = mixed_events(&rt, rt.alloc(), outcome);
    let Ok((book, replies)) = run_events(rt.alloc(), book, events) else {
        panic!(&rt; "no memory");
    };
    assert_mixed(&rt, &book, &replies);
}
