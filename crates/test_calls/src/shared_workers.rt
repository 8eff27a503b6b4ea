//! That workers work a shared book off, and that nobody waits for one who is at work.
ghost use Rattle.std.specs.Prelude.{◌≡◌};

use crate::expand::expanded;
use crate::shared::entered;
use crate::words::{STORE_BUFFERING, call_of, says};
use scm_book::Book;
use scm_expand::{FreeGate, Outcome, TaskSource, run_workers};
use scm_results::Tally;
use scm_shared::{BookNaming, BookToken, Pass, SharedBook};
use std::alloc::Global;
use std::marker::Brand;
use std::process::Abort;
use std::sync::Wait;
use std::test::Fail;
use std::thread;
use std::thread::Threads;
use test_fixtures::{Barrier, MOST_TURNS};

/// Makes the calls of a text, each of which is answered what stands behind its arrow, or `ok`.
pub(crate) fn play_shared<B: BookNaming, R: Wait + Abort>(
    rt: &R,
    alloc: Global,
    shared: &SharedBook<B>,
    pass: &mut Pass<B>,
    text: &str,
) {
    for line in text.split(';') {
        let (line, wanted) = line.split_once("=>").unwrap_or((line, "ok"));
        let reply = shared.call(rt, pass, call_of(rt, alloc, line));
        assert!(rt; says(&reply, wanted.trim()), "{line}");
    }
}

/// The question whether t is consistent is answered so.
pub(crate) fn assert_answer(rt: &impl Abort, alloc: Global, book: &mut Book, wanted: &str) {
    assert!(rt; says(&book.call(0, call_of(rt, alloc, "ask t")), wanted));
}

/// Takes one task a turn, and drops it, until there is none.
fn drop_tasks<B: BookNaming, R: Wait>(rt: &R, shared: &SharedBook<B>) -> Option<Tally<B>> {
    let mut tally = shared.tally(rt)?;
    for _ in 0..MOST_TURNS {
        match shared.take(rt, 1, &mut tally) {
            Ok(tasks) if tasks.is_empty() => return Some(tally),
            Ok(_) => thread::yield_now(),
            Err(_) => return None,
        }
    }
    None
}

/// A pass, after the calls that open t and report store buffering.
pub(crate) fn buffered<B: BookNaming, R: Wait + Abort>(
    rt: &R,
    alloc: Global,
    shared: &SharedBook<B>,
) -> Pass<B> {
    let mut pass = entered(rt, shared);
    play_shared(rt, alloc, shared, &mut pass, STORE_BUFFERING);
    pass
}

/// The book, where the audit of its only pass agrees, and there are so many tallies.
pub(crate) fn audited<B: BookNaming>(
    rt: &impl Abort,
    alloc: Global,
    shared: SharedBook<B>,
    pass: Pass<B>,
    tallies: Vec<Tally<B>>,
    wanted: u32,
) -> Book {
    let passes = vec![in alloc; pass].expect(rt, "memory");
    let audit = shared.audit(passes, tallies);
    assert!(rt; audit.agreed && audit.totals_agreed && audit.tallies == wanted);
    audit.book
}

/// Two workers work the book off, while this thread takes tasks too and drops them. Gives all tallies.
fn work_and_drop<B: BookNaming + Send + Sync, R: Threads + Wait + Abort + Sync>(
    rt: &R,
    alloc: Global,
    shared: &SharedBook<B>,
) -> Vec<Tally<B>> {
    let (tally, tallies) = thread::join(
        rt,
        || {
            let tally = drop_tasks(rt, shared);
            shared.stop_workers();
            tally
        },
        || run_workers::<B, SharedBook<B>, FreeGate, R>(rt, alloc, shared, &FreeGate, 2),
    );
    let mut tallies = tallies.expect(rt, "threads and memory");
    tallies
        .push(tally.expect(rt, "no task in the end"))
        .expect(rt, "memory");
    tallies
}

/// A pass, after a question has looked at all there was in 91 situations, and then the report of a load that is legal in none.
fn looked_through<B: BookNaming, R: Wait + Abort>(
    rt: &R,
    alloc: Global,
    shared: &SharedBook<B>,
) -> Pass<B> {
    let mut pass = entered(rt, shared);
    play_shared(
        rt,
        alloc,
        shared,
        &mut pass,
        "open t 2 100 x y; claim t 0; claim t 1",
    );
    for _ in 0..90 {
        play_shared(rt, alloc, shared, &mut pass, "do t 0 sw x 1");
    }
    play_shared(
        rt,
        alloc,
        shared,
        &mut pass,
        "do t 0 lw x 2; ask t => inconsistent; do t 1 lw x 3",
    );
    pass
}

/// Works store buffering off, or the situations that a question has looked at, by several takings that bring nothing new.
fn work_off<B: BookNaming + Send + Sync, R: Threads + Wait + Abort + Sync>(
    rt: &R,
    alloc: Global,
    token: BookToken,
    is_searched: bool,
) -> Book
    requires table { token.table.shared.table_id ≡ B.table }
    requires made { (token.made.name ≡ B.made) × (token.made.parts ≡ B.seats) }
    requires totals { (token.totals.taken.name ≡ B.taken) × (token.totals.delivered.name ≡ B.delivered) × (token.totals.taken.parts ≡ B.parts) }
{
    let shared = SharedBook::<B>::new(alloc, token);
    let pass = if is_searched {
        looked_through(rt, alloc, &shared)
    } else {
        buffered(rt, alloc, &shared)
    };
    let tallies = work_and_drop(rt, alloc, &shared);
    audited(rt, alloc, shared, pass, tallies, 4)
}

#[test]
fn worked_off(rt: HostRuntime) -> Result<(), Fail> {
    let mut book = work_off::<Brand, _>(&rt, rt.alloc(), BookToken::new(rt.alloc())?, false);
    assert!(rt; book.results().accepted == 7);
    assert_answer(&rt, rt.alloc(), &mut book, "inconsistent");
    assert!(rt; book.steps() == 0);
    drop(book);
    Ok(())
}

#[test]
fn loads_are_worked_off(rt: HostRuntime) -> Result<(), Fail> {
    let mut book = work_off::<Brand, _>(&rt, rt.alloc(), BookToken::new(rt.alloc())?, true);
    assert!(rt; book.results().known >= 91);
    let steps = book.steps();
    assert_answer(&rt, rt.alloc(), &mut book, "inconsistent");
    assert!(rt; book.steps() == steps);
    drop(book);
    Ok(())
}

/// A report and a question are answered while a worker is held.
fn call_while_held<B: BookNaming, R: Wait + Abort>(
    rt: &R,
    alloc: Global,
    shared: &SharedBook<B>,
    pass: &mut Pass<B>,
    barrier: &Barrier,
) {
    assert!(rt; barrier.holds(1));
    play_shared(
        rt,
        alloc,
        shared,
        pass,
        "do t 0 sw x 2; ask t => inconsistent",
    );
}

fn call_meanwhile<B: BookNaming + Send + Sync, R: Threads + Wait + Abort + Sync>(
    rt: &R,
    alloc: Global,
    token: BookToken,
) -> Book
    requires table { token.table.shared.table_id ≡ B.table }
    requires made { (token.made.name ≡ B.made) × (token.made.parts ≡ B.seats) }
    requires totals { (token.totals.taken.name ≡ B.taken) × (token.totals.delivered.name ≡ B.delivered) × (token.totals.taken.parts ≡ B.parts) }
{
    let barrier = Barrier::new();
    let shared = SharedBook::<B>::new(alloc, token);
    let mut pass = buffered(rt, alloc, &shared);
    let (_, tallies) = thread::join(
        rt,
        || {
            call_while_held(rt, alloc, &shared, &mut pass, &barrier);
            shared.stop_workers();
            barrier.open();
        },
        || run_workers::<B, SharedBook<B>, Barrier, R>(rt, alloc, &shared, &barrier, 2),
    );
    let tallies = tallies.expect(rt, "threads and memory");
    audited(rt, alloc, shared, pass, tallies, 3)
}

#[test]
fn report_during_expand(rt: HostRuntime) -> Result<(), Fail> {
    let book = call_meanwhile::<Brand, _>(&rt, rt.alloc(), BookToken::new(rt.alloc())?);
    assert!(rt; book.results().delivered() >= 1);
    drop(book);
    Ok(())
}

/// Whether there are new tasks: before any was taken, once all were, and after an outcome.
fn look_for_new<B: BookNaming, R: Wait + Abort>(
    rt: &R,
    alloc: Global,
    token: BookToken,
) -> [bool; 3]
    requires table { token.table.shared.table_id ≡ B.table }
    requires made { (token.made.name ≡ B.made) × (token.made.parts ≡ B.seats) }
    requires totals { (token.totals.taken.name ≡ B.taken) × (token.totals.delivered.name ≡ B.delivered) × (token.totals.taken.parts ≡ B.parts) }
{
    let shared = SharedBook::<B>::new(alloc, token);
    let _pass = buffered(rt, alloc, &shared);
    let mut tally = shared.tally(rt).expect(rt, "a tally");
    let at_first = shared.has_new(rt);
    let outcomes = two_outcomes(rt, alloc, &shared, &mut tally);
    let all_taken = shared.has_new(rt);
    shared.deliver(rt, outcomes, &mut tally);
    [at_first, all_taken, shared.has_new(rt)]
}

#[test]
fn new_tasks_are_told(rt: HostRuntime) -> Result<(), Fail> {
    let found = look_for_new::<Brand, _>(&rt, rt.alloc(), BookToken::new(rt.alloc())?);
    assert!(rt; found == [true, false, true]);
    Ok(())
}

/// What comes of two tasks.
fn two_outcomes<B: BookNaming, R: Wait + Abort>(
    rt: &R,
    alloc: Global,
    shared: &SharedBook<B>,
    tally: &mut Tally<B>,
) -> Vec<Outcome> {
    let mut outcomes = Vec::new(alloc);
    for task in shared.take(rt, 2, tally).expect(rt, "memory") {
        outcomes.push(expanded(rt, task)).expect(rt, "memory");
    }
    assert!(rt; outcomes.len() == 2);
    outcomes
}

fn copies(rt: &impl Abort, alloc: Global, outcomes: &[Outcome]) -> Vec<Outcome> {
    let mut copies = Vec::new(alloc);
    for outcome in outcomes {
        let copy = outcome.copy().expect(rt, "memory");
        copies.push(copy).expect(rt, "memory");
    }
    copies
}

/// How many changes there were before and after a delivery; and before and after one of the same outcomes, once their trace is
/// closed.
fn deliver_late<B: BookNaming, R: Wait + Abort>(rt: &R, alloc: Global, token: BookToken) -> [u64; 4]
    requires table { token.table.shared.table_id ≡ B.table }
    requires made { (token.made.name ≡ B.made) × (token.made.parts ≡ B.seats) }
    requires totals { (token.totals.taken.name ≡ B.taken) × (token.totals.delivered.name ≡ B.delivered) × (token.totals.taken.parts ≡ B.parts) }
{
    let shared = SharedBook::<B>::new(alloc, token);
    let mut pass = buffered(rt, alloc, &shared);
    let mut tally = shared.tally(rt).expect(rt, "a tally");
    let outcomes = two_outcomes(rt, alloc, &shared, &mut tally);
    let again = copies(rt, alloc, &outcomes);
    let before = shared.wait(rt, 0);
    shared.deliver(rt, outcomes, &mut tally);
    let after = shared.wait(rt, 0);
    play_shared(rt, alloc, &shared, &mut pass, "close t");
    let closed = shared.wait(rt, 0);
    shared.deliver(rt, again, &mut tally);
    assert!(rt; tally.delivered() == 4);
    [before, after, closed, shared.wait(rt, 0)]
}

#[test]
fn a_late_delivery_wakes_nobody(rt: HostRuntime) -> Result<(), Fail> {
    let [before, after, closed, late] = deliver_late::<Brand, _>(
        &rt,
        rt.alloc(),
        BookToken::new(rt.alloc())?,
    );
    assert!(rt; before < after && closed == late);
    Ok(())
}
