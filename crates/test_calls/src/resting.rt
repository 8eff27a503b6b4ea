//! That workers search a shared book's large sets while its callers rest, and that nobody waits for one who is held.
ghost use Rattle.std.specs.Prelude.{◌≡◌};

use crate::lending::assert_held;
use crate::shared::entered;
use crate::shared_workers::{audited, play_shared};
use scm_book::Book;
use scm_expand::{FreeGate, TaskSource, run_workers};
use scm_shared::{BookNaming, BookToken, Pass, SharedBook};
use std::alloc::Global;
use std::marker::Brand;
use std::process::Abort;
use std::sync::Wait;
use std::sync::atomic::AtomicU64;
use std::test::Fail;
use std::thread;
use std::thread::Threads;
use std::time::Duration;
use test_fixtures::Barrier;

const WORKERS: usize = 2;

/// For so many milliseconds workers have time.
const MOST_MILLIS: u64 = 60_000;

/// A trace u that an empty schedule explains.
const EMPTY: &str = "open u 1 100 x";

/// A load in t of what nobody stores.
pub(crate) const NEVER_STORED: &str =
    "open t 3 200000 x y; claim t 0; claim t 1; claim t 2; do t 2 lw x 2";

const STORES: &str = "do t 0 sw x 1; do t 1 sw y 1";

/// So often both stores are reported. So there are more situations than a worker looks for at once.
const TIMES: usize = 50;

/// Makes both reports so often.
pub(crate) fn report_stores<B: BookNaming, R: Wait + Abort>(
    rt: &R,
    alloc: Global,
    shared: &SharedBook<B>,
    pass: &mut Pass<B>,
    times: usize,
) {
    for _ in 0..times {
        play_shared(rt, alloc, shared, pass, STORES);
    }
}

/// Reports to t, and asks about u and t, while a worker is held who comes to search the set of t.
fn call_while_searching<B: BookNaming, R: Wait + Abort>(
    rt: &R,
    alloc: Global,
    shared: &SharedBook<B>,
    pass: &mut Pass<B>,
    barrier: &Barrier,
) {
    assert!(rt; barrier.holds(1));
    play_shared(rt, alloc, shared, pass, STORES);
    play_shared(
        rt,
        alloc,
        shared,
        pass,
        "ask u => consistent; ask t => inconsistent",
    );
    assert!(rt; barrier.left() == 0);
    barrier.open();
}

fn hold<B: BookNaming + Send + Sync, R: Threads + Wait + Abort + Sync>(
    rt: &R,
    alloc: Global,
    token: BookToken,
) -> Book
    requires table { token.table.shared.table_id ≡ B.table }
    requires made { (token.made.name ≡ B.made) × (token.made.parts ≡ B.seats) }
    requires totals { (token.totals.taken.name ≡ B.taken) × (token.totals.delivered.name ≡ B.delivered) × (token.totals.taken.parts ≡ B.parts) }
{
    let barrier = Barrier::new();
    let shared = SharedBook::<B>::new(alloc, token);
    let mut pass = entered(rt, &shared);
    play_shared(rt, alloc, &shared, &mut pass, EMPTY);
    play_shared(rt, alloc, &shared, &mut pass, NEVER_STORED);
    report_stores(rt, alloc, &shared, &mut pass, TIMES);
    let (_, tallies) = thread::join(
        rt,
        || {
            call_while_searching(rt, alloc, &shared, &mut pass, &barrier);
            shared.stop_workers();
        },
        || run_workers::<B, SharedBook<B>, Barrier, R>(rt, alloc, &shared, &barrier, WORKERS),
    );
    let tallies = tallies.expect(rt, "threads and memory");
    audited(rt, alloc, shared, pass, tallies, WORKERS as u32 + 1)
}

#[test]
fn calls_while_a_worker_is_held(rt: HostRuntime) -> Result<(), Fail> {
    let book = hold::<Brand, _>(&rt, rt.alloc(), BookToken::new(rt.alloc())?);
    assert_held(&rt, &book, (TIMES + 2) * (TIMES + 2));
    drop(book);
    Ok(())
}

/// Whether workers find all there is in the end. That is no call, so the callers rest.
fn is_worked_off<B: BookNaming, R: Wait>(rt: &R, shared: &SharedBook<B>) -> bool {
    let never = AtomicU64::new(0);
    for _ in 0..MOST_MILLIS {
        if !shared.has_new(rt) {
            return true;
        }
        never.park_timeout(rt, 0, Duration::from_millis(1));
    }
    false
}

/// Reports the stores and rests; reports them once more, when workers have nothing to do, and rests. Then it asks about t.
fn rest_and_ask<B: BookNaming, R: Wait + Abort>(
    rt: &R,
    alloc: Global,
    shared: &SharedBook<B>,
    pass: &mut Pass<B>,
) {
    for times in [TIMES, 1] {
        report_stores(rt, alloc, shared, pass, times);
        assert!(rt; is_worked_off(rt, shared));
    }
    play_shared(rt, alloc, shared, pass, "ask t => inconsistent");
}

/// Workers begin once the book is opened, or once the stores were reported and this question about them was searched.
fn rest<B: BookNaming + Send + Sync, R: Threads + Wait + Abort + Sync>(
    rt: &R,
    alloc: Global,
    token: BookToken,
    question: Option<&str>,
) -> Book
    requires table { token.table.shared.table_id ≡ B.table }
    requires made { (token.made.name ≡ B.made) × (token.made.parts ≡ B.seats) }
    requires totals { (token.totals.taken.name ≡ B.taken) × (token.totals.delivered.name ≡ B.delivered) × (token.totals.taken.parts ≡ B.parts) }
{
    let shared = SharedBook::<B>::new(alloc, token);
    let mut pass = entered(rt, &shared);
    play_shared(rt, alloc, &shared, &mut pass, NEVER_STORED);
    if let Some(question) = question {
        report_stores(rt, alloc, &shared, &mut pass, TIMES);
        play_shared(rt, alloc, &shared, &mut pass, question);
    }
    let (_, tallies) = thread::join(
        rt,
        || {
            rest_and_ask(rt, alloc, &shared, &mut pass);
            shared.stop_workers();
        },
        || run_workers::<B, SharedBook<B>, FreeGate, R>(rt, alloc, &shared, &FreeGate, WORKERS),
    );
    let tallies = tallies.expect(rt, "threads and memory");
    audited(rt, alloc, shared, pass, tallies, WORKERS as u32 + 1)
}

/// So many situations were found, and none under the lock.
pub(crate) fn assert_found_beside(rt: &impl Abort, book: &Book, count: usize) {
    assert!(rt; book.steps() == 0);
    assert_held(rt, book, count);
}

#[test]
fn a_rest_spares_the_question(rt: HostRuntime) -> Result<(), Fail> {
    let book = rest::<Brand, _>(&rt, rt.alloc(), BookToken::new(rt.alloc())?, None);
    assert_found_beside(&rt, &book, (TIMES + 2) * (TIMES + 2));
    drop(book);
    Ok(())
}

/// A question that was searched beside the lock is over.
#[test]
fn workers_rest_for_no_question_that_is_over(rt: HostRuntime) -> Result<(), Fail> {
    let question = Some("ask t => inconsistent");
    let book = rest::<Brand, _>(&rt, rt.alloc(), BookToken::new(rt.alloc())?, question);
    assert_found_beside(&rt, &book, (2 * TIMES + 2) * (2 * TIMES + 2));
    drop(book);
    Ok(())
}

#[test]
fn workers_rest_for_no_refutation_that_is_over(rt: HostRuntime) -> Result<(), Fail> {
    let question = Some("why t => because 2601");
    let book = rest::<Brand, _>(&rt, rt.alloc(), BookToken::new(rt.alloc())?, question);
    assert_found_beside(&rt, &book, (2 * TIMES + 2) * (2 * TIMES + 2));
    drop(book);
    Ok(())
}
