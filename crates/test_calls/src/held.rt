//! That what workers sent is delivered, though they were told to end before.
ghost use Rattle.std.specs.Prelude.{◌≡◌};

use crate::shared_workers::{assert_answer, audited, buffered};
use scm_book::Book;
use scm_expand::{FreeGate, Gate, Outcome, Task, TaskSource, Work, run_workers};
use scm_results::Tally;
use scm_sequences::NoMemory;
use scm_shared::{BookNaming, BookToken, SharedBook};
use std::alloc::Global;
use std::marker::Brand;
use std::process::Abort;
use std::sync::Wait;
use std::sync::atomic::{AtomicBool, AtomicU64, Ordering};
use std::test::Fail;
use std::thread;
use std::thread::Threads;
use test_fixtures::{is_set, rises_to};

/// A shared book whose collector is held in each delivery until it is let go.
#[derive(Drop)]
struct Held<'a, B: BookNaming> {
    shared: &'a SharedBook<B>,
    deliveries: AtomicU64,
    waits: AtomicU64,
    is_open: AtomicBool,
}

impl<'a, B: BookNaming> Held<'a, B> {
    fn new(shared: &'a SharedBook<B>) -> Held<'a, B> {
        Held {
            shared,
            deliveries: AtomicU64::new(0),
            waits: AtomicU64::new(0),
            is_open: AtomicBool::new(false),
        }
    }

    /// Tells the crew to end while the collector is held with one outcome. Its only worker waits for the second time, so it has
    /// sent all others. How many deliveries had begun then.
    fn end_meanwhile(&self) -> u64 {
        let are_sent = rises_to(&self.deliveries, 1) && rises_to(&self.waits, 2);
        self.shared.stop_workers();
        let deliveries = self.deliveries.load(Ordering::SeqCst);
        self.is_open.store(true, Ordering::SeqCst);
        if are_sent { deliveries } else { 0 }
    }
}

impl<B: BookNaming> TaskSource<B> for Held<'_, B> {
    fn tally<R: Wait>(&self, rt: &R) -> Option<Tally<B>> {
        self.shared.tally(rt)
    }

    fn has_new<R: Wait>(&self, rt: &R) -> bool {
        self.shared.has_new(rt)
    }

    fn take<R: Wait>(&self, rt: &R, n: usize, tally: &mut Tally<B>) -> Result<Vec<Task>, NoMemory> {
        self.shared.take(rt, n, tally)
    }

    fn work<R: Wait, G: Gate>(
        &self,
        rt: &R,
        gate: &G,
        worker: usize,
        is_idle: bool,
        tally: &mut Tally<B>,
    ) -> Work {
        self.shared.work(rt, gate, worker, is_idle, tally)
    }

    fn deliver<R: Wait>(&self, rt: &R, outcomes: Vec<Outcome>, tally: &mut Tally<B>) {
        self.deliveries.fetch_add(1, Ordering::SeqCst);
        let _ = is_set(&self.is_open);
        self.shared.deliver(rt, outcomes, tally);
    }

    fn closing(&self) -> bool {
        self.shared.closing()
    }

    fn wait<R: Wait>(&self, rt: &R, seen: u64) -> u64 {
        self.waits.fetch_add(1, Ordering::SeqCst);
        self.shared.wait(rt, seen)
    }
}

/// The tallies of a collector and of one worker, who was told to end with an outcome in the channel.
fn work_held<B: BookNaming + Send + Sync, R: Threads + Wait + Abort + Sync>(
    rt: &R,
    alloc: Global,
    shared: &SharedBook<B>,
) -> Vec<Tally<B>> {
    let held = Held::new(shared);
    let (deliveries, tallies) = thread::join(
        rt,
        || held.end_meanwhile(),
        || run_workers::<B, Held<B>, FreeGate, R>(rt, alloc, &held, &FreeGate, 1),
    );
    assert!(rt; deliveries == 1);
    tallies.expect(rt, "threads and memory")
}

/// The book after a worker took the two tasks of store buffering, and was told to end.
fn end_early<B: BookNaming + Send + Sync, R: Threads + Wait + Abort + Sync>(
    rt: &R,
    alloc: Global,
    token: BookToken,
) -> Book
    requires table { token.table.shared.table_id ≡ B.table }
    requires made { (token.made.name ≡ B.made) × (token.made.parts ≡ B.seats) }
    requires totals { (token.totals.taken.name ≡ B.taken) × (token.totals.delivered.name ≡ B.delivered) × (token.totals.taken.parts ≡ B.parts) }
{
    let shared = SharedBook::<B>::new(alloc, token);
    let pass = buffered(rt, alloc, &shared);
    let tallies = work_held(rt, alloc, &shared);
    audited(rt, alloc, shared, pass, tallies, 2)
}

#[test]
fn outcomes_in_the_channel_are_delivered_at_the_end(rt: HostRuntime) -> Result<(), Fail> {
    let mut book = end_early::<Brand, _>(&rt, rt.alloc(), BookToken::new(rt.alloc())?);
    let results = book.results();
    assert!(rt; results.taken == 2 && results.accepted == 2 && results.delivered() == 2);
    assert_answer(&rt, rt.alloc(), &mut book, "inconsistent");
    drop(book);
    Ok(())
}
