//! What one does who comes to a shared book for work, and when. Here it is the caller, so nobody waits for a thread.
ghost use Rattle.std.specs.Prelude.{◌≡◌};

use crate::resting::{NEVER_STORED, assert_found_beside, report_stores};
use crate::shared::entered;
use crate::shared_workers::{audited, play_shared};
use scm_book::Book;
use scm_expand::{FreeGate, Gate, TASKS_AT_ONCE, TaskSource, Work};
use scm_results::Tally;
use scm_shared::{BookNaming, BookToken, SharedBook};
use std::alloc::Global;
use std::io;
use std::marker::Brand;
use std::process::Abort;
use std::sync::Wait;
use std::sync::atomic::{AtomicBool, AtomicU64, Ordering};
use std::test::Fail;
use std::time::{Clock, Duration, Instant};

/// So often both stores are reported. So there are many situations.
const TIMES: usize = 50;

/// Comes for work, and finds that a set is lent for it.
fn work_once<B: BookNaming, G: Gate, R: Wait + Abort>(
    rt: &R,
    shared: &SharedBook<B>,
    gate: &G,
    tally: &mut Tally<B>,
) {
    let work = shared.work(rt, gate, 0, true, tally);
    let is_lent = matches!(work, Work::Lent);
    drop(work);
    assert!(rt; is_lent);
}

/// The stores are reported, and searched by `why` or `ask`; then they are reported once more, which is work.
fn work_after<B: BookNaming, R: Wait + Abort>(
    rt: &R,
    alloc: Global,
    token: BookToken,
    asks_why: bool,
) -> Book
    requires table { token.table.shared.table_id ≡ B.table }
    requires made { (token.made.name ≡ B.made) × (token.made.parts ≡ B.seats) }
    requires totals { (token.totals.taken.name ≡ B.taken) × (token.totals.delivered.name ≡ B.delivered) × (token.totals.taken.parts ≡ B.parts) }
{
    let shared = SharedBook::<B>::new(alloc, token);
    let mut pass = entered(rt, &shared);
    play_shared(rt, alloc, &shared, &mut pass, NEVER_STORED);
    report_stores(rt, alloc, &shared, &mut pass, TIMES);
    let question = if asks_why {
        "why t => because 2601"
    } else {
        "ask t => inconsistent"
    };
    play_shared(rt, alloc, &shared, &mut pass, question);
    report_stores(rt, alloc, &shared, &mut pass, 1);
    let mut tally = shared.tally(rt).expect(rt, "a tally");
    work_once(rt, &shared, &FreeGate, &mut tally);
    let tallies = vec![in alloc; tally].expect(rt, "memory");
    audited(rt, alloc, shared, pass, tallies, 1)
}

/// A set that was lent for a question is lent for work once its trace has grown.
#[test]
fn a_question_leaves_work(rt: HostRuntime) -> Result<(), Fail> {
    for asks_why in [false, true] {
        let token = BookToken::new(rt.alloc())?;
        let book = work_after::<Brand, _>(&rt, rt.alloc(), token, asks_why);
        assert_found_beside(&rt, &book, (TIMES + 2) * (TIMES + 2));
        drop(book);
    }
    Ok(())
}

/// How many changes there were before a call that is done, after it, and after a question.
fn changes<B: BookNaming, R: Wait + Abort>(rt: &R, alloc: Global, token: BookToken) -> [u64; 3]
    requires table { token.table.shared.table_id ≡ B.table }
    requires made { (token.made.name ≡ B.made) × (token.made.parts ≡ B.seats) }
    requires totals { (token.totals.taken.name ≡ B.taken) × (token.totals.delivered.name ≡ B.delivered) × (token.totals.taken.parts ≡ B.parts) }
{
    let shared = SharedBook::<B>::new(alloc, token);
    let mut pass = entered(rt, &shared);
    let before = shared.wait(rt, 0);
    play_shared(rt, alloc, &shared, &mut pass, "open u 1 100 x");
    let done = shared.wait(rt, 0);
    play_shared(rt, alloc, &shared, &mut pass, "ask u => consistent");
    [before, done, shared.wait(rt, 0)]
}

/// A call that changes something, and a question, wake who has nothing to do.
#[test]
fn calls_wake(rt: HostRuntime) -> Result<(), Fail> {
    let [before, done, asked] = changes::<Brand, _>(&rt, rt.alloc(), BookToken::new(rt.alloc())?);
    assert!(rt; before < done && done < asked);
    Ok(())
}

/// Counts who comes, and remembers whether there were new tasks then: they are those of the start alone where the set is lent,
/// and none where it was searched.
#[derive(Drop)]
struct Lookout<'a, B: BookNaming, R: Wait> {
    rt: &'a R,
    shared: &'a SharedBook<B>,
    came: AtomicU64,
    had_new: AtomicBool,
}

impl<B: BookNaming, R: Wait> Gate for Lookout<'_, B, R> {
    fn before_expand(&self, _worker: usize) {
        self.came.fetch_add(1, Ordering::SeqCst);
        let has_new = self.shared.has_new(self.rt);
        self.had_new.store(has_new, Ordering::SeqCst);
    }
}

/// How often one passed the gate who came for work, and whether there were new tasks then, where all or none had been taken.
fn pass_gate<B: BookNaming, R: Wait + Abort>(
    rt: &R,
    alloc: Global,
    token: BookToken,
    are_taken: bool,
) -> (u64, bool)
    requires table { token.table.shared.table_id ≡ B.table }
    requires made { (token.made.name ≡ B.made) × (token.made.parts ≡ B.seats) }
    requires totals { (token.totals.taken.name ≡ B.taken) × (token.totals.delivered.name ≡ B.delivered) × (token.totals.taken.parts ≡ B.parts) }
{
    let shared = SharedBook::<B>::new(alloc, token);
    let mut pass = entered(rt, &shared);
    play_shared(rt, alloc, &shared, &mut pass, NEVER_STORED);
    report_stores(rt, alloc, &shared, &mut pass, TIMES);
    let mut tally = shared.tally(rt).expect(rt, "a tally");
    if are_taken {
        let taken = shared.take(rt, TASKS_AT_ONCE, &mut tally);
        assert!(rt; taken.is_ok());
    }
    let gate = Lookout {
        rt,
        shared: &shared,
        came: AtomicU64::new(0),
        had_new: AtomicBool::new(false),
    };
    work_once(rt, &shared, &gate, &mut tally);
    (
        gate.came.load(Ordering::SeqCst),
        gate.had_new.load(Ordering::SeqCst),
    )
}

/// The gate is passed before a set is lent for work.
#[test]
fn the_gate_comes_before_the_set(rt: HostRuntime) -> Result<(), Fail> {
    for are_taken in [false, true] {
        let token = BookToken::new(rt.alloc())?;
        let (came, had_new) = pass_gate::<Brand, _>(&rt, rt.alloc(), token, are_taken);
        assert!(rt; came == 1 && had_new != are_taken);
    }
    Ok(())
}

/// Whether there is nothing for one who comes a second time, where there are many situations, which the order of the reports
/// explains.
fn comes_for_nothing<B: BookNaming, R: Wait + Abort>(
    rt: &R,
    alloc: Global,
    token: BookToken,
) -> bool
    requires table { token.table.shared.table_id ≡ B.table }
    requires made { (token.made.name ≡ B.made) × (token.made.parts ≡ B.seats) }
    requires totals { (token.totals.taken.name ≡ B.taken) × (token.totals.delivered.name ≡ B.delivered) × (token.totals.taken.parts ≡ B.parts) }
{
    let shared = SharedBook::<B>::new(alloc, token);
    let mut pass = entered(rt, &shared);
    play_shared(
        rt,
        alloc,
        &shared,
        &mut pass,
        "open t 2 200000 x y; claim t 0; claim t 1",
    );
    report_stores(rt, alloc, &shared, &mut pass, TIMES);
    let mut tally = shared.tally(rt).expect(rt, "a tally");
    work_once(rt, &shared, &FreeGate, &mut tally);
    let work = shared.work(rt, &FreeGate, 0, true, &mut tally);
    let is_nothing = matches!(work, Work::Nothing);
    drop(work);
    is_nothing
}

/// The tasks of a set that is lent for work are for nobody else.
#[test]
fn a_large_set_has_no_tasks(rt: HostRuntime) -> Result<(), Fail> {
    assert!(rt; comes_for_nothing::<Brand, _>(&rt, rt.alloc(), BookToken::new(rt.alloc())?));
    Ok(())
}

/// So many rests are tried, of which a busy machine may make one long.
const RESTS: usize = 3;

/// Whether one who comes for work after a call looks for it within a second.
fn looks_soon<B: BookNaming, R: Wait + Abort + Clock>(
    rt: &R,
    alloc: Global,
    token: BookToken,
) -> io::Result<bool>
    requires table { token.table.shared.table_id ≡ B.table }
    requires made { (token.made.name ≡ B.made) × (token.made.parts ≡ B.seats) }
    requires totals { (token.totals.taken.name ≡ B.taken) × (token.totals.delivered.name ≡ B.delivered) × (token.totals.taken.parts ≡ B.parts) }
{
    let shared = SharedBook::<B>::new(alloc, token);
    let mut pass = entered(rt, &shared);
    let mut tally = shared.tally(rt).expect(rt, "a tally");
    play_shared(rt, alloc, &shared, &mut pass, "open u 1 100 x");
    for _ in 0..RESTS {
        play_shared(rt, alloc, &shared, &mut pass, "ask u => consistent");
        let began = Instant::now(rt)?;
        let work = shared.work(rt, &FreeGate, 0, true, &mut tally);
        drop(work);
        if began.elapsed(rt)? < Duration::from_secs(1) {
            return Ok(true);
        }
    }
    Ok(false)
}

/// Who waits until callers rest doesn't sleep for seconds.
#[test]
fn a_rest_is_short(rt: HostRuntime) -> Result<(), Fail> {
    assert!(rt; looks_soon::<Brand, _>(&rt, rt.alloc(), BookToken::new(rt.alloc())?)?);
    Ok(())
}
