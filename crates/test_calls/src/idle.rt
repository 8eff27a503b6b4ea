//! That workers with nothing to do wait, and hear of what changes while they look.
ghost use Rattle.std.specs.Prelude.{◌≡◌};

use scm_expand::{Bell, FreeGate, Outcome, Task, TaskSource, run_workers};
use scm_results::{Naming, Tally, Token, Totals};
use scm_sequences::NoMemory;
use std::alloc::Global;
use std::marker::Brand;
use std::process::Abort;
use std::sync::atomic::{AtomicU64, Ordering};
use std::sync::{Mutex, Wait};
use std::test::Fail;
use std::thread;
use std::thread::Threads;
use test_fixtures::MOST_TURNS;

/// A source that has no tasks, and counts how often workers look for some and wait. While they look for the first few times it
/// changes.
#[derive(Drop)]
struct Empty<B: Naming> {
    alloc: Global,
    totals: Mutex<Totals<B>>,
    bell: Bell,
    changes: u64,
    takings: AtomicU64,
    waits: AtomicU64,
}

impl<B: Naming> TaskSource<B> for Empty<B> {
    fn tally<R: Wait>(&self, rt: &R) -> Option<Tally<B>> {
        self.totals.lock(rt).tally()
    }

    fn has_new<R: Wait>(&self, _rt: &R) -> bool {
        false
    }

    fn take<R: Wait>(
        &self,
        _rt: &R,
        _n: usize,
        _tally: &mut Tally<B>,
    ) -> Result<Vec<Task>, NoMemory> {
        if self.takings.fetch_add(1, Ordering::SeqCst) < self.changes {
            self.bell.ring();
        }
        Ok(Vec::new(self.alloc))
    }

    fn deliver<R: Wait>(&self, _rt: &R, _outcomes: Vec<Outcome>, _tally: &mut Tally<B>) {}

    fn closing(&self) -> bool {
        self.bell.closing()
    }

    fn wait<R: Wait>(&self, rt: &R, seen: u64) -> u64 {
        self.waits.fetch_add(1, Ordering::SeqCst);
        self.bell.wait(rt, seen)
    }
}

/// Lets time pass, in which others may run.
fn linger(count: &AtomicU64) {
    for _ in 0..100 {
        thread::yield_now();
        for _ in 0..10_000 {
            let _ = count.load(Ordering::SeqCst);
        }
    }
}

/// Closes the source once its worker has nothing to do, and had time to look again and again.
fn close_late<B: Naming>(source: &Empty<B>) {
    let least = source.changes.saturating_add(2);
    for _ in 0..MOST_TURNS {
        if source.waits.load(Ordering::SeqCst) >= least
            || source.takings.load(Ordering::SeqCst) >= least
        {
            break;
        }
        thread::yield_now();
    }
    linger(&source.waits);
    source.bell.close();
}

/// How often a worker looked for tasks, and how often it waited, beside so many changes.
fn idle<B: Naming + Send + Sync, R: Threads + Wait + Abort + Sync>(
    rt: &R,
    alloc: Global,
    token: Token,
    changes: u64,
) -> (u64, u64)
    requires taken { token.taken.name ≡ B.taken }
    requires delivered { token.delivered.name ≡ B.delivered }
    requires parts { token.taken.parts ≡ B.parts }
{
    let source = Empty::<B> {
        alloc,
        totals: Mutex::new(Totals::new(token)),
        bell: Bell::new(),
        changes,
        takings: AtomicU64::new(0),
        waits: AtomicU64::new(0),
    };
    let (_, tallies) = thread::join(
        rt,
        || close_late(&source),
        || run_workers::<B, Empty<B>, FreeGate, R>(rt, alloc, &source, &FreeGate, 1),
    );
    assert!(rt; tallies.is_ok());
    (source.takings.into_inner(), source.waits.into_inner())
}

#[test]
fn an_idle_worker_waits(rt: HostRuntime) -> Result<(), Fail> {
    let (takings, waits) = idle::<Brand, _>(&rt, rt.alloc(), Token::new(), 0);
    assert!(rt; takings == 1);
    assert!(rt; waits < 100);
    Ok(())
}

#[test]
fn a_change_while_a_worker_looks_is_heard(rt: HostRuntime) -> Result<(), Fail> {
    let (takings, waits) = idle::<Brand, _>(&rt, rt.alloc(), Token::new(), 1);
    assert!(rt; takings == 2 && waits < 100);
    Ok(())
}
