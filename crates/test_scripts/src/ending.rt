//! The end of a script while workers expand, whose outcomes come after it, or search a set, which comes back.

use crate::beside::is_agreed;
use crate::large::{MANY, SEARCHED, held, large_trace, situations};
use scm_expand::Gate;
use scm_sessions::{Ended, Findings, Port, RunFault, run_with_workers};
use scm_shared::BookToken;
use std::alloc::Global;
use std::io::Read;
use std::marker::Brand;
use std::process::Abort;
use std::sync::Wait;
use std::sync::atomic::{AtomicBool, AtomicU64, Ordering};
use std::test::Fail;
use std::thread::Threads;
use std::{io, thread};
use test_fixtures::Barrier;

/// Store buffering, and a report behind the question, which leaves tasks for workers.
const SCRIPT: &str = "a open t 2 100 x:w=0 y:w=0\n\
    a claim t 0\n\
    a claim t 1\n\
    a do t 0 sw x 1\n\
    a do t 0 lw y 0\n\
    a do t 1 sw y 1\n\
    a do t 1 lw x 0\n\
    a ask t\n\
    a do t 0 sw x 2\n";

/// The replies to `SCRIPT`.
const REPLIES: &str = "a ok\na ok\na ok\na ok\na ok\na ok\na ok\na inconsistent\na ok\n";

/// Gives a script, and its end once so many workers are held.
#[derive(Drop)]
struct HeldReader<'a> {
    script: &'a [u8],
    barrier: &'a Barrier,
    least: u64,
}

impl Read for HeldReader<'_> {
    fn read(&mut self, buf: &mut [u8]) -> io::Result<usize> {
        let given = self.script.read(buf)?;
        if given == 0 {
            let _ = self.barrier.holds(self.least);
            self.barrier.open();
        }
        Ok(given)
    }
}

/// How the script ended beside so many workers, one of which is held until it has, and what was written.
fn run_held<T: Threads + Wait + Sync>(
    rt: &T,
    alloc: Global,
    barrier: &Barrier,
    workers: usize,
) -> Result<(Result<Ended, RunFault>, Vec<u8>), Fail> {
    let token = BookToken::new(alloc)?;
    let mut reader = Port::new(HeldReader {
        script: SCRIPT.as_bytes(),
        barrier,
        least: workers.min(1) as u64,
    });
    let mut writer = Port::new(Vec::new(alloc));
    let ended = run_with_workers::<Brand, _, _, Barrier, T>(
        rt,
        alloc,
        token,
        &mut reader,
        &mut writer,
        &mut Findings::new(),
        barrier,
        workers,
    );
    Ok((ended, writer.into_inner()))
}

/// Each task that a worker had in hand was delivered, and all tallies are there.
fn assert_ended(rt: &impl Abort, ended: &Ended, barrier: &Barrier, workers: usize) {
    let came = barrier.came();
    let delivered = ended.audit.book.results().delivered();
    assert!(rt;
        came >= workers.min(1) as u64 && delivered == came,
        "{delivered} of {came}"
    );
    assert!(rt; is_agreed(&ended.audit, workers));
}

#[test]
fn outcomes_that_come_after_the_end_are_delivered(rt: HostRuntime) -> Result<(), Fail> {
    for workers in 0..5 {
        let barrier = Barrier::new();
        let (ended, written) = run_held(&rt, rt.alloc(), &barrier, workers)?;
        assert!(rt; written.as_slice() == REPLIES.as_bytes());
        assert_ended(&rt, &ended?, &barrier, workers);
    }
    Ok(())
}

/// So many waits for a worker are tried, each twice as long as the last.
const MOST_TRIES: u32 = 20;

/// For so many turns of other threads a worker is waited for. One that came just before all was reported may not come again.
const MOST_TURNS: u64 = 1_000_000;

/// Counts the workers that come once all is reported: for the set, since the trace is large then.
#[derive(Drop)]
struct Arrivals {
    is_reported: AtomicBool,
    came: AtomicU64,
}

impl Arrivals {
    fn new() -> Arrivals {
        Arrivals {
            is_reported: AtomicBool::new(false),
            came: AtomicU64::new(0),
        }
    }

    fn has_come(&self) -> bool {
        self.came.load(Ordering::SeqCst) != 0
    }

    /// Waits for one, now that all is reported.
    fn wait(&self) {
        self.is_reported.store(true, Ordering::SeqCst);
        for _ in 0..MOST_TURNS {
            if self.has_come() {
                return;
            }
            thread::yield_now();
        }
    }
}

impl Gate for Arrivals {
    fn before_expand(&self, _worker: usize) {
        if self.is_reported.load(Ordering::SeqCst) {
            self.came.fetch_add(1, Ordering::SeqCst);
        }
    }
}

/// Gives a script, and so many turns of other threads after a worker came for the set its last line, if any, and its end.
#[derive(Drop)]
struct LateReader<'a> {
    script: &'a [u8],
    arrivals: &'a Arrivals,
    turns: u64,
    last: &'a [u8],
}

impl Read for LateReader<'_> {
    fn read(&mut self, buf: &mut [u8]) -> io::Result<usize> {
        let given = self.script.read(buf)?;
        if given != 0 {
            return Ok(given);
        }
        self.arrivals.wait();
        for _ in 0..self.turns {
            thread::yield_now();
        }
        self.turns = 0;
        self.last.read(buf)
    }
}

/// What is there once a script has ended beside a worker.
#[derive(Drop)]
struct Late {
    /// How many situations of t are held.
    held: usize,
    written: Vec<u8>,
    /// Whether the worker came for the set.
    has_come: bool,
}

/// Runs a script, and its last line so many turns of other threads after a worker came for the set.
fn run_late<T: Threads + Wait + Abort + Sync>(
    rt: &T,
    alloc: Global,
    script: &str,
    turns: u64,
    last: &str,
) -> Result<Late, Fail> {
    let token = BookToken::new(alloc)?;
    let arrivals = Arrivals::new();
    let mut reader = Port::new(LateReader {
        script: script.as_bytes(),
        arrivals: &arrivals,
        turns,
        last: last.as_bytes(),
    });
    let mut writer = Port::new(Vec::new(alloc));
    let ended = run_with_workers::<Brand, _, _, Arrivals, T>(
        rt,
        alloc,
        token,
        &mut reader,
        &mut writer,
        &mut Findings::new(),
        &arrivals,
        1,
    );
    let audit = ended?.audit;
    assert!(rt; is_agreed(&audit, 1));
    Ok(Late {
        held: held(rt, &audit.book, b"t"),
        written: writer.into_inner(),
        has_come: arrivals.has_come(),
    })
}

/// A worker that has begun to search is told to end: what it found is there.
#[test]
fn a_set_that_is_lent_at_the_end_comes_back(rt: HostRuntime) -> Result<(), Fail> {
    let script = large_trace(rt.alloc(), "a", "t", MANY)?;
    for tries in 0..MOST_TRIES {
        let late = run_late(&rt, rt.alloc(), script.as_str(), 1 << tries, "")?;
        if SEARCHED < late.held && late.held < situations(MANY) {
            return Ok(());
        }
    }
    Err("no set came back in the midst of a search".into())
}

/// The last line asks, while a worker has the set as far as turns of threads can tell: it waits, and is answered.
#[test]
fn a_question_that_waits_at_the_end_is_answered(rt: HostRuntime) -> Result<(), Fail> {
    let script = large_trace(rt.alloc(), "a", "t", MANY)?;
    let mut has_come = false;
    for turns in [10, 100, 1_000, 10] {
        let late = run_late(&rt, rt.alloc(), script.as_str(), turns, "a ask t\n")?;
        let is_answered = late.written.as_slice().ends_with(b"a inconsistent\n");
        assert!(rt; is_answered && late.held == situations(MANY));
        has_come |= late.has_come;
    }
    assert!(rt; has_come);
    Ok(())
}
