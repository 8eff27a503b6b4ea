//! Storms: eight callers of one trace, who hinder each other, and pause together now and then, and four workers.
ghost use Rattle.std.specs.Prelude.{◌≡◌};

use crate::each;
use crate::large::{held, large_trace, situations};
use crate::replays::replays;
use crate::session::{Session, are_entries_of};
use crate::storm_lines::{CALLERS, Caller, TURNS};
use scm_book::{Call, Reply};
use scm_expand::{Gate, run_workers};
use scm_sessions::read_line;
use scm_shared::{Audit, BookNaming, BookToken, SharedBook};
use std::alloc::{AllocError, Global};
use std::marker::Brand;
use std::process::Abort;
use std::sync::Wait;
use std::sync::atomic::{AtomicU64, Ordering};
use std::test::Fail;
use std::thread::Threads;
use std::time::{Clock, Duration, Instant};
use std::{io, thread};
use test_fixtures::rises_to;

const WORKERS: usize = 4;

/// So many storms come in a row.
const STORMS: u64 = 10;

/// None begins after so many seconds, of which one takes a tenth, but a build without proofs is slow.
const MOST_SECONDS: u64 = 15;

/// What the first session asks before a storm. It leaves few situations, so the crew takes tasks.
const CALM: &str = "p0 open u 2 100 x:w=0\n\
    p0 claim u 0\n\
    p0 claim u 1\n\
    p0 do u 0 sw x 1\n\
    p0 do u 1 sw x 2\n";

/// So often both stores of a trace are reported that nobody asks about: too often for tasks, so its set is lent in a pause.
const TIMES: usize = 20;

/// How often a held worker looks whether it may go on.
const MOST_LOOKS: u64 = 1_000;

/// After so many turns all callers pause.
const TURNS_TO_A_PAUSE: u64 = 20;

/// For so many milliseconds they do, so that workers work.
const PAUSE_MILLIS: u64 = 8;

/// Holds a worker each third time that one comes until three more calls were answered, and has the callers pause together.
#[derive(Drop)]
struct Gusts {
    came: AtomicU64,
    answered: AtomicU64,
    paused: AtomicU64,
}

impl Gusts {
    fn new() -> Gusts {
        Gusts {
            came: AtomicU64::new(0),
            answered: AtomicU64::new(0),
            paused: AtomicU64::new(0),
        }
    }

    /// Waits until all callers have come to this pause, and pauses.
    fn pause<R: Wait>(&self, rt: &R, number: u64) {
        self.paused.fetch_add(1, Ordering::SeqCst);
        let all = number.saturating_mul(u64::from(CALLERS));
        let _ = rises_to(&self.paused, all);
        AtomicU64::new(0).park_timeout(rt, 0, Duration::from_millis(PAUSE_MILLIS));
    }
}

impl Gate for Gusts {
    fn before_expand(&self, _worker: usize) {
        if self.came.fetch_add(1, Ordering::SeqCst) % 3 != 2 {
            return;
        }
        let answered = self.answered.load(Ordering::SeqCst);
        for _ in 0..MOST_LOOKS {
            if self.answered.load(Ordering::SeqCst).wrapping_sub(answered) >= 3 {
                return;
            }
            thread::yield_now();
        }
    }
}

/// Makes the calls of these lines.
fn call_all<B: BookNaming, R: Wait + Abort>(
    rt: &R,
    alloc: Global,
    shared: &SharedBook<B>,
    gusts: &Gusts,
    session: &mut Session<B>,
    lines: &str,
) {
    for line in lines.lines() {
        let (_, call) = read_line(alloc, line.as_bytes()).expect(rt, "a call");
        let called = session.call(rt, shared, call);
        gusts.answered.fetch_add(1, Ordering::SeqCst);
        assert!(rt; called.is_ok());
    }
}

/// Makes the calls of the calm, and waits until a worker has come to expand a task: so the crew is awake when the storm begins.
/// Then it reports the large trace.
fn wake_crew<B: BookNaming, R: Wait + Abort>(
    rt: &R,
    alloc: Global,
    shared: &SharedBook<B>,
    gusts: &Gusts,
    sessions: &mut [Session<B>],
) {
    let first = sessions.first_mut().expect(rt, "a session");
    call_all(rt, alloc, shared, gusts, first, CALM);
    assert!(rt; rises_to(&gusts.came, 1));
    let large = large_trace(alloc, "p0", "v", TIMES).expect(rt, "memory");
    call_all(rt, alloc, shared, gusts, first, large.as_str());
}

/// Makes all turns of one caller, and gives its session back.
fn call_on<B: BookNaming, R: Wait + Abort>(
    rt: &R,
    alloc: Global,
    shared: &SharedBook<B>,
    gusts: &Gusts,
    mut session: Session<B>,
) -> Session<B> {
    let mut caller = Caller::new(session.pass.number());
    for turn in 1..=TURNS {
        if turn % TURNS_TO_A_PAUSE == 0 {
            gusts.pause(rt, turn / TURNS_TO_A_PAUSE);
        }
        let lines = caller.turn(alloc).expect(rt, "memory");
        call_all(rt, alloc, shared, gusts, &mut session, lines.as_str());
    }
    session
}

/// Sessions for all callers.
fn sessions<B: BookNaming, R: Wait>(
    rt: &R,
    alloc: Global,
    shared: &SharedBook<B>,
) -> Result<Vec<Session<B>>, Fail> {
    let mut sessions = Vec::new(alloc);
    for _ in 0..CALLERS {
        let pass = shared.enter(rt).ok().ok_or("a pass")?;
        sessions.push(Session::new(alloc, pass))?;
    }
    Ok(sessions)
}

/// Wakes the crew, makes the turns of all callers, each in a thread of its own, and tells the crew to end.
fn call_and_stop<B: BookNaming + Send + Sync, R: Threads + Wait + Abort + Sync>(
    rt: &R,
    alloc: Global,
    shared: &SharedBook<B>,
    gusts: &Gusts,
    mut sessions: Vec<Session<B>>,
) -> Result<Vec<Session<B>>, AllocError> {
    wake_crew(rt, alloc, shared, gusts, sessions.as_mut_slice());
    let sessions = thread::map_vec(
        rt,
        sessions,
        &|session| { call_on(rt, alloc, shared, gusts, session) },
    );
    shared.stop_workers();
    sessions
}

/// What is left of a storm after all callers and workers have ended.
#[derive(Drop)]
struct Ended {
    audit: Audit,
    /// What each caller asked, and was answered.
    calls: Vec<Vec<(Call, Reply)>>,
    /// How many calls were answered.
    answered: u64,
    /// How often workers came to the gate.
    came: u64,
}

fn storm<B: BookNaming + Send + Sync, R: Threads + Wait + Abort + Sync>(
    rt: &R,
    alloc: Global,
    token: BookToken,
) -> Result<Ended, Fail>
    requires table { token.table.shared.table_id ≡ B.table }
    requires made { (token.made.name ≡ B.made) × (token.made.parts ≡ B.seats) }
    requires totals { (token.totals.taken.name ≡ B.taken) × (token.totals.delivered.name ≡ B.delivered) × (token.totals.taken.parts ≡ B.parts) }
{
    let gusts = Gusts::new();
    let shared = SharedBook::<B>::new(alloc, token);
    let sessions = sessions(rt, alloc, &shared)?;
    let (sessions, tallies) = thread::join(
        rt,
        || call_and_stop(rt, alloc, &shared, &gusts, sessions),
        || run_workers::<B, SharedBook<B>, Gusts, R>(rt, alloc, &shared, &gusts, WORKERS),
    );
    let (mut passes, mut calls) = (Vec::new(alloc), Vec::new(alloc));
    for session in sessions? {
        assert!(rt; session.pass.made() == session.calls.len() as u64);
        passes.push(session.pass)?;
        calls.push(session.calls)?;
    }
    Ok(Ended {
        audit: shared.audit(passes, tallies?),
        calls,
        answered: gusts.answered.into_inner(),
        came: gusts.came.into_inner(),
    })
}

/// Stops the test where the audit isn't what it must be after so many calls.
fn check_audit(rt: &impl Abort, alloc: Global, audit: &Audit, calls: usize) -> Result<(), Fail> {
    assert!(rt; audit.entered == CALLERS);
    assert!(rt; audit.agreed);
    assert!(rt; audit.totals_agreed);
    assert!(rt; audit.tallies as usize == WORKERS + 1);
    let entries = audit.book.entries();
    assert!(rt; entries.len() == calls);
    assert!(rt; replays(alloc, entries)?);
    Ok(())
}

/// Whether another storm may begin.
fn has_time(rt: &impl Clock, began: &Instant) -> io::Result<bool> {
    Ok(began.elapsed(rt)? < Duration::from_secs(MOST_SECONDS))
}

#[test]
fn storm_passes(rt: HostRuntime) -> Result<(), Fail> {
    let alloc = rt.alloc();
    let began = Instant::now(&rt)?;
    let (mut delivered, mut came, mut is_lent) = (0u64, 0u64, false);
    for _ in 0..STORMS {
        let ended = storm::<Brand, _>(&rt, alloc, BookToken::new(alloc)?)?;
        delivered = delivered.saturating_add(ended.audit.book.results().delivered());
        came = came.saturating_add(ended.came);
        is_lent |= held(&rt, &ended.audit.book, b"v") == situations(TIMES);
        let checked = check_audit(&rt, alloc, &ended.audit, ended.answered as usize);
        let journal = ended.audit.book.entries();
        for (session, calls) in ended.calls.iter().enumerate() {
            assert!(rt; are_entries_of(session, calls, journal));
        }
        drop(ended);
        checked?;
        if !has_time(&rt, &began)? {
            break;
        }
    }
    // Each outcome came of one time at the gate, and each set of one more.
    assert!(rt; 0 < delivered && delivered < came && is_lent);
    Ok(())
}

/// The lines of all callers, turn by turn.
fn script(alloc: Global) -> Result<String, Fail> {
    let mut callers = Vec::new(alloc);
    for number in 0..CALLERS {
        callers.push(Caller::new(number))?;
    }
    let mut script = String::new(alloc);
    for _ in 0..TURNS {
        for caller in &mut callers {
            script.push_str(caller.turn(alloc)?.as_str())?;
        }
    }
    Ok(script)
}

/// The name that a reply begins with.
fn speaker(line: &str) -> &str {
    line.split_once(' ').map_or("", |(name, _)| name)
}

/// How many replies were written, where those of each caller stand together, and the callers in the order of their numbers.
fn in_order(written: &[u8]) -> Option<usize> {
    let replies = std::str::from_utf8(written).ok()?;
    if !replies.lines().map(speaker).is_sorted() {
        return None;
    }
    Some(replies.lines().count())
}

/// A storm by a script with a thread for each session.
fn storm_in_groups<T: Threads + Wait + Abort + Sync>(
    rt: &T,
    alloc: Global,
    script: &str,
) -> Result<(), Fail> {
    let (ended, written) = each::run_in_groups(rt, alloc, script.as_bytes(), WORKERS)?;
    let calls = script.lines().count();
    assert!(rt; in_order(written.as_slice()) == Some(calls));
    check_audit(rt, alloc, &ended?.audit, calls)
}

#[test]
fn storm_each(rt: HostRuntime) -> Result<(), Fail> {
    let script = script(rt.alloc())?;
    let began = Instant::now(&rt)?;
    for _ in 0..STORMS {
        storm_in_groups(&rt, rt.alloc(), script.as_str())?;
        if !has_time(&rt, &began)? {
            break;
        }
    }
    Ok(())
}
