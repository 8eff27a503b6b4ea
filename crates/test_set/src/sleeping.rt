//! What comes of a question, and of steps that sleep: a question counts each step that it makes, and one that sleeps isn't made.

use crate::subject::Subject;
use crate::traces::parts_of;
use scm_reach::Settled;
use std::alloc::Global;
use std::process::Abort;

/// Traces, limits, and what comes of a question under each of them in turn: by how many steps, and how many situations the set
/// holds then.
///
/// - Each of two processes stores three values to a cell of its own, and then loads what nobody stored. An operation comes next
///   32 times in the 16 situations; of these, 9 are stores that sleep after a store to the other cell. The step that found no
///   room is made again, and no other.
/// - Of three processes, each stores two values: an operation comes next 81 times in the 27 situations, and 34 sleep, 6 of them
///   loads.
/// - After the other operation the one is the second way to the last of four situations, and sleeps where it repeats it. A load
///   after a store may have been illegal before it, and stores of two values lead to two situations.
const QUESTIONS: &str = "
    0Wx1 0Wx2 0Wx3 0Ry9 1Wy1 1Wy2 1Wy3 1Rx9: 100 => closed 23 16
    0Wx1 0Wx2 0Wx3 0Ry9 1Wy1 1Wy2 1Wy3 1Rx9: 5 100 => spent 7 5, closed 17 16
    0Wx1 0Wx2 0Ry9 1Wy1 1Wy2 1Rz9 2Wz1 2Wz2 2Rx9: 100 => closed 47 27
    0Rx0 0Ry9 1Rx0: 100 => closed 4 4
    0Wx1 0Ry9 1Wx1: 100 => closed 4 4
    0Wx0 0Ry9 1Rx0: 100 => closed 4 4
    0Rx0 0Ry9 1Wx0: 100 => closed 5 4
    0Wx1 0Ry9 1Wx2: 100 => closed 6 5
    0Rx1 1Wx1: 100 => whole 3 3
    0Wx1: 1 => spent 1 1
    0Wx1 0Ry0 1Wy1 1Rx0: 7 8 => spent 10 7, closed 2 8
";

fn number(rt: &impl Abort, word: Option<&str>) -> u64 {
    let number = word.expect(rt, "a number").parse::<u64>();
    number.expect(rt, "a number")
}

fn is_named(settled: Settled, name: Option<&str>) -> bool {
    match settled {
        Settled::Whole(_) => name == Some("whole"),
        Settled::Closed => name == Some("closed"),
        Settled::Spent => name == Some("spent"),
    }
}

/// Asks about the whole trace under a limit.
fn ask(rt: &impl Abort, subject: &mut Subject, limit: &str, wanted: &str) {
    let mut words = wanted.split_whitespace();
    let lengths = subject.sequences().lengths();
    let limit = number(rt, Some(limit)) as usize;
    let (settled, steps) = subject.ask_under(rt, &lengths, limit);
    let held = subject.reach().held() as u64;
    assert!(rt; is_named(settled, words.next()), "{wanted}");
    assert!(rt;
        steps == number(rt, words.next()),
        "{wanted}: {steps} steps"
    );
    assert!(rt; held == number(rt, words.next()), "{wanted}: {held} held");
}

fn ask_in_turn(rt: &impl Abort, alloc: Global, row: &str) {
    let (trace, limits, wanted) = parts_of(rt, row);
    let procs = if trace.contains('2') { 3 } else { 2 };
    let mut subject = Subject::of(rt, alloc, procs, trace);
    for (limit, wanted) in limits.split(' ').zip(wanted.split(", ")) {
        ask(rt, &mut subject, limit, wanted);
    }
    drop(subject);
}

#[test]
fn steps_sleep_and_are_counted(rt: HostRuntime) {
    for row in QUESTIONS.trim().lines() {
        ask_in_turn(&rt, rt.alloc(), row);
    }
}
