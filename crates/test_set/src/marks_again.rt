//! Questions about a mark that are asked again.

use crate::dice::Dice;
use crate::forms::{is_right, is_right_at_the_end};
use crate::subject::{Subject, cells};
use scm_reach::Settled;
use scm_sequences::Lengths;
use std::alloc::Global;
use std::process::Abort;

/// More situations than these traces have, but for the generated ones.
const MOST: usize = 100;

/// Each process writes one cell and then reads that the other still holds 0, which can't be; then the first writes again.
const STORE_BUFFERING: &str = "0Wx1 0Ry0 1Wy1 1Rx0 0Wx2";

fn assert_closed_now(rt: &impl Abort, alloc: Global, subject: &mut Subject) {
    let lengths = subject.sequences().lengths();
    assert!(rt; is_right(rt, alloc, subject, &lengths));
    assert!(rt; subject.ask(rt, &lengths) == Settled::Closed);
}

/// The question about these first operations is right, and comes to this again in no step.
fn assert_again(
    rt: &impl Abort,
    alloc: Global,
    subject: &mut Subject,
    lengths: &Lengths,
    wanted: Settled,
) {
    assert!(rt; is_right(rt, alloc, subject, lengths));
    assert!(rt; subject.ask_under(rt, lengths, MOST) == (wanted, 0));
}

/// Each process has two first operations without a schedule, as the question says in no step.
fn assert_refused(rt: &impl Abort, alloc: Global, subject: &mut Subject) {
    let lengths = Lengths::new(alloc, &[2, 2]);
    assert_again(rt, alloc, subject, &lengths, Settled::Closed);
}

/// These first operations have a schedule, as the question says twice.
fn assert_whole(rt: &impl Abort, alloc: Global, subject: &mut Subject, first: [u32; 2]) {
    let lengths = Lengths::new(alloc, &first);
    let Settled::Whole(id) = subject.ask(rt, &lengths) else {
        panic!(rt; "no schedule");
    };
    assert_again(rt, alloc, subject, &lengths, Settled::Whole(id));
}

/// Store buffering, which is refused, at its mark too.
fn refused(rt: &impl Abort, alloc: Global) -> Subject {
    let mut subject = Subject::of(rt, alloc, 2, STORE_BUFFERING);
    assert_closed_now(rt, alloc, &mut subject);
    assert_refused(rt, alloc, &mut subject);
    subject
}

#[test]
fn a_mark_is_refused_again_in_no_step(rt: HostRuntime) {
    let mut subject = refused(&rt, rt.alloc());
    subject.report_all(&rt, "1Wy2 0Ry2");
    assert_refused(&rt, rt.alloc(), &mut subject);
    assert_closed_now(&rt, rt.alloc(), &mut subject);
    assert_refused(&rt, rt.alloc(), &mut subject);
    drop(subject);
}

#[test]
fn a_mark_with_a_schedule_is_no_other_one(rt: HostRuntime) {
    let mut subject = refused(&rt, rt.alloc());
    assert_whole(&rt, rt.alloc(), &mut subject, [1, 2]);
    assert_whole(&rt, rt.alloc(), &mut subject, [1, 1]);
    assert_refused(&rt, rt.alloc(), &mut subject);
    assert_whole(&rt, rt.alloc(), &mut subject, [1, 2]);
    drop(subject);
}

fn go_back(rt: &impl Abort, alloc: Global, subject: &mut Subject, first: [u32; 2], text: &str) {
    subject.go_back(rt, &Lengths::new(alloc, &first));
    subject.report_all(rt, text);
}

/// The first process reads after a return what the other wrote.
#[test]
fn a_mark_is_looked_at_anew_after_a_return(rt: HostRuntime) {
    let mut subject = refused(&rt, rt.alloc());
    go_back(&rt, rt.alloc(), &mut subject, [1, 2], "0Ry1 0Ry9");
    assert_closed_now(&rt, rt.alloc(), &mut subject);
    assert_whole(&rt, rt.alloc(), &mut subject, [2, 2]);
    go_back(&rt, rt.alloc(), &mut subject, [1, 1], "0Ry0 1Rx0 0Ry9");
    assert_refused(&rt, rt.alloc(), &mut subject);
    drop(subject);
}

/// At most three of the first operations of each process.
fn mark_of(rt: &impl Abort, alloc: Global, subject: &Subject, dice: &mut Dice) -> Lengths {
    let lengths = subject.sequences().lengths();
    assert!(rt; lengths.procs() == 3);
    let mut counts = [0; 3];
    for p in 0..3 {
        counts[p] = lengths.get(p).min(u32::from(dice.below(4)));
    }
    Lengths::new(alloc, &counts)
}

/// Asks about a mark and about all, and about both again.
fn ask_twice(rt: &impl Abort, alloc: Global, subject: &mut Subject, mark: &Lengths) {
    for _ in 0..2 {
        assert!(rt; is_right(rt, alloc, subject, mark));
        assert!(rt; is_right(rt, alloc, subject, mark));
        assert!(rt; is_right_at_the_end(rt, alloc, subject));
    }
}

/// Reports operations and asks about a mark among them, then goes back to another one.
fn go_on(rt: &impl Abort, alloc: Global, subject: &mut Subject, dice: &mut Dice) {
    for _ in 0..4 {
        subject.report(rt, usize::from(dice.below(3)), dice.operation());
    }
    let mark = mark_of(rt, alloc, subject, dice);
    ask_twice(rt, alloc, subject, &mark);
    subject.report(rt, usize::from(dice.below(3)), dice.operation());
    ask_twice(rt, alloc, subject, &mark);
    let back = mark_of(rt, alloc, subject, dice);
    subject.go_back(rt, &back);
}

#[test]
fn generated_marks_are_judged_as_by_a_plain_list(rt: HostRuntime) {
    let mut dice = Dice::new(1);
    for _ in 0..40 {
        let mut subject = Subject::new(&rt, rt.alloc(), &cells(&rt, rt.alloc(), 3), 3);
        for _ in 0..3 {
            go_on(&rt, rt.alloc(), &mut subject, &mut dice);
        }
        drop(subject);
    }
}
