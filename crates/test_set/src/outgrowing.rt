//! Traces that outgrow the fields of their words, and words that are full to the last bit.

use crate::forms::{Form, first_lengths, is_right, is_right_at_the_end, narrowest};
use crate::growing::add_ballast;
use crate::subject::{Subject, cells};
use crate::traces::{read, swap, write};
use scm_sequences::MOST_PROCESSES;
use std::alloc::Global;
use std::process::Abort;

/// The last process reads on and on what nobody writes, and then ever more values. Where its count or a cell's numbers outgrow
/// their field, the words that are there are packed anew, the first time with other numbers for what a cell holds, since what
/// was read first comes after what others wrote since; 64 bits do all the while.
#[test]
fn answers_stay_as_fields_grow(rt: HostRuntime) {
    read_on(&rt, rt.alloc());
}

fn read_on(rt: &impl Abort, alloc: Global) {
    let mut subject = Subject::new(rt, alloc, &cells(rt, alloc, 24), 16);
    subject.report(rt, 15, read(2, 9));
    assert!(rt; is_right_at_the_end(rt, alloc, &mut subject));
    subject.report_all(rt, "0Wx5 1Ux5>6 0Ro7 1Ux5>6 0Wy6 1Ux5>6");
    for i in 0..20 {
        read_once(rt, alloc, &mut subject, i);
    }
    drop(subject);
}

/// Read `i` of these.
fn read_once(rt: &impl Abort, alloc: Global, subject: &mut Subject, i: u8) {
    assert!(rt; subject.sequences().procs() == 16);
    subject.report(
        rt,
        15,
        if i < 10 {
            read(2, 9)
        } else {
            read(23, u64::from(i))
        },
    );
    assert!(rt; is_right_at_the_end(rt, alloc, subject));
    assert!(rt; narrowest(rt, alloc, subject) == Form::Short);
}

/// How a trace goes on: one process can't begin, and the last one stores so many values in turn, with a question after so many
/// stores.
#[derive(Clone, Copy)]
struct Course {
    procs: usize,
    cells: u8,
    values: u64,
    at_once: u8,
}

/// A trace of this course.
fn begun(rt: &impl Abort, alloc: Global, course: Course) -> Subject {
    let procs = course.procs;
    assert!(rt; 2 <= procs && procs <= MOST_PROCESSES && 0 < course.values && 0 < course.at_once);
    let mut subject = Subject::new(rt, alloc, &cells(rt, alloc, course.cells), procs);
    subject.report(rt, 0, read(2, 9));
    subject
}

/// Store `i` of this course.
fn store(rt: &impl Abort, subject: &mut Subject, course: Course, i: u8) {
    assert!(rt; 0 < course.procs && 0 < course.values);
    subject.report(rt, course.procs - 1, write(1, u64::from(i) % course.values));
}

/// Questions are right while counts and values outgrow their fields.
fn store_on(rt: &impl Abort, alloc: Global, course: Course) {
    let mut subject = begun(rt, alloc, course);
    for i in 0..40u8 {
        store(rt, &mut subject, course, i);
        if course.at_once > 0 && i % course.at_once == 0 {
            assert!(rt; is_right_at_the_end(rt, alloc, &mut subject));
        }
    }
    drop(subject);
}

#[test]
fn words_are_packed_anew_as_they_need_room(rt: HostRuntime) {
    for (procs, n) in [(16, 24), (32, 64)] {
        for (values, at_once) in [(1, 1), (40, 1), (40, 5)] {
            let course = Course {
                procs,
                cells: n,
                values,
                at_once,
            };
            store_on(&rt, rt.alloc(), course);
        }
    }
}

/// Swap `k`, by one of the processes but the first.
fn swap_in_turn(rt: &impl Abort, alloc: Global, subject: &mut Subject, k: u8) {
    let procs = subject.sequences().procs();
    assert!(rt; 2 <= procs);
    let value = u64::from(k);
    subject.report(
        rt,
        1 + usize::from(k) % (procs - 1),
        swap(1, value, value + 1),
    );
    if k % 10 == 0 {
        assert!(rt; is_right_at_the_end(rt, alloc, subject));
    }
}

fn swap_in_turns(rt: &impl Abort, alloc: Global, subject: &mut Subject, [from, to]: [Form; 2]) {
    subject.report(rt, 0, read(2, 9));
    assert!(rt; is_right_at_the_end(rt, alloc, subject));
    assert!(rt; narrowest(rt, alloc, subject) == from);
    for k in 0..120u8 {
        swap_in_turn(rt, alloc, subject, k);
    }
    assert!(rt; narrowest(rt, alloc, subject) == to);
}

/// One process can't begin, and the others change one cell by turns: a situation each, until words have no room for another
/// one, and the search goes on in longer ones.
fn take_turns(rt: &impl Abort, alloc: Global, procs: usize, n: u8, forms: [Form; 2]) {
    assert!(rt; 2 <= procs && procs <= MOST_PROCESSES);
    let mut subject = Subject::new(rt, alloc, &cells(rt, alloc, n), procs);
    swap_in_turns(rt, alloc, &mut subject, forms);
    drop(subject);
}

#[test]
fn a_search_goes_on_in_longer_words(rt: HostRuntime) {
    take_turns(&rt, rt.alloc(), 16, 24, [Form::Short, Form::Long]);
    take_turns(&rt, rt.alloc(), 32, 64, [Form::Long, Form::Wide]);
}

/// The first two processes write and read one value, and then that again so many times.
fn add_pair(rt: &impl Abort, subject: &mut Subject, times: u8) {
    subject.report(rt, 0, write(1, u64::MAX));
    for _ in 0..times {
        subject.report(rt, 1, read(1, u64::MAX));
    }
}

/// So many cells, so much ballast in 30 processes, so many reads, and the form: words that are filled to the last bit, and
/// one bit more.
const FILLED: [(u8, u8, u8, Form); 6] = [
    (32, 1, 1, Form::Short),
    (33, 1, 1, Form::Long),
    (32, 1, 2, Form::Long),
    (60, 2, 4, Form::Long),
    (60, 2, 8, Form::Wide),
    (60, 64, 32, Form::Wide),
];

/// The words of a trace with so much ballast and so many reads have this form, and its questions are right.
fn fill(rt: &impl Abort, alloc: Global, subject: &mut Subject, times: u8, more: u8, wanted: Form) {
    add_ballast(rt, subject, times);
    add_pair(rt, subject, more);
    assert!(rt; narrowest(rt, alloc, subject) == wanted);
    assert!(rt; is_right_at_the_end(rt, alloc, subject));
}

/// So is one about its first two processes alone.
fn is_right_of_two(rt: &impl Abort, alloc: Global, subject: &mut Subject, more: u8) -> bool {
    let lengths = first_lengths(rt, alloc, MOST_PROCESSES, [1, u32::from(more)]);
    is_right(rt, alloc, subject, &lengths)
}

fn is_filled(rt: &impl Abort, alloc: Global, (n, times, more, wanted): (u8, u8, u8, Form)) -> bool {
    let mut subject = Subject::new(rt, alloc, &cells(rt, alloc, n), MOST_PROCESSES);
    fill(rt, alloc, &mut subject, times, more, wanted);
    let is_right = is_right_of_two(rt, alloc, &mut subject, more);
    drop(subject);
    is_right
}

#[test]
fn words_are_full_to_the_last_bit(rt: HostRuntime) {
    for row in FILLED {
        assert!(rt; is_filled(&rt, rt.alloc(), row));
    }
}
