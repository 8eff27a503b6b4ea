//! Sets whose form grows, by operations that lead to no situation more, and what is asked before and afterwards.

use crate::forms::{Form, first_lengths, is_right, narrowest};
use crate::reach::counted;
use crate::subject::{Subject, cells};
use crate::traces::read;
use scm_sequences::{MOST_PROCESSES, Op};
use std::alloc::Global;
use std::process::Abort;

/// All processes but the first two read what nobody writes, and then a value of their own of one cell after the other, up to
/// so many operations: no situation more, but a longer word.
pub(crate) fn add_ballast(rt: &impl Abort, subject: &mut Subject, times: u8) {
    for p in 2..subject.sequences().procs() {
        add_reads(rt, subject, p, times);
    }
}

fn add_reads(rt: &impl Abort, subject: &mut Subject, p: usize, times: u8) {
    let before = subject.sequences().count(p);
    for i in 0..times {
        if usize::from(i) >= before {
            subject.report(rt, p, read_of(subject, p, i));
        }
    }
}

/// Operation `i` of process `p` among these.
fn read_of(subject: &Subject, p: usize, i: u8) -> Op {
    if i > 0 && usize::from(i) < subject.reach().initials().len() {
        read(i, u64::MAX - p as u64)
    } else {
        read(2, 9)
    }
}

/// A trace of so many processes and cells, and the forms that it grows to with so much ballast.
#[derive(Clone, Copy)]
struct Growth {
    procs: usize,
    cells: u8,
    from: Form,
    to: [(u8, Form); 2],
}

const SMALL: Growth = Growth {
    procs: 16,
    cells: 30,
    from: Form::Short,
    to: [(4, Form::Long), (16, Form::Wide)],
};

const LARGE: Growth = Growth {
    procs: 32,
    cells: 64,
    from: Form::Long,
    to: [(16, Form::Wide), (64, Form::Wide)],
};

/// A trace whose form grows.
#[derive(Drop)]
struct Growing {
    subject: Subject,
    alloc: Global,
}

impl Growing {
    fn new(rt: &impl Abort, alloc: Global, growth: Growth) -> Growing {
        assert!(rt; 2 <= growth.procs && growth.procs <= MOST_PROCESSES);
        let subject = Subject::new(rt, alloc, &cells(rt, alloc, growth.cells), growth.procs);
        assert!(rt; narrowest(rt, alloc, &subject) == growth.from);
        Growing { subject, alloc }
    }

    fn report(&mut self, rt: &impl Abort, text: &str) {
        self.subject.report_all(rt, text);
    }

    /// A question about these lengths of the first two processes says what the plain list says.
    fn ask(&mut self, rt: &impl Abort, first: [u32; 2]) {
        let lengths = first_lengths(rt, self.alloc, self.subject.sequences().procs(), first);
        assert!(rt; is_right(rt, self.alloc, &mut self.subject, &lengths));
    }

    fn go_back(&mut self, rt: &impl Abort, first: [u32; 2]) {
        let lengths = first_lengths(rt, self.alloc, self.subject.sequences().procs(), first);
        self.subject.go_back(rt, &lengths);
    }

    /// Lets the form grow to this one, by values that no situation holds.
    fn grow(&mut self, rt: &impl Abort, (times, to): (u8, Form)) {
        add_ballast(rt, &mut self.subject, times);
        assert!(rt; narrowest(rt, self.alloc, &self.subject) == to);
    }
}

/// The first process writes two cells, the second reads them.
const BEGIN: &str = "0Ro-1 0Wx5 1Ux0>6 1Wo-1";

/// A store that was seen and one that never is.
const GO_ON: &str = "0Wy-1 1Ry-1 1Rx5 0Rx77";

/// Answers stay as the form grows.
fn grow(rt: &impl Abort, alloc: Global, growth: Growth) {
    let mut trace = Growing::new(rt, alloc, growth);
    trace.report(rt, BEGIN);
    trace.ask(rt, [2, 2]);
    trace.grow(rt, growth.to[0]);
    trace.ask(rt, [2, 2]);
    trace.report(rt, GO_ON);
    trace.ask(rt, [3, 4]);
    trace.grow(rt, growth.to[1]);
    trace.ask(rt, [2, 2]);
    trace.ask(rt, [4, 4]);
}

#[test]
fn answers_stay_as_the_form_grows(rt: HostRuntime) {
    for growth in [SMALL, LARGE] {
        grow(&rt, rt.alloc(), growth);
    }
}

/// And on the way back.
fn grow_and_go_back(rt: &impl Abort, alloc: Global, growth: Growth) {
    let mut trace = Growing::new(rt, alloc, growth);
    trace.report(rt, BEGIN);
    trace.ask(rt, [2, 1]);
    trace.grow(rt, growth.to[0]);
    trace.report(rt, GO_ON);
    trace.ask(rt, [4, 4]);
    trace.go_back(rt, [2, 1]);
    trace.ask(rt, [2, 1]);
    trace.grow(rt, growth.to[1]);
    trace.report(rt, GO_ON);
    trace.ask(rt, [4, 3]);
    trace.go_back(rt, [1, 0]);
    trace.ask(rt, [1, 0]);
    trace.report(rt, GO_ON);
    trace.ask(rt, [3, 2]);
    drop(trace);
}

#[test]
fn answers_stay_on_the_way_back(rt: HostRuntime) {
    for growth in [SMALL, LARGE] {
        grow_and_go_back(&rt, rt.alloc(), growth);
    }
}

/// Eight situations have four different contents in all forms.
fn keep_contents_once(rt: &impl Abort, alloc: Global, growth: Growth) {
    let mut trace = Growing::new(rt, alloc, growth);
    trace.report(rt, "0Wx1 0Ry0 1Wy1 1Rx0");
    trace.ask(rt, [2, 2]);
    for to in growth.to {
        assert!(rt; counted(trace.subject.reach()) == [8, 4]);
        trace.grow(rt, to);
    }
    assert!(rt; counted(trace.subject.reach()) == [8, 4]);
    trace.go_back(rt, [0, 0]);
    let left = counted(trace.subject.reach());
    drop(trace);
    assert!(rt; left == [1, 1]);
}

#[test]
fn contents_are_kept_once_in_all_forms(rt: HostRuntime) {
    for growth in [SMALL, LARGE] {
        keep_contents_once(&rt, rt.alloc(), growth);
    }
}
