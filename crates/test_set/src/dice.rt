//! Traces of numbers that look random.
use crate::forms::is_right_at_the_end;
use crate::subject::{Subject, cells};
use crate::traces::{read, swap, write};
use scm_sequences::Op;
use std::alloc::Global;
use std::process::Abort;

/// Numbers that look random, the same in every run.
#[derive(Drop)]
pub(crate) struct Dice {
    state: u64,
}

impl Dice {
    pub(crate) fn new(state: u64) -> Dice {
        Dice { state }
    }

    pub(crate) fn below(&mut self, n: u8) -> u8 {
        self.state = self
            .state
            .wrapping_mul(6_364_136_223_846_793_005)
            .wrapping_add(1_442_695_040_888_963_407);
        let high = (self.state >> 56) as u8;
        if n == 0 { 0 } else { high % n }
    }

    fn value(&mut self) -> u64 {
        match self.below(4) {
            3 => u64::MAX,
            small => u64::from(small),
        }
    }

    pub(crate) fn operation(&mut self) -> Op {
        let cell = self.below(3);
        match self.below(3) {
            0 => read(cell, self.value()),
            1 => write(cell, self.value()),
            _ => swap(cell, self.value(), self.value()),
        }
    }
}

/// Reports an operation, and asks about it now and then.
fn report_next(rt: &impl Abort, alloc: Global, subject: &mut Subject, dice: &mut Dice) {
    assert!(rt; subject.sequences().procs() == 3);
    subject.report(rt, usize::from(dice.below(3)), dice.operation());
    if dice.below(3) == 0 {
        assert!(rt; is_right_at_the_end(rt, alloc, subject));
    }
}

/// Reports nine operations, and asks at the end.
fn report_all_next(rt: &impl Abort, alloc: Global, subject: &mut Subject, dice: &mut Dice) {
    for _ in 0..9 {
        report_next(rt, alloc, subject, dice);
    }
    assert!(rt; is_right_at_the_end(rt, alloc, subject));
}

#[test]
fn generated_traces_are_judged_as_by_a_plain_list(rt: HostRuntime) {
    let mut dice = Dice::new(1);
    for _ in 0..150 {
        let mut subject = Subject::new(&rt, rt.alloc(), &cells(&rt, rt.alloc(), 3), 3);
        report_all_next(&rt, rt.alloc(), &mut subject, &mut dice);
        drop(subject);
    }
}
