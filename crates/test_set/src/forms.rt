//! The forms in which a set holds situations: words of 64 and 128 bits, and in full. Whether its answers are those of a plain list.

use crate::layouts::layout_of;
use crate::plain_list::{PlainList, agree};
use crate::subject::Subject;
use scm_frontier::Word;
use scm_reach::Settled;
use scm_schedules::refutation;
use scm_sequences::{Lengths, MOST_PROCESSES};
use std::alloc::Global;
use std::process::Abort;

/// The narrowest form that has room for a trace.
#[derive(Clone, Copy, PartialEq, Eq, Debug)]
pub(crate) enum Form {
    Short,
    Long,
    Wide,
}

/// Whether a word has room for a trace.
fn has_room<W: Word>(rt: &impl Abort, alloc: Global, subject: &Subject) -> bool {
    layout_of::<W>(rt, alloc, subject.reach().initials(), subject.sequences()).is_some()
}

pub(crate) fn narrowest(rt: &impl Abort, alloc: Global, subject: &Subject) -> Form {
    if has_room::<u64>(rt, alloc, subject) {
        return Form::Short;
    }
    if has_room::<u128>(rt, alloc, subject) {
        return Form::Long;
    }
    Form::Wide
}

/// These lengths of the first two processes, and 0 of the others.
pub(crate) fn first_lengths(
    rt: &impl Abort,
    alloc: Global,
    procs: usize,
    first: [u32; 2],
) -> Lengths {
    assert!(rt; 2 <= procs && procs <= MOST_PROCESSES);
    let mut counts = [0; MOST_PROCESSES];
    counts[..2].copy_from_slice(&first);
    Lengths::new(alloc, &counts[..procs])
}

/// Whether a question says what the plain list says, with the same refutation.
pub(crate) fn is_right(
    rt: &impl Abort,
    alloc: Global,
    subject: &mut Subject,
    lengths: &Lengths,
) -> bool {
    let settled = subject.ask(rt, lengths);
    let reach = subject.reach();
    let list = PlainList::of(rt, alloc, reach.initials(), subject.sequences(), lengths);
    agree(rt, &list, subject.sequences(), lengths, settled, reach)
        && (settled != Settled::Closed
            || refutation(alloc, reach, lengths).expect(rt, "memory") == list.sorted(rt, alloc))
}

/// Whether that is so of the whole trace.
pub(crate) fn is_right_at_the_end(rt: &impl Abort, alloc: Global, subject: &mut Subject) -> bool {
    let lengths = subject.sequences().lengths();
    is_right(rt, alloc, subject, &lengths)
}
