//! Steps on words, in the layouts of whole traces: that calls succeed, and that fields are filled to the last bit.
ghost use Rattle.std.specs.Prelude.{◌≡◌, ◌≤◌};

use crate::layouts::{layout_of, some_layout_of};
use scm_frontier::{Layout, NoRoom, Situation, Steps, Word};
use scm_sequences::{MOST_CELLS, MOST_PROCESSES, Op, Sequences};
use std::alloc::Global;
use std::process::Abort;

/// Process `p` writes 0, 1, 2, 3 to four cells in turn, so many times in all.
fn write_in_turn(rt: &impl Abort, sequences: &mut Sequences, p: usize, times: u8) {
    for i in 0..times {
        let write = Op::W {
            cell: i % 4,
            value: u64::from(i) / 4 % 4,
        };
        push(rt, sequences, p, write);
    }
}

fn push(rt: &impl Abort, sequences: &mut Sequences, p: usize, op: Op) {
    sequences.push(p, op).expect(rt, "room for an operation");
}

/// As many processes that do so.
fn writers(rt: &impl Abort, alloc: Global, procs: usize, times: u8) -> Sequences {
    assert!(rt; 0 < procs && procs <= MOST_PROCESSES);
    let mut sequences = Sequences::new(alloc, procs).expect(rt, "memory");
    for p in 0..procs {
        write_in_turn(rt, &mut sequences, p, times);
    }
    sequences
}

/// The word of the situation before any operation.
fn start<W: Word>(rt: &impl Abort, alloc: Global, layout: &Layout, initials: &[Option<u64>]) -> W
    requires { layout.now.bits ≤ W.BITS }
{
    assert!(rt; initials.len() <= MOST_CELLS);
    let start = Situation::start(alloc, initials, layout.procs()).expect(rt, "memory");
    layout.pack(&start).expect(rt, "the start fits")
}

/// The word after one more operation.
fn after<W: Word>(
    rt: &impl Abort,
    layout: &Layout,
    word: W,
    p: usize,
    op: Op,
) -> Result<Option<W>, NoRoom>
    requires { layout.now.bits ≤ W.BITS }
{
    assert!(rt; p < layout.procs() && op.cell() < layout.cells());
    layout.step(word, p, op, 0, &mut Steps::new())
}

/// The same, where there is room for it and it is legal.
fn after_legal<W: Word>(rt: &impl Abort, layout: &Layout, word: W, p: usize, op: Op) -> W
    requires { layout.now.bits ≤ W.BITS }
{
    let Ok(Some(next)) = after(rt, layout, word, p, op) else {
        panic!(rt; "no room, or no legal operation");
    };
    next
}

/// Whether all operations can be made one process after the other, and the word then stands at their end.
fn is_walked<W: Word>(rt: &impl Abort, layout: &Layout, start: W, sequences: &Sequences) -> bool
    requires { layout.now.bits ≤ W.BITS }
{
    let mut word = start;
    for p in 0..sequences.procs() {
        for i in 0..sequences.count(p) {
            let op = sequences.next(p, i).expect(rt, "an operation");
            word = after_legal(rt, layout, word, p, op);
        }
    }
    let end = sequences.lengths();
    let (is_at_end, is_within) = (layout.stands_at(word, &end), layout.lies_within(word, &end));
    is_at_end && is_within
}

const ZEROS: [Option<u64>; 4] = [Some(0), Some(0), Some(0), Some(0)];

/// The operations of so many processes, so many of each, can be made on words of the layout for their trace.
fn assert_walked<W: Word>(rt: &impl Abort, alloc: Global, procs: usize, times: u8) {
    let sequences = writers(rt, alloc, procs, times);
    let full = some_layout_of::<W>(rt, alloc, &ZEROS, &sequences);
    let start: W = start(rt, alloc, &full, &ZEROS);
    assert!(rt; is_walked(rt, &full, start, &sequences));
}

/// A count has 7 bits and a cell 2, of which 64 bits have just room, and 128 just for twice as many processes.
#[test]
fn steps_go_on_in_full_words(rt: HostRuntime) {
    assert_walked::<u64>(&rt, rt.alloc(), 8, 100);
    assert_walked::<u128>(&rt, rt.alloc(), 17, 100);
}

#[test]
fn one_value_more_wants_a_longer_word(rt: HostRuntime) {
    let mut sequences = writers(&rt, rt.alloc(), 8, 100);
    push(&rt, &mut sequences, 0, Op::R { cell: 0, value: 4 });
    assert!(rt; layout_of::<u64>(&rt, rt.alloc(), &ZEROS, &sequences).is_none());
    assert!(rt; layout_of::<u128>(&rt, rt.alloc(), &ZEROS, &sequences).is_some());
}

/// One process reads a value that nobody writes of a cell that holds 0, another the greatest value of an open cell.
const READS: [Op; 2] = [
    Op::R { cell: 0, value: 9 },
    Op::R {
        cell: 1,
        value: u64::MAX,
    },
];

const ONE_OPEN: [Option<u64>; 2] = [Some(0), None];

fn layout_of_reads(rt: &impl Abort, alloc: Global) -> Layout
    ensures { result.bits ≡ 64 }
{
    let mut sequences = Sequences::new(alloc, 2).expect(rt, "memory");
    push(rt, &mut sequences, 0, READS[0]);
    push(rt, &mut sequences, 1, READS[1]);
    some_layout_of::<u64>(rt, alloc, &ONE_OPEN, &sequences)
}

#[test]
fn values_that_are_only_read_have_numbers(rt: HostRuntime) {
    let small = layout_of_reads(&rt, rt.alloc());
    let word: u64 = start(&rt, rt.alloc(), &small, &ONE_OPEN);
    assert!(rt; matches!(after(&rt, &small, word, 0, READS[0]), Ok(None)));
    assert!(rt; after(&rt, &small, word, 0, Op::W { cell: 0, value: 7 }).is_err());
    let next = after_legal(&rt, &small, word, 1, READS[1]);
    assert!(rt; small.cells() == 2);
    assert!(rt; [small.held(next, 0), small.held(next, 1)] == [Some(0), Some(u64::MAX)]);
}

#[test]
fn a_full_count_has_no_room_for_one_more(rt: HostRuntime) {
    let full = some_layout_of::<u64>(&rt, rt.alloc(), &ZEROS, &writers(&rt, rt.alloc(), 8, 127));
    let mut word: u64 = start(&rt, rt.alloc(), &full, &ZEROS);
    let write = Op::W { cell: 3, value: 3 };
    for _ in 0..127 {
        word = after_legal(&rt, &full, word, 3, write);
    }
    assert!(rt; after(&rt, &full, word, 3, write).is_err());
    assert!(rt; full.procs() == 8);
    let others = [full.count(word, 2), full.count(word, 4)];
    assert!(rt; full.count(word, 3) == 127 && others == [0, 0]);
}
