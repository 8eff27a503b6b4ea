//! That a schedule is proposed where there is one.
use crate::dice::Dice;
use crate::judged::is_legal_schedule;
use crate::litmus::ROWS;
use crate::traces::{INITIALS, parts_of, read, sequences_in, swap, write};
use scm_proposals::propose;
use scm_sequences::{MOST_PROCESSES, Sequences};
use std::alloc::Global;
use std::process::Abort;

/// Whether a schedule is proposed, which is judged.
fn is_decided(
    rt: &impl Abort,
    alloc: Global,
    initials: &[Option<u64>],
    sequences: &Sequences,
    room: usize,
) -> bool {
    is_decided_from(rt, alloc, initials, sequences, &[], room)
}

/// The same, from an earlier schedule on.
fn is_decided_from(
    rt: &impl Abort,
    alloc: Global,
    initials: &[Option<u64>],
    sequences: &Sequences,
    earlier: &[u8],
    room: usize,
) -> bool {
    let lengths = sequences.lengths();
    match propose(alloc, initials, sequences, &lengths, earlier, room, room) {
        Some(schedule) => is_legal_schedule(rt, initials, sequences, &lengths, &schedule),
        None => false,
    }
}

/// Two stores of 1 and 2, and a process that loads them, from earlier schedules: a beginning, one whose last write came too
/// early, one that isn't legal, one of processes that aren't there, and one that is too long.
#[test]
fn earlier_schedules(rt: HostRuntime) {
    let sequences = sequences_in(&rt, rt.alloc(), 2, "0Wy1 0Wy2 1Ry1 1Ry2");
    let earlier: [&[u8]; 5] = [&[0, 1], &[0, 0], &[1, 0], &[7, 255], &[0, 1, 0, 1, 0]];
    for places in earlier {
        assert!(rt; is_decided_from(&rt, rt.alloc(), &INITIALS, &sequences, places, 10_000));
    }
}

/// Of the consistent rows all but a few are decided: the one without an operation, and such as swap what an open cell held.
#[test]
fn consistent_rows_are_decided(rt: HostRuntime) {
    let mut missed = 0u32;
    for row in ROWS.trim().lines() {
        let (_, trace, wanted) = parts_of(&rt, row);
        let sequences = sequences_in(&rt, rt.alloc(), 4, trace);
        let is_decided = is_decided(&rt, rt.alloc(), &INITIALS, &sequences, 1_000);
        let is_consistent = wanted.contains(", consistent");
        assert!(rt; is_consistent || !is_decided, "{row}");
        missed = missed.saturating_add(u32::from(is_consistent && !is_decided));
    }
    assert!(rt; missed == 3, "{missed}");
}

/// How many processes, cells and values a trace has, and after how many accesses, in the mean, it is drawn anew who makes them.
#[derive(Clone, Copy)]
struct Size {
    processes: u8,
    cells: u8,
    values: u8,
    turn: u8,
}

const FEW_VALUES: Size = Size {
    processes: 3,
    cells: 2,
    values: 3,
    turn: 1,
};

const SEVERAL_VALUES: Size = Size {
    processes: 4,
    cells: 3,
    values: 8,
    turn: 1,
};

const LONG_TURNS: Size = Size {
    processes: 6,
    cells: 8,
    values: 8,
    turn: 100,
};

const EIGHT_PROCESSES: Size = Size {
    processes: 8,
    cells: 8,
    values: 6,
    turn: 1,
};

/// What a memory did, whose cells the processes accessed as it came, so many times.
fn of_size(rt: &impl Abort, alloc: Global, size: Size, seed: u64, accesses: u16) -> Sequences {
    let mut dice = Dice::new(seed);
    let mut contents = [0; 8];
    let mut process = 0;
    let procs = usize::from(size.processes);
    assert!(rt; 0 < procs && procs <= MOST_PROCESSES);
    let mut sequences = Sequences::new(alloc, procs).expect(rt, "memory");
    for _ in 0..accesses {
        if size.turn == 1 || dice.below(size.turn) == 0 {
            process = usize::from(dice.below(size.processes));
        }
        let cell = dice.below(size.cells);
        let value = u64::from(dice.below(size.values));
        let held = contents.get_mut(usize::from(cell)).expect(rt, "a cell");
        let (op, left) = match dice.below(3) {
            0 => (read(cell, *held), *held),
            1 => (write(cell, value), value),
            _ => (swap(cell, *held, value), value),
        };
        *held = left;
        sequences
            .push(process, op)
            .expect(rt, "room for an operation");
    }
    sequences
}

/// Whether a schedule is proposed for such a trace.
fn decides(
    rt: &impl Abort,
    alloc: Global,
    size: Size,
    seed: u64,
    accesses: u16,
    room: usize,
) -> bool {
    let sequences = of_size(rt, alloc, size, seed, accesses);
    is_decided(rt, alloc, &[Some(0); 8], &sequences, room)
}

/// Here cases contradict each other: without what is learned from that none of the four is found.
#[test]
fn contradictions_are_learned_from(rt: HostRuntime) {
    for seed in [2, 5, 8, 18] {
        assert!(rt; decides(&rt, rt.alloc(), FEW_VALUES, seed, 120, 14_000));
    }
}

/// No walk alone finds these: the sources of reads are searched.
#[test]
fn sources_are_searched(rt: HostRuntime) {
    for seed in [2, 8] {
        assert!(rt; decides(&rt, rt.alloc(), SEVERAL_VALUES, seed, 120, 10_000));
    }
}

/// Where processes run long alone, any order by their numbers misleads: the turns are searched.
#[test]
fn turns_are_searched(rt: HostRuntime) {
    for seed in [1, 3, 4] {
        assert!(rt; decides(&rt, rt.alloc(), LONG_TURNS, seed, 900, 60_000));
    }
}

/// By even times no schedule of this is found: they are aligned.
#[test]
fn times_are_aligned(rt: HostRuntime) {
    assert!(rt; decides(&rt, rt.alloc(), EIGHT_PROCESSES, 16, 1_000, 1_000_000));
}

/// The fuel ends in the walk, before the search, under a skew, and where none is supposed any more.
#[test]
fn fuel_ends_anywhere(rt: HostRuntime) {
    for room in [0, 100, 1_000, 2_000] {
        assert!(rt; !decides(&rt, rt.alloc(), SEVERAL_VALUES, 2, 120, room));
    }
}
