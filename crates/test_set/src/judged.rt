//! Schedules and refutations of others, judged: worked examples.
use crate::situations::situation_in;
use crate::traces::{INITIALS, cell_named, digit, lengths_in, parts_of, sequences_in, value};
use scm_frontier::Situation;
use scm_schedules::{fixed, is_legal, refutes};
use scm_sequences::{Lengths, MOST_CELLS, Sequences};
use std::alloc::Global;
use std::process::Abort;

/// Traces of two processes, cut where there is a mark, and lists of places: what a schedule fixes of the open cells.
const SCHEDULES: &str = "
    0Wx1 0Wy1 1Ry1 1Rx1: 0011 => legal
    0Wx1 0Wy1 1Ry1 1Rx1: 0101 => illegal
    0Wx1 0Wy1 1Ry1 1Rx1: 001 => illegal
    0Wx1 0Wy1 1Ry1 1Rx1: 00111 => illegal
    0Wx1 0Wy1 1Ry1 1Rx1: 0012 => illegal
    0Wx1 0Wy1 1Ry1 / 1Rx1: 001 => legal
    0Wx1 0Wy1 1Ry1 / 1Rx1: 0011 => illegal
    / 0Wx1 0Wy1 1Ry1 1Rx1: => legal
    : => legal
    : 0 => illegal
    0Ro7: 0 => legal o7
    0Ro7 0Ro8: 00 => illegal
    0Ro3 1Wo4: 01 => legal o3
    0Wo4 0Ro4: 00 => legal
    0Uo-1>1: 0 => legal o-1
    0Ro1 1Ro2: 01 => illegal
    0Rq5 0Ro6 0Rx0: 000 => legal o6 q5
";

/// Traces of two processes on the cells o, x and y, cut where there is a mark, and lists of situations. A closed list refutes
/// also with more than can be reached.
const REFUTATIONS: &str = "
    0Wx1 0Ry0 1Wy1 1Rx0: 0,0/?,0,0 0,1/?,0,1 0,2/?,0,1 1,0/?,1,0 1,1/?,1,1 1,2/?,1,1 2,0/?,1,0 2,1/?,1,1 => refuted
    0Wx1 0Ry0 1Wy1 1Rx0: 0,1/?,0,1 0,0/?,0,0 0,2/?,0,1 1,0/?,1,0 1,1/?,1,1 1,2/?,1,1 2,0/?,1,0 2,1/?,1,1 => open
    0Wx1 0Ry0 1Wy1 1Rx0: 0,0/?,0,0 0,1/?,0,1 0,2/?,0,1 1,0/?,1,0 1,1/?,1,1 1,2/?,1,1 2,0/?,1,0 => open
    0Wx1 0Ry0 1Wy1 1Rx0: 0,1/?,0,1 0,2/?,0,1 1,0/?,1,0 1,1/?,1,1 1,2/?,1,1 2,0/?,1,0 2,1/?,1,1 => open
    1Rx1: 0,0/?,0,0 => refuted
    1Rx1: 0,0/?,0,0 0,0/?,5,0 => refuted
    1Rx1: 0,0/?,0,0 0,0/?,1,0 => open
    1Rx1: 0,0/?,0,0 0,0/?,0,0 => open
    1Rx1: => open
    / 1Rx1: 0,0/?,0,0 => open
    1Rx1: 0,0,0/?,0,0 => open
    1Rx1: 0/?,0,0 => open
    1Rx1: 0,0/?,0,0,0 => open
    1Rx1: 0,0/ => open
";

/// Whether it is a schedule of the trace, cut to these lengths.
pub(crate) fn is_legal_schedule(
    rt: &impl Abort,
    initials: &[Option<u64>],
    sequences: &Sequences,
    lengths: &Lengths,
    places: &[u8],
) -> bool {
    assert!(rt; initials.len() <= MOST_CELLS);
    assert!(rt; sequences.lengths().bound(lengths.counts()));
    assert!(rt; sequences.names_cells_below(initials.len()));
    is_legal(initials, sequences, lengths, places)
}

/// Whether the situations refute it.
pub(crate) fn is_refuted(
    rt: &impl Abort,
    alloc: Global,
    initials: &[Option<u64>],
    sequences: &Sequences,
    lengths: &Lengths,
    situations: &[Situation],
) -> bool {
    assert!(rt; initials.len() <= MOST_CELLS);
    assert!(rt; sequences.lengths().bound(lengths.counts()));
    assert!(rt; sequences.names_cells_below(initials.len()));
    refutes(alloc, initials, sequences, lengths, situations).expect(rt, "memory")
}

/// What a schedule fixes; `None` where it isn't legal.
fn fixed_by(
    rt: &impl Abort,
    alloc: Global,
    initials: &[Option<u64>],
    sequences: &Sequences,
    lengths: &Lengths,
    schedule: &[u8],
) -> Option<Vec<(u8, u64)>> {
    assert!(rt; initials.len() <= MOST_CELLS);
    let is_within = sequences.lengths().bound(lengths.counts());
    assert!(rt; is_within);
    let is_below = sequences.names_cells_below(initials.len());
    assert!(rt; is_below);
    if is_legal(initials, sequences, lengths, schedule) {
        Some(fixed(alloc, initials, sequences, schedule).expect(rt, "memory"))
    } else {
        None
    }
}

fn digits(rt: &impl Abort, alloc: Global, text: &str) -> Vec<u8> {
    let mut digits = Vec::new(alloc);
    for byte in text.as_bytes() {
        digits.push(digit(*byte)).expect(rt, "memory");
    }
    digits
}

/// The values of cells, as `o7 q5` says.
fn fixed_values(rt: &impl Abort, alloc: Global, text: &str) -> Vec<(u8, u64)> {
    let mut values = Vec::new(alloc);
    for word in text.split_whitespace() {
        let (name, number) = word.split_at_checked(1).expect(rt, "a cell and a value");
        let cell = cell_named(name.bytes().next().expect(rt, "a cell"));
        values.push((cell, value(rt, number))).expect(rt, "memory");
    }
    values
}

fn judge_schedule(rt: &impl Abort, alloc: Global, row: &str) {
    let (trace, places, verdict) = parts_of(rt, row);
    let sequences = sequences_in(rt, alloc, 2, trace);
    let lengths = lengths_in(rt, alloc, 2, trace);
    let places = digits(rt, alloc, places);
    let found = fixed_by(rt, alloc, &INITIALS, &sequences, &lengths, &places);
    let is_right = match verdict.strip_prefix("legal") {
        Some(values) => found == Some(fixed_values(rt, alloc, values)),
        None => found.is_none(),
    };
    assert!(rt; is_right, "{row}");
}

#[test]
fn schedules(rt: HostRuntime) {
    for row in SCHEDULES.trim().lines() {
        judge_schedule(&rt, rt.alloc(), row);
    }
}

fn judge_refutation(rt: &impl Abort, alloc: Global, row: &str) {
    let (trace, list, verdict) = parts_of(rt, row);
    let sequences = sequences_in(rt, alloc, 2, trace);
    let lengths = lengths_in(rt, alloc, 2, trace);
    let mut situations = Vec::new(alloc);
    for text in list.split_whitespace() {
        situations
            .push(situation_in(rt, alloc, text))
            .expect(rt, "memory");
    }
    let initials = &INITIALS[..3];
    let refuted = is_refuted(rt, alloc, initials, &sequences, &lengths, &situations);
    assert!(rt; refuted == (verdict == "refuted"), "{row}");
}

#[test]
fn refutations(rt: HostRuntime) {
    for row in REFUTATIONS.trim().lines() {
        judge_refutation(&rt, rt.alloc(), row);
    }
}
