//! Whether a trace's end is near: then no proposal is needed.
use crate::beginning::make_next;
use scm_sequences::{Lengths, Sequences};

/// The most operations that are left near the end.
const MOST_LEFT: usize = 64;

/// Whether the operations that are left after these counts can be made one after the other, each the first that is legal,
/// by the order of processes, where the cells hold this. False too where more than `most`, or many, are left. Counts and
/// contents are used up.
///
/// A search that begins there and looks at the newest situation first goes just this way. Nothing is promised.
pub fn is_near_end(
    counts: &mut [u32],
    contents: &mut [Option<u64>],
    sequences: &Sequences,
    lengths: &Lengths,
    most: usize,
) -> bool {
    for _ in 0..=most.min(MOST_LEFT) {
        if !make_first(counts, contents, sequences, lengths) {
            return *counts == *lengths.counts();
        }
    }
    false
}

/// Makes the next operation of the first process that has a legal one. Whether there is such a process.
fn make_first(
    counts: &mut [u32],
    contents: &mut [Option<u64>],
    sequences: &Sequences,
    lengths: &Lengths,
) -> bool {
    for p in 0..counts.len() {
        if make_next(counts, contents, sequences, lengths, p).is_some() {
            return true;
        }
    }
    false
}
