//! The beginning of a schedule, made operation by operation.
use scm_sequences::{Lengths, Sequences};
use std::alloc::Global;

/// What the first places of a schedule make: how many operations of each process, and what the cells hold then.
#[derive(Clone, PartialEq, Eq, Drop)]
pub struct Beginning {
    pub(crate) counts: Vec<u32>,
    pub(crate) contents: Vec<Option<u64>>,
}

impl Beginning {
    /// Before any operation, where the cells hold this (`None` is an open cell). `None` where memory is refused.
    pub fn new(alloc: Global, initials: &[Option<u64>], procs: usize) -> Option<Beginning> {
        Some(Beginning {
            counts: vec![in alloc; 0; procs].ok()?,
            contents: initials.to_vec(alloc).ok()?,
        })
    }

    /// How many numbers it has.
    pub(crate) fn size(&self) -> u64 {
        (self.counts.len() as u64).saturating_add(self.contents.len() as u64)
    }

    /// Makes the operations at these places as long as each is there, within the lengths, and legal.
    pub fn follow(&mut self, sequences: &Sequences, lengths: &Lengths, places: &[u8]) {
        for place in places {
            if self.make(sequences, lengths, usize::from(*place)).is_none() {
                break;
            }
        }
    }

    /// Makes the next operation of process `p`, where it is there, within the lengths, and legal.
    pub(crate) fn make(
        &mut self,
        sequences: &Sequences,
        lengths: &Lengths,
        p: usize,
    ) -> Option<()> {
        make_next(&mut self.counts, &mut self.contents, sequences, lengths, p)
    }

    /// How many operations were made.
    pub fn made(&self) -> usize {
        sum_of(self.counts.as_slice())
    }

    /// How many operations within the lengths are left.
    pub fn left(&self, lengths: &Lengths) -> usize {
        sum_of(lengths.counts()).saturating_sub(self.made())
    }
}

fn sum_of(counts: &[u32]) -> usize {
    let mut sum: usize = 0;
    for count in counts {
        sum = sum.saturating_add(*count as usize);
    }
    sum
}

/// Makes the next operation of process `p`, where it is there, within the lengths, and legal.
pub(crate) fn make_next(
    counts: &mut [u32],
    contents: &mut [Option<u64>],
    sequences: &Sequences,
    lengths: &Lengths,
    p: usize,
) -> Option<()> {
    let count = counts.get_mut(p)?;
    if *count >= *lengths.counts().get(p)? {
        return None;
    }
    let op = sequences.next(p, *count as usize)?;
    let content = contents.get_mut(op.cell())?;
    if !op.finds(*content) {
        return None;
    }
    *count = count.checked_add(1)?;
    *content = Some(op.value_after());
    Some(())
}
