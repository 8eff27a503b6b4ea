//! Layouts of the tests: for a trace, and for counts that no trace comes to.
ghost use Rattle.std.specs.Prelude.{◌≡◌, IfSome};

use scm_frontier::{CellValues, Layout, MOST_BITS, Word};
use scm_sequences::{Lengths, MOST_CELLS, MOST_PROCESSES, Sequences};
use std::alloc::Global;
use std::process::Abort;

/// The layout of a word for a trace, where a word has room for it.
pub(crate) fn layout_of<W: Word>(
    rt: &impl Abort,
    alloc: Global,
    initials: &[Option<u64>],
    sequences: &Sequences,
) -> Option<Layout>
    ensures { IfSome result (λ l. l.bits ≡ W.BITS) }
{
    assert!(rt; initials.len() <= MOST_CELLS && sequences.names_cells_below(initials.len()));
    Layout::of::<W>(alloc, initials, sequences).expect(rt, "memory")
}

/// The same, which there is.
pub(crate) fn some_layout_of<W: Word>(
    rt: &impl Abort,
    alloc: Global,
    initials: &[Option<u64>],
    sequences: &Sequences,
) -> Layout
    ensures { result.bits ≡ W.BITS }
{
    layout_of::<W>(rt, alloc, initials, sequences).expect(rt, "so many bits do")
}

/// What a cell may hold that is open at first and then has these values.
fn open_or(rt: &impl Abort, alloc: Global, values: &[u64]) -> CellValues {
    let mut held = CellValues::new(alloc, None).expect(rt, "memory");
    for value in values {
        assert!(rt; held.len() < 100);
        held.add(*value).expect(rt, "memory");
    }
    held
}

/// The layout of so many bits for counts up to these and for one such cell, where they have room.
pub(crate) fn layout_up_to(
    rt: &impl Abort,
    alloc: Global,
    bits: u32,
    counts: &[u32],
    values: &[u64],
) -> Option<Layout>
    ensures { IfSome result (λ l. l.bits ≡ bits) }
{
    assert!(rt; bits <= MOST_BITS && !counts.is_empty() && counts.len() <= MOST_PROCESSES);
    let values = vec![in alloc; open_or(rt, alloc, values)].expect(rt, "memory");
    Layout::new(alloc, bits, &Lengths::new(alloc, counts), values).expect(rt, "memory")
}

/// The same, which there is, for the greatest value.
pub(crate) fn some_layout_up_to(rt: &impl Abort, alloc: Global, bits: u32, counts: &[u32]) -> Layout
    ensures { result.bits ≡ bits }
{
    layout_up_to(rt, alloc, bits, counts, &[u64::MAX]).expect(rt, "so many bits do")
}
