//! The values that a front fixes for cells whose first contents aren't known.
ghost use Rattle.std.specs.Prelude.{◌≡◌, ◌≤◌, length, map, filter_map, reverse, None, IfOk, slice_index_or};
ghost use Rattle.std.specs.Option.{option_map};
ghost use Rattle.std.specs.List.{range_with_len};
ghost use Rattle.scm_sequences.specs.declared.limits.TheConstants.{MOST_CELLS};
ghost use Rattle.scm_sequences.specs.Sequences.{NamesCellsBelow};
ghost use Rattle.scm_sequences.specs.Traces.{trace_of, IsLegal, fixed_value, fixed_values};

use crate::walk::Walk;
use arrayvec::ArrayVec;
use scm_sequences::{MOST_CELLS, NoMemory, Sequences};
use std::alloc::Global;

/// The values that a legal front, oldest place first, fixes: each cell that holds `None` at first and that some place
/// reads with no earlier write to it, with what the first such place reads, in the order of the cells.
pub fn fixed(
    alloc: Global,
    initials: &[Option<u64>],
    sequences: &Sequences,
    front: &[u8],
) -> Result<Vec<(u8, u64)>, NoMemory>
    requires few { length initials.now ≤ MOST_CELLS }
    requires cells { NamesCellsBelow (length initials.now) sequences.now }
    requires legal { IsLegal (trace_of initials.now sequences.now) (reverse front.now) }
    ensures { IfOk result (λ list. list.items ≡ fixed_values (trace_of initials.now sequences.now) (reverse front.now)) }
{
    let values = open_reads(initials, sequences, front);
    listed(alloc, &values)
}

// What the front reads first of each cell that is open there, `None` of the others. It takes no memory.
fn open_reads(
    initials: &[Option<u64>],
    sequences: &Sequences,
    front: &[u8],
) -> ArrayVec<Option<u64>, MOST_CELLS>
    requires few { length initials.now ≤ MOST_CELLS }
    requires cells { NamesCellsBelow (length initials.now) sequences.now }
    requires legal { IsLegal (trace_of initials.now sequences.now) (reverse front.now) }
    ensures { result.items ≡ map (fixed_value (trace_of initials.now sequences.now) (reverse front.now)) (range_with_len 0 (length initials.now)) }
{
    let lengths = sequences.lengths();
    let mut walk = Walk::start(initials, sequences.procs());
    let mut values = ArrayVec::try_from(&[None; MOST_CELLS][..initials.len()]).unwrap();
    for place in front {
        let p = usize::from(*place);
        if let Some((cell, value)) = walk.open_read(p, sequences, &lengths) {
            values[cell] = Some(value);
        }
        walk.step(p, sequences, &lengths);
    }
    values
}

// The cells that have a value, each with that value.
fn listed(alloc: Global, values: &[Option<u64>]) -> Result<Vec<(u8, u64)>, NoMemory>
    requires { length values.now ≤ MOST_CELLS }
    ensures { IfOk result (λ list. list.items ≡ filter_map (λ c. option_map (λ value. (c, value)) (slice_index_or values.now c None)) (range_with_len 0 (length values.now))) }
{
    let mut list = Vec::new(alloc);
    for (c, value) in values.iter().enumerate() {
        if let Some(value) = value {
            list.push((c as u8, *value))?;
        }
    }
    Ok(list)
}
