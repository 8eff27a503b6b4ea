//! The test whether a list of process numbers is a legal schedule.
ghost use Rattle.std.specs.Prelude.{◌≤◌, ◌↔◌, length, reverse, IsTrue};
ghost use Rattle.scm_sequences.specs.declared.limits.TheConstants.{MOST_CELLS};
ghost use Rattle.scm_sequences.specs.Sequences.{IsWithin, NamesCellsBelow, lengths_of};
ghost use Rattle.scm_sequences.specs.Traces.{cut_to, trace_of, IsSchedule};

use crate::walk::Walk;
use scm_sequences::{Lengths, Sequences};

/// Whether these process numbers, oldest first, are a legal schedule of the trace with these first contents and these
/// sequences, cut to these lengths. It takes no memory.
pub fn is_legal(
    initials: &[Option<u64>],
    sequences: &Sequences,
    lengths: &Lengths,
    places: &[u8],
) -> bool
    requires within { IsWithin lengths.now (lengths_of sequences.now) }
    requires few { length initials.now ≤ MOST_CELLS }
    requires cells { NamesCellsBelow (length initials.now) sequences.now }
    ensures { IsTrue result ↔ IsSchedule (cut_to (trace_of initials.now sequences.now) lengths.now) (reverse places.now) }
{
    let mut walk = Walk::start(initials, lengths.procs());
    for place in places {
        if !walk.step(usize::from(*place), sequences, lengths) {
            return false;
        }
    }
    walk.has_all(lengths)
}
