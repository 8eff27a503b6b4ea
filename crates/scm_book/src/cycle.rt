//! Short refutations that were looked for and judged.
ghost use Rattle.std.specs.Prelude.{IfSome};
ghost use Rattle.std.specs.Arc.{arc_value};
ghost use Rattle.scm_sequences.specs.Traces.{trace_of, cut_to};
ghost use Rattle.scm_cells.specs.CellLists.{initials_of};
ghost use Rattle.scm_book.specs.Machine.{reply_data, IsRefutedBy, FitsCycle};

use crate::Reply;
use scm_cells::Cells;
use scm_cycles::find_cycle;
use scm_orders::{Derivation, orders_refute};
use scm_sequences::{Lengths, Sequences};
use std::alloc::Global;
use std::sync::Arc;

/// This derivation, where it refutes the trace with these first contents and sequences, cut to these lengths.
fn judged(
    initials: &[Option<u64>],
    sequences: &Sequences,
    lengths: &Lengths,
    derivation: Derivation,
) -> Option<Derivation>
    ensures { IfSome result (λ derivation. IsRefutedBy (cut_to (trace_of initials.now sequences.now) lengths.now) derivation.lines.items derivation.hints.items) }
{
    if orders_refute(initials, sequences, lengths, &derivation) {
        Some(derivation)
    } else {
        None
    }
}

/// A derivation that refutes the trace with these cells and sequences, cut to these lengths. `None` where none was found,
/// where the one that was found refutes nothing, and where memory is refused.
fn refutation(
    alloc: Global,
    cells: &Cells,
    sequences: &Sequences,
    lengths: &Lengths,
) -> Option<Arc<Derivation>>
    ensures { IfSome result (λ derivation. IsRefutedBy (cut_to (trace_of (initials_of cells.now) sequences.now) lengths.now) (arc_value derivation).lines.items (arc_value derivation).hints.items) }
{
    let initials = cells.initials().ok()?;
    let derivation = find_cycle(alloc, &initials, sequences, lengths)?;
    let mut judged = judged(&initials, sequences, lengths, derivation)?;
    judged.lines.shrink_to_fit();
    judged.hints.shrink_to_fit();
    Arc::new(alloc, judged).ok()
}

/// The reply to the question for a short refutation of the trace with these cells and sequences, cut to these lengths.
pub(crate) fn refuted_shortly(
    alloc: Global,
    cells: &Cells,
    sequences: &Sequences,
    lengths: &Lengths,
) -> Reply
    ensures { FitsCycle (cut_to (trace_of (initials_of cells.now) sequences.now) lengths.now) (reply_data result) }
{
    match refutation(alloc, cells, sequences, lengths) {
        Some(derivation) => Reply::Cycle(derivation),
        None => Reply::Unknown,
    }
}
