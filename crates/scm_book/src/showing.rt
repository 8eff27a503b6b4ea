//! The operations of a process as they are shown.
ghost use Rattle.std.specs.Prelude.{◌≡◌, ◌<◌, length, map, All, IfOk};
ghost use Rattle.std.specs.Arc.{arc_value};
ghost use Rattle.scm_sequences.specs.Sequences.{cell_of};
ghost use Rattle.scm_book.specs.Machine.{shown_operation};

use crate::Shown;
use crate::reply::shared;
use scm_cells::Cells;
use scm_sequences::{NoMemory, Op};
use std::alloc::Global;
use std::sync::Arc;

/// The operation with the name of its cell.
fn show(cells: &Cells, op: Op) -> Shown
    requires { cell_of op < length cells.now }
    ensures { result ≡ shown_operation cells.now op }
{
    Shown {
        cell: cells.name(op.cell()),
        op,
    }
}

/// These operations, each with the name of its cell.
pub(crate) fn show_all(
    alloc: Global,
    cells: &Cells,
    operations: &[Op],
) -> Result<Arc<Vec<Shown>>, NoMemory>
    requires { All (λ op. cell_of op < length cells.now) operations.now }
    ensures { IfOk result (λ shown. (arc_value shown).items ≡ map (shown_operation cells.now) operations.now) }
{
    let mut shown = Vec::with_capacity(alloc, operations.len())?;
    for op in operations {
        shown.push(show(cells, *op))?;
    }
    shared(alloc, shown)
}
