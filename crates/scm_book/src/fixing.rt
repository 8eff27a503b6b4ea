//! What cells must have held at first, each under its name.
ghost use Rattle.std.specs.Prelude.{◌≡◌, ◌<◌, length, reverse, All, IfOk};
ghost use Rattle.scm_sequences.specs.Traces.{trace_of, IsLegal, fixed_values};
ghost use Rattle.scm_sequences.specs.Sequences.{NamesCellsBelow};
ghost use Rattle.scm_cells.specs.CellLists.{initials_of};
ghost use Rattle.scm_book.specs.Machine.{cell_name, named_values};

use scm_cells::{Cells, Name};
use scm_schedules::fixed;
use scm_sequences::{MOST_CELLS, NoMemory, Sequences};
use std::alloc::Global;

/// A value of a cell under the name of the cell.
fn with_name(cells: &Cells, value: (u8, u64)) -> (Name, u64)
    requires { value.0 < length cells.now }
    ensures { result ≡ (cell_name cells.now value.0, value.1) }
{
    let (cell, value) = value;
    (cells.name(usize::from(cell)), value)
}

/// These values of cells, each under the name of its cell.
fn with_names(
    alloc: Global,
    cells: &Cells,
    values: &[(u8, u64)],
) -> Result<Vec<(Name, u64)>, NoMemory>
    requires { All (λ value. value.0 < length cells.now) values.now }
    ensures { IfOk result (λ named. named.items ≡ named_values cells.now values.now) }
{
    let mut named = Vec::with_capacity(alloc, values.len())?;
    for value in values {
        named.push(with_name(cells, *value))?;
    }
    Ok(named)
}

/// What the cells whose first contents are open must have held for this legal front, oldest first: each that it reads before
/// it writes it, in the order of declaration.
pub(crate) fn fixed_names(
    alloc: Global,
    cells: &Cells,
    sequences: &Sequences,
    front: &[u8],
) -> Result<Vec<(Name, u64)>, NoMemory>
    requires cells { NamesCellsBelow (length (initials_of cells.now)) sequences.now }
    requires legal { IsLegal (trace_of (initials_of cells.now) sequences.now) (reverse front.now) }
    ensures { IfOk result (λ fixed. fixed.items ≡ named_values cells.now (fixed_values (trace_of (initials_of cells.now) sequences.now) (reverse front.now))) }
{
    prove!(cells.len() <= MOST_CELLS);
    let initials = cells.initials()?;
    let values = fixed(alloc, &initials, sequences, front)?;
    with_names(alloc, cells, &values)
}
