//! From accesses to operations.
ghost use Rattle.std.specs.Prelude.{◌≡◌};
ghost use Rattle.scm_lowering.specs.Lowering.{lowered, cell_for, cell_and_width};

use crate::Access;
use scm_amo::apply;
use scm_cells::{Cells, Name, Width, narrow};
use scm_sequences::{Op, Refusal};

/// The number and the width of the cell of this name. Refused `NoSuchCell`.
fn find_cell(cells: &Cells, name: &Name) -> Result<(u8, Width), Refusal>
    ensures { result ≡ cell_and_width cells.now name.now }
{
    let cell = cells.find(name).ok_or(Refusal::NoSuchCell)?;
    Ok((cell, cells.width(usize::from(cell))))
}

/// The number of the cell of this name and width. Refused `NoSuchCell`, then `WidthMismatch`.
fn find_cell_of(cells: &Cells, name: &Name, width: Width) -> Result<u8, Refusal>
    ensures { result ≡ cell_for cells.now name.now width }
{
    let (cell, declared) = find_cell(cells, name)?;
    if declared != width {
        return Err(Refusal::WidthMismatch);
    }
    Ok(cell)
}

/// The operation that an access is. Refused `NoSuchCell`, then `WidthMismatch`, then `ValueOutOfRange`.
#[tactic(auto, unfolding(crate::specs::Lowering::lowered))]
pub fn lower(cells: &Cells, access: &Access) -> Result<Op, Refusal>
    ensures { result ≡ lowered cells.now access.now }
{
    match *access {
        Access::Load { width, cell, value } => {
            let cell = find_cell_of(cells, &cell, width)?;
            let value = narrow(width, value)?;
            Ok(Op::R { cell, value })
        }
        Access::Store { width, cell, value } => {
            let cell = find_cell_of(cells, &cell, width)?;
            let value = narrow(width, value)?;
            Ok(Op::W { cell, value })
        }
        Access::Amo {
            kind,
            width,
            cell,
            operand,
            old,
        } => {
            let cell = find_cell_of(cells, &cell, width)?;
            let operand = narrow(width, operand)?;
            let old = narrow(width, old)?;
            let new = apply(kind, width, old, operand);
            Ok(Op::Rw { cell, old, new })
        }
        Access::ReadWrite { cell, old, new } => {
            let (cell, width) = find_cell(cells, &cell)?;
            let old = narrow(width, old)?;
            let new = narrow(width, new)?;
            Ok(Op::Rw { cell, old, new })
        }
    }
}
