//! From declarations to cells.
ghost use Rattle.std.specs.Prelude.{◌≡◌, false, Some, IfOk, IfErr};
ghost use Rattle.scm_sequences.specs.Sequences.{Refuses};
ghost use Rattle.scm_sequences.specs.declared.refusal.Refusal.TheVariants.{BadDeclaration};
ghost use Rattle.scm_book.specs.Machine.{cause, are_bad_cells, declared_cells};

use crate::Decl;
use scm_cells::Cells;
use scm_sequences::Refusal;
use std::alloc::Global;

/// The cells that are declared. Refused `BadDeclaration` where there are none, more than `MOST_CELLS`, two of one
/// name, or one whose number doesn't fit.
pub(crate) fn declare_cells(alloc: Global, decls: &[Decl]) -> Result<Cells, Refusal>
    ensures ok { IfOk result (λ cells. (are_bad_cells decls.now ≡ false) × (declared_cells decls.now ≡ Some cells)) }
    ensures err { IfErr result (Refuses (cause (are_bad_cells decls.now) BadDeclaration)) }
{
    if decls.is_empty() {
        return Err(Refusal::BadDeclaration);
    }
    let mut cells = Cells::new(alloc);
    for decl in decls {
        cells.add(decl.name, decl.width, decl.initial)?;
    }
    Ok(cells)
}
