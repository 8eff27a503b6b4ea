//! Cells as C declares them.
ghost use Rattle.std.specs.Prelude.{◌≡◌, option_map, IfOk};
ghost use Rattle.scm_embed.specs.Exports.{width_of_bits, initial_of_cell, declaration_of_cell, all_declarations, declarations_of};

use scm_book::Decl;
use scm_cells::{Initial, Name, Num, Width};
use scm_sequences::{MOST_CELLS, NoMemory};
use std::alloc::Global;

/// A cell: the number of its name, its width in bits, and what it holds at first, which doesn't count where it is unset.
#[repr(C)]
#[derive(Clone, Copy)]
pub struct Cell {
    name: usize,
    bits: u32,
    is_unset: u32,
    initial: u64,
}

/// The width of so many bits.
fn width_of(bits: u32) -> Option<Width>
    ensures { result ≡ width_of_bits bits }
{
    match bits {
        32 => Some(Width::W),
        64 => Some(Width::D),
        _ => None,
    }
}

impl Cell {
    /// What it holds at first.
    fn initial(&self) -> Initial
        ensures { result ≡ initial_of_cell self.now }
    {
        if self.is_unset == 0 {
            Initial::Given(Num::Plain(self.initial))
        } else {
            Initial::Unset
        }
    }

    /// Its declaration, where these are the names that numbers stand for.
    fn declaration(&self, names: &[Name]) -> Option<Decl>
        ensures { result ≡ declaration_of_cell names.now self.now }
    {
        Some(Decl {
            name: *names.get(self.name)?,
            width: width_of(self.bits)?,
            initial: self.initial(),
        })
    }
}

/// The declarations of these cells. `None` where a number stands for nothing, or there are more than `MOST_CELLS`.
pub(crate) fn declarations(
    alloc: Global,
    names: &[Name],
    cells: &[Cell],
) -> Result<Option<Vec<Decl>>, NoMemory>
    ensures { IfOk result (λ decls. option_map (λ decls. decls.items) decls ≡ declarations_of names.now cells.now) }
{
    if cells.len() > MOST_CELLS {
        return Ok(None);
    }
    read_declarations(alloc, names, cells)
}

/// The declarations of these cells, however many.
fn read_declarations(
    alloc: Global,
    names: &[Name],
    cells: &[Cell],
) -> Result<Option<Vec<Decl>>, NoMemory>
    ensures { IfOk result (λ decls. option_map (λ decls. decls.items) decls ≡ all_declarations names.now cells.now) }
{
    let mut decls = Vec::new(alloc);
    for cell in cells {
        let Some(decl) = cell.declaration(names) else {
            return Ok(None);
        };
        decls.push(decl)?;
    }
    Ok(Some(decls))
}
