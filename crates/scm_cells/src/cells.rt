//! The cells of a trace.
ghost use Rattle.std.specs.Prelude.{◌≡◌, ◌↔◌, IsTrue, ◌<◌, None, [], ◌∷◌, ◌++◌, length, map, slice_get, IfOk, IfErr, OnOk, OnErr, IsSomeAnd};
ghost use Rattle.indexmap.specs.IndexMap.{values};
ghost use Rattle.scm_sequences.specs.Sequences.{Refuses};
ghost use Rattle.scm_cells.specs.CellLists.{add_refusal, cell_named, declared_cell, initials_of, AreCells};

use crate::{Initial, Name, Width};
use indexmap::IndexMap;
use scm_sequences::{MOST_CELLS, NoMemory, Refusal};
use std::alloc::{AllocError, Global};
use std::marker::Model;

/// The cells of a trace in the order of their declaration, from 0 on; at most `MOST_CELLS`, of different names.
///
/// Contracts see the list of the cells, each as its name, its width and what it holds at first.
#[derive(Drop)]
pub struct Cells {
    cells: IndexMap<Name, CellProperties>,
}

/// A cell's width and what it holds at first, `None` where that is open.
#[derive(Clone, Copy)]
struct CellProperties {
    width: Width,
    initial: Option<u64>,
}

impl Model for Cells {
    ghost use Rattle.std.specs.Prelude.{List};
    ghost use Rattle.scm_cells.specs.CellLists.{Declared, AreCells, cells_in};

    ghost Value = { List Declared };

    ghost view = { λ c. cells_in c.cells.entries };

    ghost invariant = { λ c. AreCells (cells_in c.cells.entries) };
}

impl Cells {
    /// No cells.
    pub fn new(alloc: Global) -> Cells
        ensures { result ≡ [] }
    {
        Cells {
            cells: IndexMap::new(alloc),
        }
    }

    /// Adds a cell of a new name, which holds at first what it is declared to, and gives its place.
    ///
    /// Refused `BadDeclaration` where the name is there, `MOST_CELLS` cells are there or a given number doesn't fit
    /// the width; or `NoMemory`. Unchanged after a refusal.
    pub fn add(&mut self, name: Name, width: Width, initial: Initial) -> Result<u8, Refusal>
        ensures place { IfOk result (λ c. c ≡ length self.old) }
        ensures added { OnOk result ((add_refusal self.old name width initial ≡ None)
            × IsSomeAnd (declared_cell name width initial) (λ cell. self.new ≡ self.old ++ cell ∷ [])) }
        ensures refused { IfErr result (Refuses (add_refusal self.old name width initial)) }
        ensures unchanged { OnErr result (self.new ≡ self.old) }
    {
        let place = self.cells.len();
        let is_taken = self.cells.contains_key(&name);
        if is_taken || place >= MOST_CELLS {
            return Err(Refusal::BadDeclaration);
        }
        let Ok(initial) = initial.first_contents(width) else {
            return Err(Refusal::BadDeclaration);
        };
        self.cells
            .insert(name, CellProperties { width, initial })
            .map_err(|_| Refusal::NoMemory)?;
        Ok(place as u8)
    }

    /// The number of cells.
    pub fn len(&self) -> usize
        ensures len { result ≡ length self.now }
        ensures cells { AreCells self.now }
    {
        self.cells.len()
    }

    /// Whether there are no cells.
    pub fn is_empty(&self) -> bool
        ensures { IsTrue result ↔ (length self.now ≡ 0) }
    {
        self.cells.is_empty()
    }

    /// The number of the cell of this name.
    pub fn find(&self, name: &Name) -> Option<u8>
        ensures { result ≡ cell_named self.now name.now }
    {
        let place = self.cells.get_index_of(name)?;
        Some(place as u8)
    }

    /// The name of cell `c`.
    pub fn name(&self, c: usize) -> Name
        requires { c < length self.now }
        ensures { IsSomeAnd (slice_get self.now c) (λ cell. result ≡ cell.name) }
    {
        let (name, _) = self.cells.get_index(c).unwrap();
        *name
    }

    /// The width of cell `c`.
    pub fn width(&self, c: usize) -> Width
        requires { c < length self.now }
        ensures { IsSomeAnd (slice_get self.now c) (λ cell. result ≡ cell.width) }
    {
        let (_, cell) = self.cells.get_index(c).unwrap();
        cell.width
    }

    /// What cell `c` holds at first, or `None` where that is open.
    pub fn initial(&self, c: usize) -> Option<u64>
        requires { c < length self.now }
        ensures { IsSomeAnd (slice_get self.now c) (λ cell. result ≡ cell.initial) }
    {
        let (_, cell) = self.cells.get_index(c).unwrap();
        cell.initial
    }

    /// What the cells hold at first, from cell 0 on.
    pub fn initials(&self) -> Result<Vec<Option<u64>>, NoMemory>
        ensures { IfOk result (λ values. values.items ≡ initials_of self.now) }
    {
        Ok(collect_initials(&self.cells)?)
    }
}

/// What the cells of a map hold at first, in the order of the map.
fn collect_initials(cells: &IndexMap<Name, CellProperties>) -> Result<Vec<Option<u64>>, AllocError>
    ensures { IfOk result (λ initials. initials.items ≡ map (λ cell. cell.initial) (values cells.now)) }
{
    cells
        .values()
        .map(|cell| cell.initial)
        .collect(*cells.allocator())
}
