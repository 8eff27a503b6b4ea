//! The operations of a process.
ghost use Rattle.std.specs.Prelude.{◌≡◌};
ghost use Rattle.scm_sequences.specs.Sequences.{cell_of, finds, value_after};

/// A read that gave a value, a write of one, or both in one step, on the cell of a number.
///
/// These are the operations R(a, d), W(a, d) and RW(a, d, e) of Gibbons and Korach, "Testing Shared
/// Memories", 1997. Cells are numbered from 0 in the order of their declaration.
#[derive(Clone, Copy, Debug, PartialEq, Eq, Hash)]
pub enum Op {
    R { cell: u8, value: u64 },
    W { cell: u8, value: u64 },
    Rw { cell: u8, old: u64, new: u64 },
}

impl Op {
    /// The number of the one cell that the operation is about.
    pub fn cell(self) -> usize
        ensures { result ≡ cell_of self }
    {
        match self {
            Op::R { cell, .. } | Op::W { cell, .. } | Op::Rw { cell, .. } => usize::from(cell),
        }
    }

    /// What its cell holds after the operation: what it wrote, or what it read.
    pub fn value_after(self) -> u64
        ensures { result ≡ value_after self }
    {
        match self {
            Op::R { value, .. } | Op::W { value, .. } => value,
            Op::Rw { new, .. } => new,
        }
    }

    /// Whether the operation reads nothing, or finds what it read in a cell that holds this; a cell that
    /// holds `None` is open, and gives every value.
    pub fn finds(self, held: Option<u64>) -> bool
        ensures { result ≡ finds self (λ _. held) }
    {
        match self {
            Op::W { .. } => true,
            Op::R { value: read, .. } | Op::Rw { old: read, .. } => {
                held.is_none_or(|value| value == read)
            }
        }
    }
}
