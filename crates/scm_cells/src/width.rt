//! The widths of cells.
ghost use Rattle.std.specs.Prelude.{◌≡◌, ◌+◌};
ghost use Rattle.scm_cells.specs.Numbers.{values_of};

/// How wide a cell is: 32 bits (`W`, a word) or 64 bits (`D`, a doubleword).
#[derive(Clone, Copy, Debug, PartialEq, Eq, Hash)]
pub enum Width {
    W,
    D,
}

impl Width {
    /// The greatest value of a cell.
    pub fn max_value(self) -> u64
        ensures { result + 1 ≡ values_of self }
    {
        match self {
            Width::W => u64::from(u32::MAX),
            Width::D => u64::MAX,
        }
    }
}
