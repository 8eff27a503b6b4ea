//! Accesses to cells, as recorders report them.
use scm_amo::AmoKind;
use scm_cells::{Name, Num, Width};

/// An access to a cell, with its numbers as they were written.
#[derive(Clone, Copy, Debug, PartialEq, Eq)]
pub enum Access {
    /// A load that gave a value.
    Load {
        width: Width,
        cell: Name,
        value: Num,
    },
    /// A store of a value.
    Store {
        width: Width,
        cell: Name,
        value: Num,
    },
    /// An atomic memory operation with this operand (rs2) that gave the old value (rd).
    Amo {
        kind: AmoKind,
        width: Width,
        cell: Name,
        operand: Num,
        old: Num,
    },
    /// A read of the old value and a write of the new one in one step, at the width of the cell.
    ReadWrite {
        cell: Name,
        old: Num,
        new: Num,
    },
}
