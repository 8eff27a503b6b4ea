//! The kinds of AMO.

/// What an AMO makes of the old value of its cell and its operand. `Max` and `Min` compare signed numbers, `MaxU` and
/// `MinU` unsigned ones.
#[derive(Clone, Copy, Debug, PartialEq, Eq, Hash)]
pub enum AmoKind {
    Swap,
    Add,
    And,
    Or,
    Xor,
    Max,
    Min,
    MaxU,
    MinU,
}
