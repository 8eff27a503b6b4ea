//! What each operation finds where its process makes many, one after the other.
use scm_sequences::Op;
use std::alloc::Global;

/// An operation. How many operations its process has up to the last one before it that is about the cell, or 0, and whether it
/// finds what that one left, which is true where there is none.
#[derive(Clone, Copy)]
pub(crate) struct TurnOp {
    pub(crate) op: Op,
    pub(crate) earlier: u32,
    pub(crate) follows: bool,
}

/// The operations of one process, where there are so many cells.
pub(crate) fn turn_ops_of(alloc: Global, ops: &[Op], cells: usize) -> Option<Vec<TurnOp>> {
    let mut turn_ops = Vec::new(alloc);
    let mut lasts = vec![in alloc; (0, None); cells].ok()?;
    for op in ops {
        let (earlier, left) = *lasts.get(op.cell())?;
        let turn_op = TurnOp {
            op: *op,
            earlier,
            follows: op.finds(left),
        };
        turn_ops.push(turn_op).ok()?;
        let count = u32::try_from(turn_ops.len()).ok()?;
        *lasts.get_mut(op.cell())? = (count, Some(op.value_after()));
    }
    Some(turn_ops)
}
