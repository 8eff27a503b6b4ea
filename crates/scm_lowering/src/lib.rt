//! Accesses in the words of the ISA, and the operations that they are.
#![tactic(auto)]

mod access;
mod lowering;
mod reading;

pub use access::Access;
pub use lowering::lower;
pub use reading::read_access;
