//! Marks: lengths of a trace that its owner can ask about and return to.
#![tactic(auto)]

mod marks;

pub use marks::Marks;
