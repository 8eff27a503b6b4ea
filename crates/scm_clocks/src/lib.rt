//! What the search for schedules and the search for refutations both stand on: one numbering of a trace's operations, the
//! values that they find and write, and vector clocks of what comes before what. Nothing of it is believed, and no contract
//! here says more than that a call is safe and ends.
#![tactic(auto)]

mod clocks;
mod flags;
mod given;
mod grid;
mod numbering;
mod part;
mod times;
mod values;
mod writers;
mod writes;

pub use clocks::{Clocks, is_covered};
pub use flags::Flags;
pub use given::Given;
pub use grid::Grid;
pub use numbering::Numbering;
pub use part::Part;
pub use times::{Times, WHOLE_TIME};
pub use values::Values;
pub use writers::Writers;
pub use writes::{Writes, count_below};
