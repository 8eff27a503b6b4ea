//! Cells: their names, widths and first contents, and the words that stand for numbers.
#![tactic(auto)]

mod cells;
mod digits;
mod initial;
mod name;
mod number;
mod width;

pub use cells::Cells;
pub use initial::{Initial, read_initial};
pub use name::Name;
pub use number::{Num, narrow, read_count, read_num, read_value};
pub use width::Width;
