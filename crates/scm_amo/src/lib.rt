//! The atomic memory operations (AMOs) of RISC-V: what each stores, and its name. No memory is touched.
//!
//! RISC-V Unprivileged ISA 20191213, chapter "A".
#![tactic(auto)]

mod kind;
mod list;
mod names;
mod results;

pub use kind::AmoKind;
pub use list::at;
pub use names::{name, read_name};
pub use results::apply;
