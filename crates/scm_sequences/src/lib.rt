//! Operations, the sequences of a trace, their lengths, the refusals and the limits of the product.
#![tactic(auto)]

mod laws;
mod lengths;
mod limits;
mod no_memory;
mod op;
mod refusal;
mod sequences;

pub use laws::{restriction, unset_cells};
pub use lengths::Lengths;
pub use limits::{
    LONGEST_LINE, LONGEST_NAME, MOST_CELLS, MOST_ENTRIES, MOST_MARKS, MOST_OPERATIONS,
    MOST_PROCESSES, MOST_READS, MOST_SESSIONS, MOST_SITUATIONS, MOST_TRACES,
};
pub use no_memory::NoMemory;
pub use op::Op;
pub use refusal::Refusal;
pub use sequences::Sequences;
