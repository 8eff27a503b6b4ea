//! Short refutations: a list of what holds in every legal schedule, line by line, each with its reason, that ends with an
//! operation before itself; and the test whether such a list leaves a trace no schedule.
#![tactic(auto)]

mod blocks;
mod candidates;
mod cut_trace;
mod derivation;
mod following;
mod laws;
mod lemmas;
mod place;
mod refuting;
mod showing;

pub use derivation::{Derivation, Fact, Line, MOST_HINTS, Rule};
pub use laws::lines_hold;
pub use place::Place;
pub use refuting::orders_refute;
