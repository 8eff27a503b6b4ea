//! Schedules: the one that leads to a situation, the test whether one is legal, and the first contents that a front fixes.
//! Refutations: the situations of a set that was closed, and the test whether a list of situations leaves no schedule.
#![tactic(auto)]

mod fixing;
mod gathering;
mod legal;
mod links;
mod refuting;
mod walk;

pub use fixing::fixed;
pub use gathering::refutation;
pub use legal::is_legal;
pub use links::schedule;
pub use refuting::refutes;
