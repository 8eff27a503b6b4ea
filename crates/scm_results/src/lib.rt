//! The totals of tasks that were taken and of outcomes that were delivered, and the shares of those that took and delivered.
#![tactic(auto)]

mod fate;
mod naming;
mod results;
mod tally;
mod totals;

pub use fate::Fate;
pub use naming::{Delivered, MOST_TALLIES, Naming, Taken, Token};
pub use results::Results;
pub use tally::Tally;
pub use totals::Totals;
