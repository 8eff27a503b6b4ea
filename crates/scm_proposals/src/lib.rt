//! Schedules that are proposed: by a walk guided by what every legal schedule must do, by long turns, by windows, by sources for
//! reads. Nothing of a proposal is believed, and no contract here says more than that a call is safe and ends;
//! `scm_schedules::is_legal` is the judge.
#![tactic(auto)]

mod alignment;
mod beginning;
mod choosing;
mod ending;
mod facts;
mod fuel;
mod guessing;
mod guided_walk;
mod nearby;
mod numbers;
mod order;
mod proposal;
mod saturation;
mod skew;
mod sources;
mod turn_ops;
mod turns;
mod windows;

pub use beginning::Beginning;
pub use ending::is_near_end;
pub use proposal::{propose, propose_by_search, propose_by_walks};
