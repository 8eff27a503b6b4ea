//! A search by cases over what reads see: what every legal schedule must order is drawn, then a case is supposed, and what
//! contradicts itself is learned. It ends with a source for each read, as a guess at a schedule; or with an operation that
//! comes before itself, and the lines of what that needs: a short refutation. Nothing of it is believed, and no contract here
//! says more than that a call is safe and ends; `scm_schedules::is_legal` and `scm_orders::orders_refute` are the judges.
#![tactic(auto)]

mod asserting;
mod backward;
mod candidates;
mod cases;
mod choices;
mod choosing;
mod claims;
mod clauses;
mod conflict;
mod drawn_steps;
mod evidence;
mod finding;
mod gathering;
mod lines;
mod narrowing;
mod placed_lists;
mod read_facts;
mod read_views;
mod rises;
mod rules;
mod search;
mod sources;
mod supposing;
mod touching;
mod trail;
mod truth;
mod waiting;
mod watching;

pub use finding::find_cycle;
pub use sources::{Guess, find_sources};
