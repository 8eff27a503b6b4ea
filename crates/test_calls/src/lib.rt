//! Calls of single crates on their happy paths, and worked examples: what no clause says. They stand together here, since a
//! crate with tests is proved once with them and once without. Those of the kept set, and of what is asked of traces of
//! operations, stand in test_set.
#![tactic(auto)]

#[cfg(test)]
mod again;
#[cfg(test)]
mod coming;
#[cfg(test)]
mod deliveries;
#[cfg(test)]
mod expand;
#[cfg(test)]
mod held;
#[cfg(test)]
mod idle;
#[cfg(test)]
mod lending;
#[cfg(test)]
mod pile;
#[cfg(test)]
mod reading;
#[cfg(test)]
mod resting;
#[cfg(test)]
mod results;
#[cfg(test)]
mod shared;
#[cfg(test)]
mod shared_workers;
#[cfg(test)]
mod tallies;
#[cfg(test)]
mod waiting;
#[cfg(test)]
mod words;
#[cfg(test)]
mod work;
#[cfg(test)]
mod workers;
