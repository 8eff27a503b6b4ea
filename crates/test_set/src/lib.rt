//! Calls of the kept set, and of what is asked of traces of operations, on their happy paths, and worked examples: what no
//! clause says. They stand apart from test_calls, so that the two are proved side by side.
#![tactic(auto)]

#[cfg(test)]
mod contents;
#[cfg(test)]
mod dice;
#[cfg(test)]
mod forms;
#[cfg(test)]
mod growing;
#[cfg(test)]
mod judged;
#[cfg(test)]
mod layouts;
#[cfg(test)]
mod litmus;
#[cfg(test)]
mod marks_again;
#[cfg(test)]
mod orders;
#[cfg(test)]
mod outgrowing;
#[cfg(test)]
mod packed_steps;
#[cfg(test)]
mod packing;
#[cfg(test)]
mod plain_list;
#[cfg(test)]
mod proposals;
#[cfg(test)]
mod reach;
#[cfg(test)]
mod situations;
#[cfg(test)]
mod sleeping;
#[cfg(test)]
mod subject;
#[cfg(test)]
mod tasks;
#[cfg(test)]
mod traces;
#[cfg(test)]
mod word_map;
