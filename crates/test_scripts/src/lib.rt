//! Runs of scripts that need more than a program: readers and writers that give and take little, and fail, workers that are
//! held, and storms. Scripts with their replies stand in `rows` at the top.
#![tactic(auto)]

#[cfg(test)]
mod beside;
#[cfg(test)]
mod each;
#[cfg(test)]
mod ending;
#[cfg(test)]
mod fakes;
#[cfg(test)]
mod journals;
#[cfg(test)]
mod large;
#[cfg(test)]
mod ports;
#[cfg(test)]
mod ran;
#[cfg(test)]
mod replays;
#[cfg(test)]
mod reply_texts;
#[cfg(test)]
mod runs;
#[cfg(test)]
mod scripts;
#[cfg(test)]
mod session;
#[cfg(test)]
mod storm;
#[cfg(test)]
mod storm_lines;
#[cfg(test)]
mod tasks;
