//! The lines of a script with their numbers.

use crate::asking::Asked;

/// A line of a script: its number, from 1 on and at most 2^64 - 1, and what it asks.
#[derive(Drop, Debug)]
pub(crate) struct NumberedLine {
    pub(crate) number: u64,
    pub(crate) asked: Asked,
}
