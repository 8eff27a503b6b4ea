//! A part of a trace.
use crate::times::Times;
use scm_sequences::Sequences;

/// The operations of each process from so many that it has made up to an end, where the cells hold this (`None` is an open
/// cell). Of each process so many of them are checked: what later ones found counts for nothing.
#[derive(Clone, Copy)]
pub struct Part<'a> {
    pub contents: &'a [Option<u64>],
    pub sequences: &'a Sequences,
    pub made: &'a [u32],
    pub ends: &'a [u32],
    pub checked: u32,
    /// Those of the whole trace.
    pub times: &'a Times,
}

impl Part<'_> {
    /// How many operations it has, multiplied by how many processes.
    pub fn size(&self) -> u64 {
        let mut ops: u64 = 0;
        for (end, made) in self.ends.iter().zip(self.made) {
            ops = ops.saturating_add(u64::from(end.saturating_sub(*made)));
        }
        ops.saturating_mul(self.ends.len() as u64)
    }
}
