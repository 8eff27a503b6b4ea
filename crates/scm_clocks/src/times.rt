//! When operations were made.
use crate::part::Part;
use std::alloc::Global;

/// The time that a whole trace takes.
pub const WHOLE_TIME: u32 = 1 << 20;

/// For each process of a trace when each of its operations was made, as a guess; and whether those of different processes are
/// aligned. Else all begin any part at once.
#[derive(Drop)]
pub struct Times {
    pub lists: Vec<Vec<u32>>,
    pub are_aligned: bool,
}

impl Times {
    /// Where nothing is guessed.
    pub fn none(alloc: Global) -> Times {
        Times {
            lists: Vec::new(alloc),
            are_aligned: false,
        }
    }

    /// Where each process makes so many operations, one after the other by the same step.
    pub fn even(alloc: Global, lengths: &[u32]) -> Option<Times> {
        let mut times = Times::none(alloc);
        for length in lengths {
            times.lists.push(even_times(alloc, *length)?).ok()?;
        }
        Some(times)
    }

    /// Those of a part, by number, from the earliest on.
    pub(crate) fn of_part(alloc: Global, part: &Part) -> Option<Vec<u32>> {
        let mut times = Vec::new(alloc);
        let mut begin = u32::MAX;
        for (list, (made, end)) in part.times.lists.iter().zip(part.made.iter().zip(part.ends)) {
            let list = list.get(*made as usize..*end as usize)?;
            let first = list.first().copied().unwrap_or(u32::MAX);
            begin = begin.min(first);
            let before = if part.times.are_aligned { 0 } else { first };
            for time in list {
                times.push(time.saturating_sub(before)).ok()?;
            }
        }
        if part.times.are_aligned {
            for time in times.iter_mut() {
                *time = time.saturating_sub(begin);
            }
        }
        Some(times)
    }
}

fn even_times(alloc: Global, length: u32) -> Option<Vec<u32>> {
    let mut times = Vec::new(alloc);
    for place in 0..length {
        let time = u64::from(place).saturating_mul(u64::from(WHOLE_TIME)) / u64::from(length);
        times.push(u32::try_from(time).ok()?).ok()?;
    }
    Some(times)
}
