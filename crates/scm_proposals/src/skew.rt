//! The skew of processes, as an assumption.
use scm_clocks::{Clocks, Given, count_below};
use std::alloc::Global;

/// How many skews are supposed one after the other before none is.
pub(crate) const SKEWS: u64 = 4;

/// The first skew where times were aligned, in operations. Each is larger than the one before by half of it.
const FIRST_ALIGNED: u32 = 12;

/// Where they weren't: how much less than two for each doubling the first skew is, and what it is for the shortest traces, in tenths.
const SKEW_OFFSET: u64 = 30;

const LEAST_FIRST_SKEW: u64 = 18;

/// In which parts of the root of a place the skew is given, and how many operations it has beside.
const PARTS: u64 = 10;

const LEAST_SKEW: u64 = 3;

/// From which times of operations a skew is reckoned: from aligned ones, or from even ones, where each is larger than the one
/// before by the first one over `divisor`.
#[derive(Clone, Copy)]
pub(crate) enum Base {
    Aligned,
    Even { divisor: u64 },
}

/// The orders by which no process is ahead of another by more than the skew of this number, as times tell it; from `SKEWS` on the
/// order of each process alone.
pub(crate) fn skewed_clocks(
    alloc: Global,
    given: &Given,
    number: u64,
    base: Base,
) -> Option<Clocks> {
    let mut clocks = Clocks::new(alloc, &given.numbering)?;
    if number < SKEWS {
        let skews = skews_of(alloc, given, number, base)?;
        for x in 0..given.numbering.len()? {
            suppose_at(&mut clocks, given, x, &skews)?;
        }
    }
    Some(clocks)
}

// How far a process may be behind another, by how many operations it made as the times tell it.
fn skews_of(alloc: Global, given: &Given, number: u64, base: Base) -> Option<Vec<u32>> {
    let longest = given.numbering.longest()?;
    match base {
        Base::Aligned => {
            let count = longest.checked_add(1)?;
            vec![in alloc; aligned_skew(number); count as usize].ok()
        }
        Base::Even { divisor } => {
            let first = first_skew(given)?;
            let growth = first.saturating_mul(number).checked_div(divisor)?;
            roots(alloc, longest, first.saturating_add(growth))
        }
    }
}

fn aligned_skew(number: u64) -> u32 {
    let mut skew = FIRST_ALIGNED;
    for _ in 0..number {
        skew = skew.saturating_add(skew / 2);
    }
    skew
}

// A multiple of the root of each number of operations, given in tenths.
fn roots(alloc: Global, longest: u32, tenths: u64) -> Option<Vec<u32>> {
    let square = tenths.checked_mul(tenths)?;
    let mut skews = Vec::new(alloc);
    for made in 0..=longest {
        let root = square.checked_mul(u64::from(made))?.isqrt();
        let skew = root.checked_div(PARTS)?.checked_add(LEAST_SKEW)?;
        skews.push(u32::try_from(skew).ok()?).ok()?;
    }
    Some(skews)
}

// The least skew that is supposed of even times, in tenths: of a longer trace more, and where there are more values, since fewer
// sources are left by any then.
fn first_skew(given: &Given) -> Option<u64> {
    let ops = u64::from(given.numbering.len()?).saturating_add(1);
    let values = u64::from(given.values_of_cell()?);
    let doublings = ops
        .saturating_mul(ops)
        .saturating_mul(values.saturating_pow(3))
        .max(1)
        .ilog2();
    Some(
        u64::from(doublings)
            .saturating_mul(2)
            .saturating_sub(SKEW_OFFSET)
            .max(LEAST_FIRST_SKEW),
    )
}

// At least so many operations of each process come before `x`.
fn suppose_at(clocks: &mut Clocks, given: &Given, x: u32, skews: &[u32]) -> Option<()> {
    let (owner, _) = given.numbering.spot(x)?;
    let time = *given.times.get(x as usize)?;
    let mut first: u32 = 0;
    for process in 0..given.numbering.procs()? {
        let end = first.checked_add(given.numbering.count(process)?)?;
        let times = given.times.get(first as usize..end as usize)?;
        let made = count_below(times, time);
        let count = u32::try_from(made).ok()?.saturating_sub(*skews.get(made)?);
        if process != owner {
            clocks.set(x, process, count)?;
        }
        first = end;
    }
    Some(())
}
