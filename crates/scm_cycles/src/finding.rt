//! A short refutation.
use crate::conflict::Conflict;
use crate::gathering::gather;
use crate::search::{Search, Sought};
use scm_clocks::{Given, Part, Times};
use scm_orders::Derivation;
use scm_sequences::{Lengths, Sequences};
use std::alloc::Global;

/// How much is looked at for each operation, and for any trace.
const FUEL: u64 = 32_768;

const LEAST_FUEL: u64 = 1_000_000;

/// The most that is looked at by cases: a second or two.
const MOST_FUEL: u64 = 1 << 25;

/// A derivation that refutes the trace with these first contents (`None` is an open cell) and these sequences, cut to
/// these lengths, or `None` where none was found: where a schedule exists, after so many steps for each operation, where the
/// trace is too large or a derivation would be too long, and where memory is refused. Nothing is promised of it:
/// `scm_orders::orders_refute` tells whether it is one.
pub fn find_cycle(
    alloc: Global,
    initials: &[Option<u64>],
    sequences: &Sequences,
    lengths: &Lengths,
) -> Option<Derivation> {
    let fuel = fuel_for(lengths);
    let none = vec![in alloc; 0; lengths.procs()].ok()?;
    let times = Times::even(alloc, lengths.counts())?;
    let part = Part {
        contents: initials,
        sequences,
        made: none.as_slice(),
        ends: lengths.counts(),
        checked: u32::MAX,
        times: &times,
    };
    let given = Given::new(alloc, &part)?;
    let mut search = Search::new(alloc, Sought::Refutation, given, fuel)?;
    let conflict = refute(&mut search)?;
    gather(&search, &conflict)
}

// Without cases first, since what is found so is short.
fn refute(search: &mut Search) -> Option<Conflict> {
    if let Some(contradiction) = search.run()? {
        return search.explain(contradiction);
    }
    search.fuel = search.fuel.min(MOST_FUEL);
    search.try_cases()?
}

fn fuel_for(lengths: &Lengths) -> u64 {
    let mut fuel = LEAST_FUEL;
    for count in lengths.counts() {
        let share = u64::from(*count).saturating_mul(FUEL);
        fuel = fuel.saturating_add(share);
    }
    fuel
}
