//! Where reads have their values from.
use scm_clocks::{Clocks, Given};
use scm_cycles::Guess;
use std::alloc::Global;

/// These orders, and the sources of reads whose value has one writer: each an operation, or the number of a cell after those of the
/// operations, for first contents. `None` also where a value that is read has no writer. An open cell has at first a value that is
/// read and that nobody writes.
pub(crate) fn with_single_sources(
    alloc: Global,
    mut given: Given,
    clocks: Clocks,
) -> Option<Guess> {
    let mut sources = Vec::new(alloc);
    for x in 0..given.numbering.len()? {
        let source = match given.values.found(x) {
            Some(value) => single_source(&mut given, x, value)?,
            None => None,
        };
        sources.push(source).ok()?;
    }
    Some(Guess {
        given,
        sources,
        clocks,
    })
}

fn single_source(given: &mut Given, x: u32, value: u32) -> Option<Option<u32>> {
    let cell = given.numbering.cell(x)?;
    let first = given.values.first(cell)?;
    match given.writers.of(value)? {
        [] if first.is_none_or(|first| first == value) => {
            given.values.set_first(cell, value)?;
            Some(Some(given.numbering.len()?.checked_add(cell)?))
        }
        [] => None,
        [source] if first != Some(value) => Some(Some(*source)),
        _ => Some(None),
    }
}
