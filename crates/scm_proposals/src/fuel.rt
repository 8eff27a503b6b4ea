//! What a search over sources may burn.
use scm_sequences::Lengths;

/// The fuel for each situation that the other search would look at: so much for four processes, and at least and at most so
/// much. With it the one takes about as long as the other.
const SEARCH_FUEL_OF_FOUR: u64 = 6;

const LEAST_SEARCH_FUEL: u64 = 6;

const MOST_SEARCH_FUEL: u64 = 30;

/// How many times as much there is where no word has room for a situation: one in full takes longer to look at.
const FUEL_IN_FULL: u64 = 3;

const LONGEST_WORD: usize = u128::BITS as usize;

/// The fuel of a search over sources before one that has room for so many situations. There is none where the counts tell no
/// more apart: the other search mostly settles the question itself then.
pub(crate) fn fuel_of_search(lengths: &Lengths, room: usize) -> u64 {
    let mut situations: u64 = 1;
    for count in lengths.counts() {
        situations = situations.saturating_mul(u64::from(*count).saturating_add(1));
    }
    if situations <= room as u64 {
        return 0;
    }
    let fuel = (lengths.procs() as u64)
        .saturating_mul(SEARCH_FUEL_OF_FOUR)
        .div_ceil(4)
        .clamp(LEAST_SEARCH_FUEL, MOST_SEARCH_FUEL);
    (room as u64).saturating_mul(fuel)
}

/// What all that comes after walks may burn of a trace of so many cells, for each of which a situation has a bit at least, where one
/// search over sources may burn so much.
pub(crate) fn fuel_after_walks(lengths: &Lengths, cells: usize, fuel: u64) -> u64 {
    let mut bits = cells;
    for count in lengths.counts() {
        bits = bits.saturating_add(u32::BITS.saturating_sub(count.leading_zeros()) as usize);
    }
    if bits > LONGEST_WORD {
        fuel.saturating_mul(FUEL_IN_FULL)
    } else {
        fuel
    }
}
