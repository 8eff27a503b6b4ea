//! What reads may see in a part of a trace, as a guess.
use crate::facts::Facts;
use crate::order::Order;
use crate::proposal::Proposer;
use crate::skew::{Base, SKEWS, skewed_clocks};
use crate::sources::with_single_sources;
use scm_clocks::{Clocks, Given, Part};
use scm_cycles::{Guess, find_sources};
use std::ops::Range;

/// How many hundredths of the fuel that is left each skew may burn.
const FUEL_SHARE: u64 = 85;

/// How much fuel of the search a visit burns for each process.
const PRICE_OF_VISIT: u64 = 2;

/// So many operations make a small part: of a larger one a walk's saturation draws what follows from single sources sooner than the
/// search.
const MOST_OF_SMALL: u32 = 4_096;

/// The fuel of the search that so many visits of this order burn.
pub(crate) fn price_of(visits: u64, order: &Order) -> u64 {
    let price = u64::from(order.facts.procs).saturating_mul(PRICE_OF_VISIT);
    visits.saturating_mul(price)
}

impl Proposer<'_> {
    /// What reads may see in a part, and under which skew: of those of these numbers the first one that has something.
    pub(crate) fn guess(
        &self,
        part: &Part,
        skew_numbers: Range<u64>,
        base: Base,
        fuel: &mut u64,
    ) -> Option<(Guess, u64)> {
        for skew_number in skew_numbers {
            let share = if skew_number < SKEWS {
                fuel.saturating_mul(FUEL_SHARE) / 100
            } else {
                *fuel
            };
            if part.size() > share {
                return None;
            }
            let mut left = share;
            let guess = self.guess_under(part, skew_number, base, &mut left);
            *fuel = fuel.saturating_sub(share.saturating_sub(left));
            if let Some(guess) = guess {
                return Some((guess, skew_number));
            }
        }
        None
    }

    fn guess_under(
        &self,
        part: &Part,
        skew_number: u64,
        base: Base,
        fuel: &mut u64,
    ) -> Option<Guess> {
        let given = Given::new(self.alloc, part)?;
        let clocks = skewed_clocks(self.alloc, &given, skew_number, base)?;
        if given.numbering.len()? <= MOST_OF_SMALL {
            return find_sources(self.alloc, given, clocks, fuel);
        }
        let Order { facts, clocks, .. } = self.saturated(given, clocks, fuel)?;
        let Facts { given, .. } = facts;
        find_sources(self.alloc, given, clocks, fuel)
    }

    // These orders with all that follows from single sources, where the fuel is enough.
    fn saturated(&self, given: Given, clocks: Clocks, fuel: &mut u64) -> Option<Order> {
        let guess = with_single_sources(self.alloc, given, clocks)?;
        let mut order = Order::new(self.alloc, guess)?;
        order.fuel = *fuel / price_of(1, &order).max(1);
        let end = order.spread();
        *fuel = fuel.saturating_sub(price_of(order.visits, &order));
        end?;
        Some(order)
    }
}
