//! When operations were made, as a guess: soon after a write its value is found more often than at other times.
use crate::nearby::Nearby;
use crate::proposal::Proposer;
use scm_clocks::{Given, Times, WHOLE_TIME};
use std::alloc::Global;

/// Into how many spans the time is divided at first; then into twice as many each time, until there are as many as a process has
/// operations, or too many counts.
const FIRST_SPANS: u32 = 8;

const MOST_COUNTS: u32 = 1 << 18;

/// How often each process is moved with so many spans.
const SWEEPS: u32 = 2;

/// How many spans an operation is moved at most.
const REACH: u32 = 32;

/// The time of an operation is the mean of its own and those of so many before and after it, at least.
const LEAST_RADIUS: u32 = 8;

/// How much speaks for each span before the first operation of a process, and after the last one.
const PRICE_OF_SPAN: u64 = 40;

/// How many steps are made for each unit of fuel.
const STEPS_OF_FUEL: u64 = 3;

/// When the operations of each process were made, as far as it is known, and into how many spans the whole time is divided.
#[derive(Drop)]
struct Alignment<'a> {
    alloc: Global,
    given: &'a Given,
    lists: Vec<Vec<u32>>,
    longest: u32,
    spans: u32,
}

/// How much speaks for the best times of some operations of a process, by the span of the last one, from `first` on.
#[derive(Drop)]
struct Sums {
    first: u32,
    list: Vec<u64>,
}

/// The fuel that it burns to align the times of these operations.
pub(crate) fn price_of_aligning(given: &Given) -> Option<u64> {
    let ops = u64::from(given.numbering.len()?);
    let procs = u64::from(given.numbering.procs()?);
    let values = u64::from(given.values.count());
    let mut spans = u64::from(FIRST_SPANS);
    let mut steps: u64 = 0;
    for _ in 0..divisions_of(given)? {
        // For each operation the spans that it is moved to, and for each process all operations and counts.
        let places = u64::from(REACH)
            .saturating_mul(2)
            .min(spans)
            .saturating_add(procs);
        let counts = values.saturating_mul(spans).saturating_mul(2);
        steps = steps
            .saturating_add(ops.saturating_mul(places))
            .saturating_add(counts.saturating_mul(procs));
        spans = spans.saturating_mul(2);
    }
    Some(steps.saturating_mul(u64::from(SWEEPS)) / STEPS_OF_FUEL)
}

// How often the time is divided into spans.
fn divisions_of(given: &Given) -> Option<u32> {
    let longest = given.numbering.longest()?;
    let (mut spans, mut divisions) = (FIRST_SPANS, 1u32);
    for _ in 0..u32::BITS {
        let next = spans.saturating_mul(2);
        if spans >= longest || given.values.count().saturating_mul(next) > MOST_COUNTS {
            break;
        }
        spans = next;
        divisions = divisions.saturating_add(1);
    }
    Some(divisions)
}

impl Proposer<'_> {
    /// The times at which what operations found and wrote fits best.
    pub(crate) fn aligned_times(&self) -> Option<Times> {
        let given = self.given(&[])?;
        let mut alignment = Alignment {
            alloc: self.alloc,
            given: &given,
            lists: Times::even(self.alloc, self.lengths.counts())?.lists,
            longest: given.numbering.longest()?,
            spans: FIRST_SPANS,
        };
        for _ in 0..divisions_of(&given)? {
            for _ in 0..SWEEPS {
                alignment.move_all()?;
            }
            alignment.spans = alignment.spans.saturating_mul(2);
        }
        Some(Times {
            lists: alignment.lists,
            are_aligned: true,
        })
    }
}

impl Alignment<'_> {
    fn move_all(&mut self) -> Option<()> {
        for process in 0..self.given.numbering.procs()? {
            if let Some(first) = self.given.numbering.number(process, 0) {
                self.move_process(process, first)?;
            }
        }
        Some(())
    }

    // Moves the operations of a process, of which this is the first one, to where they fit those of the others best.
    fn move_process(&mut self, process: u32, first: u32) -> Option<()> {
        let count = self.given.numbering.count(process)?;
        let nearby = self.nearby(process)?;
        let mut sums = self.sums_at(first)?;
        let mut ways = Vec::new(self.alloc);
        for x in first..first.checked_add(count)? {
            sums = self.add(&sums, x, &nearby, &mut ways)?;
        }
        let spans = self.best_spans(&sums, first, count, &ways)?;
        self.set_times(process, &spans)
    }

    // What the other processes wrote and found.
    fn nearby(&self, process: u32) -> Option<Nearby> {
        let mut nearby = Nearby::new(self.alloc, self.given, self.spans)?;
        for x in 0..self.given.numbering.len()? {
            let (owner, _) = self.given.numbering.spot(x)?;
            if owner != process {
                nearby.add(self.given, x, self.span(x)?)?;
            }
        }
        nearby.sum_up()?;
        Some(nearby)
    }

    // The span in which an operation was made.
    fn span(&self, x: u32) -> Option<u32> {
        let (process, place) = self.given.numbering.spot(x)?;
        let time = *self.lists.get(process as usize)?.get(place as usize)?;
        let span = u64::from(time).saturating_mul(u64::from(self.spans)) / u64::from(WHOLE_TIME);
        u32::try_from(span).ok()
    }

    // The first span that an operation is moved to, and how many there are from that on.
    fn first_span(&self, x: u32) -> Option<u32> {
        let last = self.spans.saturating_sub(self.width());
        Some(self.span(x)?.saturating_sub(REACH).min(last))
    }

    fn width(&self) -> u32 {
        REACH.saturating_mul(2).min(self.spans)
    }

    // Before this operation, the first one.
    fn sums_at(&self, x: u32) -> Option<Sums> {
        let first = self.first_span(x)?;
        let mut list = Vec::new(self.alloc);
        for span in first..first.checked_add(self.width())? {
            list.push(u64::from(span).saturating_mul(PRICE_OF_SPAN))
                .ok()?;
        }
        Some(Sums { first, list })
    }

    // With one operation more. The ways note, for each of its spans, that of the one before by its place in the list.
    fn add(&self, sums: &Sums, x: u32, nearby: &Nearby, ways: &mut Vec<u8>) -> Option<Sums> {
        let best = self.best_so_far(sums)?;
        let (first, last) = (self.first_span(x)?, self.width().saturating_sub(1));
        let mut list = Vec::new(self.alloc);
        for span in first..first.checked_add(self.width())? {
            let place = span.saturating_sub(sums.first).min(last);
            let (sum, way) = *best.get(place as usize)?;
            let fit = nearby.fit(self.given, x, span)?;
            list.push(fit.saturating_add(sum)).ok()?;
            ways.push(way).ok()?;
        }
        Some(Sums { first, list })
    }

    // For each span the greatest sum up to it, and its place.
    fn best_so_far(&self, sums: &Sums) -> Option<Vec<(u64, u8)>> {
        let mut best = (0, 0);
        let mut list = Vec::new(self.alloc);
        for (place, sum) in sums.list.iter().enumerate() {
            if *sum > best.0 {
                best = (*sum, u8::try_from(place).ok()?);
            }
            list.push(best).ok()?;
        }
        Some(list)
    }

    // The best spans of all operations, from the last one back.
    fn best_spans(&self, sums: &Sums, first: u32, count: u32, ways: &[u8]) -> Option<Vec<u32>> {
        let mut spans = vec![in self.alloc; 0; count as usize].ok()?;
        let mut at = self.best_end(sums)?;
        for place in (0..count).rev() {
            let from = self.first_span(first.checked_add(place)?)?;
            *spans.get_mut(place as usize)? = from.checked_add(at)?;
            let way = place.checked_mul(self.width())?.checked_add(at)?;
            at = u32::from(*ways.get(way as usize)?);
        }
        Some(spans)
    }

    fn best_end(&self, sums: &Sums) -> Option<u32> {
        let (mut best, mut most) = (0, 0);
        for (at, sum) in (0..self.width()).zip(&sums.list) {
            let left = self.spans.saturating_sub(sums.first.saturating_add(at));
            let sum = sum.saturating_add(u64::from(left).saturating_mul(PRICE_OF_SPAN));
            if sum > most {
                (best, most) = (at, sum);
            }
        }
        Some(best)
    }

    // The time of each operation is the mean of the midst of its own span and of those around it.
    fn set_times(&mut self, process: u32, spans: &[u32]) -> Option<()> {
        let radius = (self.longest / self.spans.max(1))
            .saturating_mul(2)
            .max(LEAST_RADIUS) as usize;
        let doubled = u64::from(self.spans).saturating_mul(2).max(1);
        let times = self.lists.get_mut(process as usize)?;
        for (place, time) in times.iter_mut().enumerate() {
            let side = radius
                .min(place)
                .min(spans.len().checked_sub(place)?.checked_sub(1)?);
            let around = spans.get(place.checked_sub(side)?..=place.checked_add(side)?)?;
            let mean = doubled_sum(around)?.saturating_mul(u64::from(WHOLE_TIME)) / doubled;
            *time = u32::try_from(mean.checked_div(around.len() as u64)?).ok()?;
        }
        Some(())
    }
}

// Twice the sum of the middles of these spans.
fn doubled_sum(spans: &[u32]) -> Option<u64> {
    let mut sum: u64 = 0;
    for span in spans {
        sum = sum.saturating_add(u64::from(*span).saturating_mul(2).saturating_add(1));
    }
    Some(sum)
}
