//! A proposal for a schedule.
use crate::alignment::price_of_aligning;
use crate::beginning::Beginning;
use crate::fuel::{fuel_after_walks, fuel_of_search};
use crate::guessing::price_of;
use crate::guided_walk::GuidedWalk;
use crate::order::Order;
use crate::skew::{Base, SKEWS};
use crate::sources::with_single_sources;
use scm_clocks::{Clocks, Given, Part, Times};
use scm_cycles::Guess;
use scm_sequences::{Lengths, Sequences};
use std::alloc::Global;

/// How many visits a walk makes at least where it makes no more operations than before, and for how many situations of the limit
/// it makes one more if all sources are known: one costs about as much as a situation that is searched. If not, there are no more,
/// since a search finds more with the fuel.
const SITUATIONS_OF_PATIENCE: usize = 8;

const LEAST_PATIENCE: u64 = 10_000;

/// How many writes are few that wrote what a read found, and which part of the fuel a search gets before turns and windows where
/// most reads have no more.
const FEW_WRITERS: usize = 5;

const FIRST_PARTS: u64 = 3;

/// By which part of the first skew those of a whole trace grow.
const SKEW_DIVISOR: u64 = 5;

/// How many values a cell has at least, in the mean, of a trace whose times are aligned; which part of the fuel that burns at most,
/// with windows and without; and which part a search by even times gets before.
const LEAST_VALUES: u32 = 4;

const ALIGNING_PARTS_OF_WINDOWS: u64 = 2;

const ALIGNING_PARTS: u64 = 8;

const EVEN_PARTS: u64 = 8;

/// How many places of an earlier schedule are put together anew when all of it can't be kept: at first so many, then
/// each time so many times more.
const SHORTEST_TAIL: usize = 64;

const GROWTH: usize = 4;

/// A trace that a schedule is looked for.
#[derive(Drop)]
pub(crate) struct Proposer<'a> {
    pub(crate) alloc: Global,
    pub(crate) initials: &'a [Option<u64>],
    pub(crate) sequences: &'a Sequences,
    pub(crate) lengths: &'a Lengths,
    limit: usize,
    times: Times,
}

/// A schedule for the trace with these first contents (`None` is an open cell) and these sequences, cut to these
/// lengths, or `None` where none was found: after so many steps for each operation, where no schedule exists as far as
/// was seen, and where memory is refused. Nothing is promised of it: `is_legal` tells whether it is one.
///
/// `earlier` may be any list of process numbers. As far as it is a legal schedule it is gone on from: a schedule of what
/// the trace was before, or at a mark, makes the way short. `limit` is how many situations a search may hold, and `room`
/// how many of them it may still look at: with few of the one walks give up sooner, with few of the other all else does.
pub fn propose(
    alloc: Global,
    initials: &[Option<u64>],
    sequences: &Sequences,
    lengths: &Lengths,
    earlier: &[u8],
    limit: usize,
    room: usize,
) -> Option<Vec<u8>> {
    match propose_by_walks(alloc, initials, sequences, lengths, earlier, limit, room) {
        Ok(schedule) => Some(schedule),
        Err(fuel) => propose_by_search(alloc, initials, sequences, lengths, limit, fuel),
    }
}

/// The same, by walks alone. Where they find none, what they leave of the fuel for `propose_by_search`: nothing where no
/// schedule exists as far as was seen, and where memory is refused.
pub fn propose_by_walks(
    alloc: Global,
    initials: &[Option<u64>],
    sequences: &Sequences,
    lengths: &Lengths,
    earlier: &[u8],
    limit: usize,
    room: usize,
) -> Result<Vec<u8>, u64> {
    let proposer = Proposer {
        alloc,
        initials,
        sequences,
        lengths,
        limit,
        times: Times::none(alloc),
    };
    proposer.complete_earlier(earlier, fuel_of_search(lengths, room))
}

/// The same after walks, with this fuel: in long turns, or else window by window, or else by a walk in which each read has the
/// source that a search chose. That comes first, with a part of the fuel, before windows where few writes wrote what most reads
/// found, and before times are aligned where there are no windows.
pub fn propose_by_search(
    alloc: Global,
    initials: &[Option<u64>],
    sequences: &Sequences,
    lengths: &Lengths,
    limit: usize,
    fuel: u64,
) -> Option<Vec<u8>> {
    if fuel == 0 {
        return None;
    }
    let mut proposer = Proposer {
        alloc,
        initials,
        sequences,
        lengths,
        limit,
        times: Times::even(alloc, lengths.counts())?,
    };
    proposer.complete_by_search(fuel)
}

impl Proposer<'_> {
    /// What these places make, as far as they are legal.
    pub(crate) fn beginning(&self, places: &[u8]) -> Option<Beginning> {
        let mut beginning = Beginning::new(self.alloc, self.initials, self.lengths.procs())?;
        beginning.follow(self.sequences, self.lengths, places);
        Some(beginning)
    }

    /// The operations after a beginning and up to these ends, of which so many are checked.
    pub(crate) fn part<'b>(
        &'b self,
        beginning: &'b Beginning,
        ends: &'b [u32],
        checked: u32,
    ) -> Part<'b> {
        Part {
            contents: beginning.contents.as_slice(),
            sequences: self.sequences,
            made: beginning.counts.as_slice(),
            ends,
            checked,
            times: &self.times,
        }
    }

    /// All operations after these places of a schedule.
    pub(crate) fn given(&self, kept: &[u8]) -> Option<Given> {
        let beginning = self.beginning(kept)?;
        let part = self.part(&beginning, self.lengths.counts(), u32::MAX);
        Given::new(self.alloc, &part)
    }

    /// A schedule that goes on from the earlier one as far as that is legal, or else from less and less of it, at last from
    /// nothing; or what is left of the fuel: nothing where no schedule exists as far as was seen.
    fn complete_earlier(&self, earlier: &[u8], mut fuel: u64) -> Result<Vec<u8>, u64> {
        let longest = self.beginning(earlier).ok_or(0u64)?;
        let mut tail = 0;
        for _ in 0..usize::BITS {
            let kept = earlier
                .get(..longest.made().saturating_sub(tail))
                .ok_or(0u64)?;
            if kept.is_empty() {
                break;
            }
            if let Some(mut walk) = self.walk(kept)
                && let Some(schedule) = self.complete(kept, &mut walk, &mut fuel)
            {
                return Ok(schedule);
            }
            tail = tail
                .saturating_mul(GROWTH)
                .max(longest.left(self.lengths))
                .max(SHORTEST_TAIL);
        }
        let mut walk = self.walk(&[]).ok_or(0u64)?;
        match self.complete(&[], &mut walk, &mut fuel) {
            Some(schedule) => Ok(schedule),
            None if walk.farthest > 0 => Err(fuel),
            None => Err(0),
        }
    }

    /// A schedule that is made from nothing, by all but a walk alone.
    fn complete_by_search(&mut self, fuel: u64) -> Option<Vec<u8>> {
        let all = fuel_after_walks(self.lengths, self.initials.len(), fuel);
        let mut left = all;
        let has_windows = self.has_windows()?;
        let alignment = self.alignment(has_windows, fuel)?;
        let mut part = if has_windows && self.has_few_writers()? {
            all / FIRST_PARTS
        } else if !has_windows && alignment.is_some() {
            fuel / EVEN_PARTS
        } else {
            0
        };
        left = left.saturating_sub(part);
        if let Some(schedule) = self.complete_by_sources(&mut part) {
            return Some(schedule);
        }
        left = left.saturating_add(part);
        if let Some(schedule) = self.complete_by_turns(&mut left) {
            return Some(schedule);
        }
        if let Some(price) = alignment {
            left = left.saturating_sub(price);
            self.times = self.aligned_times()?;
        }
        if has_windows && let Some(schedule) = self.complete_by_windows(&mut left) {
            return Some(schedule);
        }
        let burnt = all.saturating_sub(left);
        let mut rest = fuel.saturating_sub(burnt);
        self.complete_by_sources(&mut rest)
    }

    // From which times skews are reckoned.
    pub(crate) fn base(&self, divisor: u64) -> Base {
        if self.times.are_aligned {
            Base::Aligned
        } else {
            Base::Even { divisor }
        }
    }

    // What it burns to align times, if they are to be aligned: where cells have several values, but too few for the number of
    // processes, and little of the fuel is burnt.
    fn alignment(&self, has_windows: bool, fuel: u64) -> Option<Option<u64>> {
        let procs = u32::try_from(self.lengths.procs()).ok()?;
        let (end, parts) = if has_windows {
            (procs.saturating_mul(3) / 4, ALIGNING_PARTS_OF_WINDOWS)
        } else {
            (procs.saturating_mul(2), ALIGNING_PARTS)
        };
        let given = self.given(&[])?;
        if !(LEAST_VALUES..end).contains(&given.values_of_cell()?) {
            return Some(None);
        }
        let price = price_of_aligning(&given)?;
        Some((price <= fuel / parts).then_some(price))
    }

    // A schedule by a walk in which each read has the source that a search chose. The search's orders aren't kept, since they may
    // need its skew.
    fn complete_by_sources(&self, fuel: &mut u64) -> Option<Vec<u8>> {
        let nothing = self.beginning(&[])?;
        let part = self.part(&nothing, self.lengths.counts(), u32::MAX);
        let guess = self
            .guess(&part, 0..SKEWS + 1, self.base(SKEW_DIVISOR), fuel)?
            .0;
        let clocks = Clocks::new(self.alloc, &guess.given.numbering)?;
        self.complete_by(Guess { clocks, ..guess }, fuel)
    }

    // Whether half of the reads at least found what few writes wrote.
    fn has_few_writers(&self) -> Option<bool> {
        let given = self.given(&[])?;
        let (mut reads, mut few) = (0u32, 0u32);
        for x in 0..given.numbering.len()? {
            if let Some(value) = given.values.found(x) {
                reads = reads.saturating_add(1);
                if given.writers.of(value)?.len() <= FEW_WRITERS {
                    few = few.saturating_add(1);
                }
            }
        }
        Some(few >= reads / 2)
    }

    /// A walk that goes on from these places.
    fn walk(&self, kept: &[u8]) -> Option<GuidedWalk> {
        let given = self.given(kept)?;
        let clocks = Clocks::new(self.alloc, &given.numbering)?;
        let guess = with_single_sources(self.alloc, given, clocks)?;
        self.walk_by(guess)
    }

    // A walk in which reads have these sources, and that keeps these orders.
    fn walk_by(&self, guess: Guess) -> Option<GuidedWalk> {
        let order = Order::new(self.alloc, guess)?;
        let more = if order.facts.are_sources_known {
            self.limit / SITUATIONS_OF_PATIENCE
        } else {
            0
        };
        let patience = LEAST_PATIENCE.saturating_add(more as u64);
        GuidedWalk::new(self.alloc, order, patience)
    }

    /// A schedule of a part in which each read has the source that was guessed, and that keeps the guessed orders.
    pub(crate) fn complete_by(&self, guess: Guess, fuel: &mut u64) -> Option<Vec<u8>> {
        let mut walk = self.walk_by(guess)?;
        self.complete(&[], &mut walk, fuel)
    }

    /// These places of a schedule, and then the walk, if it comes to its end: that burns fuel of the search.
    fn complete(&self, kept: &[u8], walk: &mut GuidedWalk, fuel: &mut u64) -> Option<Vec<u8>> {
        let end = walk.make_all();
        *fuel = fuel.saturating_sub(price_of(walk.order.visits, &walk.order));
        end?;
        let mut schedule = kept.to_vec(self.alloc).ok()?;
        walk.add_to(&mut schedule)?;
        Some(schedule)
    }
}
