//! A schedule that is made window by window: of a long trace only the next operations of each process are looked at, and of
//! their schedule the beginning is kept.
use crate::beginning::Beginning;
use crate::proposal::Proposer;
use crate::skew::SKEWS;
use scm_clocks::Part;
use scm_cycles::Guess;

/// How many operations of each process a window has: so many for each process, within these bounds.
const WIDTH_OF_PROCESS: u32 = 14;

const LEAST_WIDTH: u32 = 64;

const MOST_WIDTH: u32 = 128;

/// How many times as many one has that follows a window without a schedule. It begins earlier.
const WIDENING: u32 = 2;

/// By which part of the first skew those of windows grow: by more than for a whole trace, since it isn't known how far each
/// process is ahead where a window begins.
const WINDOW_SKEW_DIVISOR: u64 = 3;

/// Of how many sixteenths of a window it is checked what they found, and how many are kept at first, in the mean of all processes.
/// What lies between is looked ahead.
const CHECKED: u32 = 10;

const KEPT: u32 = 7;

/// How many shares take turns: each time that a widened window has no schedule, the next ones keep a sixteenth less, and after the
/// least share as much as at first. So they begin elsewhere than those that led there.
const SHARES: u32 = 4;

const SIXTEENTHS: u32 = 16;

/// The fuel for each operation of a window, at most.
const WINDOW_FUEL: u64 = 2_000;

/// For how many windows a trace is long enough (in shorter ones of two values they find less than the search that comes after
/// them), and for how many processes they cost less than the trace as a whole.
const LEAST_WINDOWS: u32 = 3;

const MOST_PROCESSES_OF_WINDOWS: usize = 16;

/// What was made so far, how wide the next window is, the number of the first skew that is supposed there, and how many widened
/// windows had no schedule.
#[derive(Drop)]
struct WindowProgress {
    beginning: Beginning,
    schedule: Vec<u8>,
    width: u32,
    skew_number: u64,
    failed: u32,
}

impl WindowProgress {
    // Where the next window ends.
    fn ends(&self, proposer: &Proposer) -> Option<Vec<u32>> {
        let mut ends = Vec::new(proposer.alloc);
        for (made, count) in self.beginning.counts.iter().zip(proposer.lengths.counts()) {
            let end = made.saturating_add(self.width).min(*count);
            ends.push(end).ok()?;
        }
        Some(ends)
    }

    // How many places of the schedule of a window are kept.
    fn kept(&self) -> usize {
        let share = KEPT.saturating_sub(self.failed % SHARES);
        let places = self.width.saturating_mul(share) / SIXTEENTHS;
        (places as usize).saturating_mul(self.beginning.counts.len())
    }

    // Keeps these places as far as they are legal. Whether there are any.
    fn keep(&mut self, proposer: &Proposer, places: &[u8]) -> Option<bool> {
        let before = self.beginning.made();
        self.beginning
            .follow(proposer.sequences, proposer.lengths, places);
        let made = self.beginning.made().saturating_sub(before);
        self.schedule.extend_from_slice(places.get(..made)?).ok()?;
        Some(made > 0)
    }
}

impl Proposer<'_> {
    /// Whether windows are made: the trace is long and has few processes.
    pub(crate) fn has_windows(&self) -> Option<bool> {
        let longest = self.lengths.counts().iter().copied().max()?;
        let least = self.window_width()?.saturating_mul(LEAST_WINDOWS);
        Some(self.lengths.procs() <= MOST_PROCESSES_OF_WINDOWS && longest >= least)
    }

    /// A schedule of a trace where windows are made, none of whose processes gets far ahead of the others.
    pub(crate) fn complete_by_windows(&self, fuel: &mut u64) -> Option<Vec<u8>> {
        let width = self.window_width()?;
        let mut progress = WindowProgress {
            beginning: self.beginning(&[])?,
            schedule: Vec::new(self.alloc),
            width,
            skew_number: 0,
            failed: 0,
        };
        for _ in 0..*fuel {
            if progress.beginning.left(self.lengths) == 0 {
                return Some(progress.schedule);
            }
            if self.add_window(&mut progress, fuel)? {
                progress.width = width;
            } else {
                self.go_back(&mut progress, fuel)?;
            }
        }
        None
    }

    fn window_width(&self) -> Option<u32> {
        let procs = u32::try_from(self.lengths.procs()).ok()?;
        let width = procs.saturating_mul(WIDTH_OF_PROCESS);
        Some(width.clamp(LEAST_WIDTH, MOST_WIDTH))
    }

    // Adds the schedule of the next window, as far as it is kept. Whether there is one.
    fn add_window(&self, progress: &mut WindowProgress, fuel: &mut u64) -> Option<bool> {
        let ends = progress.ends(self)?;
        let is_last = ends.as_slice() == self.lengths.counts();
        let checked = if is_last {
            u32::MAX
        } else {
            progress.width.saturating_mul(CHECKED) / SIXTEENTHS
        };
        let part = self.part(&progress.beginning, ends.as_slice(), checked);
        let Some((guess, skew_number)) = self.window_guess(&part, progress.skew_number, fuel) else {
            return Some(false);
        };
        progress.skew_number = skew_number;
        let Some(places) = self.complete_by(guess, fuel) else {
            return Some(false);
        };
        let kept = if is_last {
            places.len()
        } else {
            progress.kept().min(places.len())
        };
        progress.keep(self, places.get(..kept)?)
    }

    // What reads see in a window, under the skews from this one on.
    fn window_guess(&self, part: &Part, skew_number: u64, fuel: &mut u64) -> Option<(Guess, u64)> {
        *fuel = fuel.checked_sub(part.size())?;
        let ops = part.size() / (part.ends.len() as u64).max(1);
        let most = ops.saturating_mul(WINDOW_FUEL).min(*fuel);
        let mut left = most;
        let guess = self.guess(
            part,
            skew_number..SKEWS,
            self.base(WINDOW_SKEW_DIVISOR),
            &mut left,
        );
        *fuel = fuel.saturating_sub(most.saturating_sub(left));
        guess
    }

    // Takes back as many places as are kept of a window, for a widened one. `None` where the first was widened already.
    fn go_back(&self, progress: &mut WindowProgress, fuel: &mut u64) -> Option<()> {
        let widened = self.window_width()?.saturating_mul(WIDENING);
        let is_widened = progress.width == widened;
        if is_widened && progress.schedule.is_empty() {
            return None;
        }
        let kept = progress.schedule.len().saturating_sub(progress.kept());
        *fuel = fuel.checked_sub(kept as u64)?;
        progress.schedule.truncate(kept);
        progress.beginning = self.beginning(progress.schedule.as_slice())?;
        progress.failed = progress.failed.saturating_add(u32::from(is_widened));
        progress.width = widened;
        progress.skew_number = 0;
        Some(())
    }
}
