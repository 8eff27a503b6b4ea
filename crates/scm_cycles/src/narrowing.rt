//! What falls off at both ends of what is left for a read, and whether what stays tells something.
use crate::candidates::Bounds;
use crate::search::Search;
use scm_clocks::is_covered;
use scm_sequences::MOST_PROCESSES;

/// How many operations of each process come before some write of the cell that comes before the read, and whether there is
/// such a write.
#[derive(Clone, Copy)]
pub(crate) struct Hidden {
    pub(crate) counts: [u32; MOST_PROCESSES],
    is_written: bool,
}

/// How many operations of each process come before all that is left for a read, and from which place on those of each come after
/// all of it.
#[derive(Clone, Copy)]
pub(crate) struct Around {
    pub(crate) before: [u32; MOST_PROCESSES],
    pub(crate) after: [u32; MOST_PROCESSES],
}

impl Search {
    /// Leaves out what is hidden from the read, what comes after it, and what steps rule out there, at both ends of each
    /// process.
    pub(crate) fn narrow(&mut self, read: u32, cell: u32, value: u32) -> Option<()> {
        let hidden = self.hidden(read, cell)?;
        for (process, count) in (0..self.procs).zip(hidden.counts) {
            self.narrow_process(read, value, process, count)?;
        }
        if self.candidates.is_first_left(read)?
            && (hidden.is_written || !self.may_see_first(read, cell, value)?)
        {
            self.candidates.rule_out_first(read)?;
        }
        Some(())
    }

    // The same in one process, so many of whose operations are hidden.
    fn narrow_process(&mut self, read: u32, value: u32, process: u32, hidden: u32) -> Option<()> {
        let old = self.candidates.get(read, process)?;
        if old.len() == 0 {
            return Some(());
        }
        let start = self.given.numbering.number(process, 0)?;
        let first = start.checked_add(hidden)?;
        let end = start.checked_add(self.after(read, process)?)?;
        let low = self.first_left(old, read, value, first)?;
        let high = self.end_left(Bounds { low, ..old }, read, value, end)?;
        let new = Bounds::new(self.given.writers.of(value)?, low, high)?;
        if new != old {
            self.candidates.set(read, process, new)?;
        }
        Some(())
    }

    /// How much is hidden from a read of a cell.
    pub(crate) fn hidden(&self, read: u32, cell: u32) -> Option<Hidden> {
        let mut hidden = Hidden {
            counts: [0; MOST_PROCESSES],
            is_written: false,
        };
        for process in 0..self.procs {
            if let Some(last) = self.last_write(process, cell, read) {
                hidden.is_written = true;
                raise_to(&mut hidden.counts, self.clocks.row(last)?);
            }
        }
        Some(hidden)
    }

    // Where the first write from `first` on stands that no step rules out.
    fn first_left(&self, bounds: Bounds, read: u32, value: u32, first: u32) -> Option<u32> {
        let writers = self.given.writers.of(value)?;
        for at in bounds.low..bounds.high {
            let write = *writers.get(at as usize)?;
            if write >= first && self.unseen(write, read)?.is_none() {
                return Some(at);
            }
        }
        Some(bounds.high)
    }

    // Where those end that come before `end` and that no step rules out.
    fn end_left(&self, bounds: Bounds, read: u32, value: u32, end: u32) -> Option<u32> {
        let writers = self.given.writers.of(value)?;
        for at in (bounds.low..bounds.high).rev() {
            let write = *writers.get(at as usize)?;
            if write < end && self.unseen(write, read)?.is_none() {
                return at.checked_add(1);
            }
        }
        Some(bounds.low)
    }

    /// What comes before and after all that is left for a read.
    pub(crate) fn around(&self, read: u32) -> Option<Around> {
        let is_first_left = self.candidates.is_first_left(read)?;
        let most = if is_first_left { 0 } else { u32::MAX };
        let mut around = Around {
            before: [most; MOST_PROCESSES],
            after: [0; MOST_PROCESSES],
        };
        for (bounds, process) in self.candidates.row(read)?.iter().zip(0..self.procs) {
            if let Some((first, last)) = bounds.ends {
                self.lower_to(&mut around.before, first, process)?;
                raise_to(&mut around.after, self.afters.row(last)?);
            }
        }
        Some(around)
    }

    // Each count is at most what comes up to an operation of this process.
    fn lower_to(&self, counts: &mut [u32], x: u32, process: u32) -> Option<()> {
        let own = self.up_to(x, process)?.min(*counts.get(process as usize)?);
        for (count, before) in counts.iter_mut().zip(self.clocks.row(x)?) {
            *count = (*count).min(*before);
        }
        *counts.get_mut(process as usize)? = own;
        Some(())
    }

    /// Whether this tells more of the read than is known: that it comes after more, or before another write of the cell.
    pub(crate) fn is_telling(&self, read: u32, cell: u32, around: &Around) -> Option<bool> {
        if !is_covered(&around.before, self.clocks.row(read)?) {
            return Some(true);
        }
        let (owner, _) = self.given.numbering.spot(read)?;
        for (process, place) in (0..self.procs).zip(around.after) {
            let known = self.after(read, process)?;
            if process != owner && self.is_written(process, cell, place, known)? {
                return Some(true);
            }
        }
        Some(false)
    }
}

// Each count is at least what stands in the row.
fn raise_to(counts: &mut [u32], row: &[u32]) {
    for (count, least) in counts.iter_mut().zip(row) {
        *count = (*count).max(*least);
    }
}
