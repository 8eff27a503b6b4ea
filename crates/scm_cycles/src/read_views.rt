//! What a read may see, by what is known of the writes of the value that it found.
use crate::claims::Claim;
use crate::search::Search;

/// Of one process: the last of those writes that is hidden from the read, the first and the last that are left, and the first
/// one that comes after the read; and of those at both ends that a step rules out, where they stand in the list of the value.
#[derive(Clone, Copy)]
pub(crate) struct Share {
    pub(crate) hidden: Option<u32>,
    pub(crate) left: Option<(u32, u32)>,
    pub(crate) later: Option<u32>,
    pub(crate) unseen: [(u32, u32); 2],
}

/// What stands in a list from one place on, before another.
pub(crate) fn part(list: &[u32], from: u32, to: u32) -> &[u32] {
    list.get(from as usize..to as usize).unwrap_or(&[])
}

/// The read, the last write of each process to its cell before it, the shares of the processes that wrote the value, and
/// whether first contents are left.
#[derive(Drop)]
pub(crate) struct ReadView {
    pub(crate) read: u32,
    pub(crate) cell: u32,
    pub(crate) value: u32,
    pub(crate) last_writes: Vec<Option<u32>>,
    pub(crate) shares: Vec<Share>,
    pub(crate) is_first_left: bool,
}

impl Search {
    /// The last write of a process to a cell that is known to come before `x`.
    pub(crate) fn last_write(&self, process: u32, cell: u32, x: u32) -> Option<u32> {
        let at = self
            .given
            .writes
            .before(process, cell, self.before(x, process)?)?;
        self.given.numbering.number(process, at)
    }

    /// What is known of what a read of a value of a cell may see.
    pub(crate) fn view(&self, read: u32, cell: u32, value: u32) -> Option<ReadView> {
        let mut view = ReadView {
            read,
            cell,
            value,
            last_writes: Vec::new(self.alloc),
            shares: Vec::new(self.alloc),
            is_first_left: self.candidates.is_first_left(read)?,
        };
        let hidden = self.hidden(read, cell)?;
        for (process, count) in (0..self.procs).zip(hidden.counts) {
            let last = self.last_write(process, cell, read);
            view.last_writes.push(last).ok()?;
            if let Some(start) = self.given.numbering.number(process, 0) {
                self.add_share(&mut view, process, start, count)?;
            }
        }
        Some(view)
    }

    /// Whether a read of this value may see first contents, where no write is known to come before it.
    pub(crate) fn may_see_first(&self, read: u32, cell: u32, value: u32) -> Option<bool> {
        let told = self.read_facts.first(cell)?.map(|(first, _)| first);
        let known = self.given.values.first(cell)?.or(told);
        Some(known.is_none_or(|first| first == value) && self.unseen_first(read)?.is_none())
    }

    /// The step that tells that the read doesn't see first contents, if there is one.
    pub(crate) fn unseen_first(&self, read: u32) -> Option<Option<u32>> {
        self.step_unseen(Claim::sees_first(read).negation())
    }

    /// The step that tells that the read doesn't see this write, if there is one.
    pub(crate) fn unseen(&self, write: u32, read: u32) -> Option<Option<u32>> {
        self.step_unseen(Claim::sees(write, read).negation())
    }

    fn step_unseen(&self, claim: Claim) -> Option<Option<u32>> {
        for id in self.read_facts.unseen(claim.to)? {
            if self.steps.get(*id)?.claim == claim {
                return Some(Some(*id));
            }
        }
        Some(None)
    }

    // Of a process that begins with this operation, so many of which are hidden.
    fn add_share(&self, view: &mut ReadView, process: u32, start: u32, hidden: u32) -> Option<()> {
        let (owner, at) = self.given.numbering.spot(view.read)?;
        let (later, end) = if owner == process {
            (at, at)
        } else {
            let count = self.given.numbering.count(process)?;
            (self.after(view.read, process)?, count)
        };
        // Where its writes stand in the list of the value: from `begin` to `end`. Those below `low` are hidden, those from
        // `high` on come after the read.
        let writers = &self.given.writers;
        let begin = writers.count(view.value, start)?;
        let low = writers.count(view.value, start.checked_add(hidden)?)?;
        let high = writers.count(view.value, start.checked_add(later)?)?;
        let end = writers.count(view.value, start.checked_add(end)?)?;
        if begin >= end {
            return Some(());
        }
        let bounds = self.candidates.get(view.read, process)?;
        let (from, to) = match bounds.ends {
            Some(_) => (bounds.low, bounds.high),
            None => (high, high),
        };
        let list = writers.of(view.value)?;
        let share = Share {
            hidden: part(list, begin, low).last().copied(),
            left: bounds.ends,
            later: part(list, high, end).first().copied(),
            unseen: [(low, from), (to, high)],
        };
        view.shares.push(share).ok()
    }
}
