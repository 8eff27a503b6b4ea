//! What is to be looked at again.
use scm_clocks::Flags;
use std::alloc::Global;
use std::mem;

/// Operations and reads in the order in which they are looked at: raised ones, reads that see something known, other reads; and
/// what is new of each operation since it was looked at. Nothing is noted before it is said that cases are tried.
#[derive(Drop)]
pub(crate) struct Waiting {
    is_noted: bool,
    /// Operations whose clocks rose.
    pub(crate) raised: Flags,
    settled: Flags,
    open: Flags,
    news: Vec<News>,
}

/// What is new of a read since it was looked at: the processes of which more come before it, a bit each, and whether more may
/// come after what it sees.
#[derive(Clone, Copy)]
pub(crate) struct News {
    processes: u32,
    pub(crate) is_after_source: bool,
}

impl News {
    const NOTHING: News = News {
        processes: 0,
        is_after_source: false,
    };

    const ALL: News = News {
        processes: u32::MAX,
        is_after_source: true,
    };

    /// Whether more of a process come before the read.
    pub(crate) fn has(self, process: u32) -> bool {
        self.processes.checked_shr(process).unwrap_or(0) & 1 == 1
    }

    /// Of how many processes something is new.
    pub(crate) fn count(self, procs: u32) -> u32 {
        if self.is_after_source {
            procs
        } else {
            self.processes.count_ones().min(procs)
        }
    }
}

impl Waiting {
    pub(crate) fn new(alloc: Global, ops: u32) -> Option<Waiting> {
        Some(Waiting {
            is_noted: false,
            raised: Flags::new(alloc, ops)?,
            settled: Flags::new(alloc, ops)?,
            open: Flags::new(alloc, ops)?,
            news: vec![in alloc; News::ALL; ops as usize].ok()?,
        })
    }

    pub(crate) fn note(&mut self) {
        self.is_noted = true;
    }

    pub(crate) fn is_noted(&self) -> bool {
        self.is_noted
    }

    /// More of a process come before this operation.
    pub(crate) fn raised(&mut self, x: u32, process: u32) -> Option<()> {
        if self.is_noted {
            self.news.get_mut(x as usize)?.processes |= 1u32.checked_shl(process)?;
            self.raised.add(x)?;
        }
        Some(())
    }

    /// It is new what the read sees.
    pub(crate) fn settled(&mut self, read: u32) -> Option<()> {
        *self.news.get_mut(read as usize)? = News::ALL;
        if self.is_noted {
            self.settled.add(read)?;
        }
        Some(())
    }

    /// More may come after what the read sees.
    pub(crate) fn source_lowered(&mut self, read: u32) -> Option<()> {
        self.news.get_mut(read as usize)?.is_after_source = true;
        self.settled.add(read)
    }

    /// What is new of a read, which is looked at now.
    pub(crate) fn take_news(&mut self, read: u32) -> Option<News> {
        if !self.is_noted {
            return Some(News::ALL);
        }
        let news = self.news.get_mut(read as usize)?;
        Some(mem::replace(news, News::NOTHING))
    }

    pub(crate) fn touch(&mut self, read: u32, is_settled: bool) -> Option<()> {
        if is_settled {
            self.settled.add(read)
        } else {
            self.open.add(read)
        }
    }

    /// The read that is looked at next.
    pub(crate) fn next_read(&mut self) -> Option<u32> {
        self.settled.next().or_else(|| self.open.next())
    }

    pub(crate) fn clear(&mut self) {
        self.raised.clear();
        self.settled.clear();
        self.open.clear();
    }
}
