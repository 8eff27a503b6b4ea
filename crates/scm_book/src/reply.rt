//! The replies of the book.
ghost use Rattle.std.specs.Prelude.{◌≡◌, true, IfOk, is_ok};
ghost use Rattle.std.specs.Arc.{arc_value};
ghost use Rattle.scm_book.specs.Machine.{reply_data};
ghost use Rattle.scm_book.specs.Journal.{makes_entry as makes_entry_data};
ghost use Rattle.scm_book.specs.inner.Changes.{tells_of_change};

use scm_cells::Name;
use scm_frontier::Situation;
use scm_orders::Derivation;
use scm_sequences::{NoMemory, Op, Refusal};
use std::alloc::Global;
use std::sync::Arc;

/// An operation as it is shown: with the name of its cell.
#[derive(Clone, Copy, Debug, PartialEq, Eq)]
pub struct Shown {
    pub cell: Name,
    pub op: Op,
}

/// A legal schedule, and what it rests on.
#[derive(Debug, PartialEq, Eq, Drop)]
pub struct Witness {
    /// The process numbers, oldest first.
    pub schedule: Vec<u8>,
    /// What cells must have held at first whose first contents were open, in the order of their declaration.
    pub fixed: Vec<(Name, u64)>,
}

/// What the book answers to a call. What is long is shared by all who keep the reply, and has no room to spare: the journal keeps
/// it to the run's end.
#[derive(Debug, PartialEq, Eq, Drop)]
pub enum Reply {
    Done,
    /// The number of a mark that was set.
    MarkSet(u64),
    /// The trace is consistent, as this shows.
    Consistent(Arc<Witness>),
    /// No legal schedule exists.
    Inconsistent,
    /// More situations can be reached than the trace's budget.
    Undecided,
    /// No legal schedule exists: all situations that can be reached, in order.
    Because(Arc<Vec<Situation>>),
    /// No legal schedule exists: what every one would have to keep, line by line, of which the last puts an operation
    /// before itself.
    Cycle(Arc<Derivation>),
    /// No short refutation was found, which says nothing.
    Unknown,
    /// The operations of a process, in order.
    Ops(Arc<Vec<Shown>>),
    /// The names of the open traces, in the order of their opening.
    Traces(Arc<Vec<Name>>),
    Refused(Refusal),
}

/// The list, to be shared by all who keep it.
pub(crate) fn shared<T: Drop>(alloc: Global, mut list: Vec<T>) -> Result<Arc<Vec<T>>, NoMemory>
    ensures { IfOk result (λ owner. (arc_value owner).items ≡ list.items) }
{
    list.shrink_to_fit();
    Ok(Arc::new(alloc, list)?)
}

impl Reply {
    /// An equal reply, which takes no memory. What is shared already by 2^63 - 1 isn't copied; one that tells of a change always
    /// is.
    pub fn copy(&self) -> Result<Reply, NoMemory>
        ensures copy { IfOk result (λ reply. reply_data reply ≡ reply_data self.now) }
        ensures light { tells_of_change (reply_data self.now) ≡ true → is_ok result ≡ true }
    {
        Ok(match self {
            Reply::Done => Reply::Done,
            Reply::MarkSet(mark) => Reply::MarkSet(*mark),
            Reply::Consistent(witness) => Reply::Consistent(witness.clone()?),
            Reply::Inconsistent => Reply::Inconsistent,
            Reply::Undecided => Reply::Undecided,
            Reply::Because(situations) => Reply::Because(situations.clone()?),
            Reply::Cycle(derivation) => Reply::Cycle(derivation.clone()?),
            Reply::Unknown => Reply::Unknown,
            Reply::Ops(operations) => Reply::Ops(operations.clone()?),
            Reply::Traces(names) => Reply::Traces(names.clone()?),
            Reply::Refused(refusal) => Reply::Refused(*refusal),
        })
    }

    /// Whether a call that is answered so makes an entry of the journal: each does but those refused for want of memory
    /// or for a full journal.
    pub fn makes_entry(&self) -> bool
        ensures { result ≡ makes_entry_data (reply_data self.now) }
    {
        !matches!(
            self,
            Reply::Refused(Refusal::JournalFull | Refusal::NoMemory)
        )
    }
}
