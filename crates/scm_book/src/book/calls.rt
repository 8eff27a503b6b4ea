//! The calls of the book, one by one.
ghost use Rattle.std.specs.Prelude.{◌≡◌, ◌+◌, ◌-◌};
ghost use Rattle.scm_book.specs.Machine.{reply_data, opens, claims, releases, reports, sets_mark, goes_back, raises, asks, asks_why, asks_cycle, shows, lists, closes};
ghost use Rattle.scm_book.specs.inner.Sets.{HasRoomFor, SearchesSet};
ghost use Rattle.scm_results.specs.Totals.{capped};
ghost use Rattle.scm_book.specs.Journal.{IsCall, IsLegalBook};

use super::Book;
use crate::{Call, Decl, Outlook, Reply};
use scm_cells::Name;
use scm_frontier::Steps;
use scm_lowering::Access;

impl Book {
    /// Opens a trace, which the session owns. Refused `BadDeclaration` where the number of processes isn't 1 to
    /// `MOST_PROCESSES`, the number of cells isn't 1 to `MOST_CELLS`, two cells have one name or a number doesn't fit its
    /// cell; then `BadBudget`, `NameTaken`, `TooManyTraces`.
    pub fn open(
        &mut self,
        session: u16,
        name: Name,
        procs: u64,
        budget: u64,
        cells: Vec<Decl>,
    ) -> Reply
        ensures called { IsCall self.old session (opens name procs budget cells.items) (reply_data result) self.new }
        ensures legal { IsLegalBook self.new }
    {
        self.call(
            session,
            Call::OpenTrace {
                name,
                procs,
                budget,
                cells,
            },
        )
    }

    /// Claims a process for the session. Refused `NoSuchTrace`, `NoSuchProcess`, `ProcessTaken`.
    pub fn claim(&mut self, session: u16, name: Name, process: u64) -> Reply
        ensures called { IsCall self.old session (claims name process) (reply_data result) self.new }
        ensures legal { IsLegalBook self.new }
    {
        self.call(session, Call::ClaimProcess { name, process })
    }

    /// Gives up a process that the session claimed. Refused `NoSuchTrace`, `NoSuchProcess`, `NotClaimed`.
    pub fn release(&mut self, session: u16, name: Name, process: u64) -> Reply
        ensures called { IsCall self.old session (releases name process) (reply_data result) self.new }
        ensures legal { IsLegalBook self.new }
    {
        self.call(session, Call::ReleaseProcess { name, process })
    }

    /// Adds the operation that an access is to the sequence of a process, in amortized constant time. Refused
    /// `NoSuchTrace`, `NoSuchProcess`, `NotClaimed`, `NoSuchCell`, `WidthMismatch`, `ValueOutOfRange`, `SequenceFull`.
    pub fn report(&mut self, session: u16, name: Name, process: u64, access: &Access) -> Reply
        ensures called { IsCall self.old session (reports name process access.now) (reply_data result) self.new }
        ensures legal { IsLegalBook self.new }
    {
        self.call(
            session,
            Call::Report {
                name,
                process,
                access: *access,
            },
        )
    }

    /// Marks the present lengths of a trace; the reply is the number of the mark. Refused `NoSuchTrace`, `NotOwner`,
    /// `TooManyMarks`.
    pub fn mark(&mut self, session: u16, name: Name) -> Reply
        ensures called { IsCall self.old session (sets_mark name) (reply_data result) self.new }
        ensures legal { IsLegalBook self.new }
    {
        self.call(session, Call::SetMark { name })
    }

    /// Cuts every sequence of a trace to a mark and drops the marks after it; claims and budget stay. Refused
    /// `NoSuchTrace`, `NotOwner`, `NoSuchMark`.
    pub fn back(&mut self, session: u16, name: Name, mark: u64) -> Reply
        ensures called { IsCall self.old session (goes_back name mark) (reply_data result) self.new }
        ensures legal { IsLegalBook self.new }
    {
        self.call(session, Call::GoBack { name, mark })
    }

    /// Raises the budget of a trace; the present number itself is taken. Refused `NoSuchTrace`, `NotOwner`, `BadBudget`.
    pub fn raise(&mut self, session: u16, name: Name, budget: u64) -> Reply
        ensures called { IsCall self.old session (raises name budget) (reply_data result) self.new }
        ensures legal { IsLegalBook self.new }
    {
        self.call(session, Call::RaiseBudget { name, budget })
    }

    /// Whether the trace is sequentially consistent, as it is or as it stood at a mark. Refused `NoSuchTrace`,
    /// `NoSuchMark`. The counter needs room, as `has_room` says; what it rises by is counted in the book's total too. What
    /// was found out stays for the next questions, and isn't paid for again: at most two steps more are made than pairs of
    /// a situation and a process are looked at for the first time, and none where a situation with every operation is held
    /// or all was looked at, as it is once the same question was refuted.
    pub fn ask(&mut self, session: u16, name: Name, mark: Option<u64>, steps: &mut Steps) -> Reply
        requires room { HasRoomFor self.old.machine name steps.old }
        ensures called { IsCall self.old session (asks name mark) (reply_data result) self.new }
        ensures work { SearchesSet self.old.machine self.old.sets name mark (reply_data result) steps.old steps.new self.new.sets }
        ensures counted { self.new.steps ≡ capped (self.old.steps + (steps.new - steps.old)) }
        ensures legal { IsLegalBook self.new }
    {
        self.make(session, Call::Ask { name, mark }, Outlook::Unknown, steps)
    }

    /// The same, with a refutation in place of `Inconsistent`. Refused `NoSuchTrace`, `NoSuchMark`.
    pub fn why(&mut self, session: u16, name: Name, mark: Option<u64>, steps: &mut Steps) -> Reply
        requires room { HasRoomFor self.old.machine name steps.old }
        ensures called { IsCall self.old session (asks_why name mark) (reply_data result) self.new }
        ensures work { SearchesSet self.old.machine self.old.sets name mark (reply_data result) steps.old steps.new self.new.sets }
        ensures counted { self.new.steps ≡ capped (self.old.steps + (steps.new - steps.old)) }
        ensures legal { IsLegalBook self.new }
    {
        self.make(session, Call::Why { name, mark }, Outlook::Unknown, steps)
    }

    /// A short refutation of the trace, as it is or as it stood at a mark: orders that every legal schedule would have to
    /// keep, of which the last puts an operation before itself. `Unknown` where none is found, which says nothing: so it is
    /// where the trace is consistent. It makes no step and leaves alone what questions found out. Refused `NoSuchTrace`,
    /// `NoSuchMark`.
    pub fn cycle(&mut self, session: u16, name: Name, mark: Option<u64>) -> Reply
        ensures called { IsCall self.old session (asks_cycle name mark) (reply_data result) self.new }
        ensures legal { IsLegalBook self.new }
    {
        self.call(session, Call::Cycle { name, mark })
    }

    /// The operations of a process, as they are stored. Refused `NoSuchTrace`, `NoSuchProcess`.
    pub fn show(&mut self, session: u16, name: Name, process: u64) -> Reply
        ensures called { IsCall self.old session (shows name process) (reply_data result) self.new }
        ensures legal { IsLegalBook self.new }
    {
        self.call(session, Call::ShowOps { name, process })
    }

    /// The names of the open traces, in the order of their opening.
    pub fn list(&mut self, session: u16) -> Reply
        ensures called { IsCall self.old session lists (reply_data result) self.new }
        ensures legal { IsLegalBook self.new }
    {
        self.call(session, Call::ListTraces)
    }

    /// Closes a trace; the others keep their order. Refused `NoSuchTrace`, `NotOwner`.
    pub fn close(&mut self, session: u16, name: Name) -> Reply
        ensures called { IsCall self.old session (closes name) (reply_data result) self.new }
        ensures legal { IsLegalBook self.new }
    {
        self.call(session, Call::CloseTrace { name })
    }
}
