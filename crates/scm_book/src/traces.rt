//! The open traces: the machine that a book stands for.
ghost use Rattle.std.specs.Prelude.{◌≡◌, ◌↔◌, [], is_ok, IfOk, IfErr, IsTrue};
ghost use Rattle.std.specs.Arc.{arc_value};
ghost use Rattle.std.specs.Map.{remove_entry};
ghost use Rattle.indexmap.specs.IndexMap.{insert_entry};
ghost use Rattle.scm_cells.specs.CellLists.{name_eq};
ghost use Rattle.scm_book.specs.Machine.{call_data, reply_data, opens, claims, releases, reports, sets_mark, goes_back, raises, asks, asks_why, asks_cycle, shows, lists, closes, trace_names, place_cause, IsStepOrNoMemory};
ghost use Rattle.scm_book.specs.inner.Plans.{IsKnown, known_reply};
ghost use Rattle.scm_book.specs.inner.Sets.{machine_in, sets_in, HasRoom, HasRoomFor, HoldsFor, IfDone, HasNewSet, CutsSet, SearchesSet, LeavesSets};

mod lending;
mod working;

use crate::open_trace::OpenTrace;
use crate::{Call, Decl, Outlook, Reply};
use indexmap::IndexMap;
use scm_cells::Name;
use scm_frontier::Steps;
use scm_lowering::Access;
use scm_sequences::{MOST_TRACES, NoMemory, Refusal};
use std::alloc::{AllocFailed, Global};
use std::marker::Model;
use std::sync::Arc;

/// The open traces, by name, in the order of their opening, each with the set that is kept for it.
///
/// A session is a number that the caller gives. Each call answers what the machine answers, or `Refused(NoMemory)` with
/// the machine as it was.
#[derive(Drop)]
pub(crate) struct Traces {
    alloc: Global,
    traces: IndexMap<Name, OpenTrace>,
}

impl Model for Traces {
    ghost use Rattle.std.specs.Prelude.{ℕ, List};
    ghost use Rattle.scm_book.specs.inner.Sets.{KeptTrace};

    ghost Value = { List (List ℕ × KeptTrace) };

    ghost view = { λ t. t.traces.entries };
}

/// Whether the trace was put into the map. What comes back is dropped here: in the caller, LLVM took a fifth of the time in which
/// it compiles the program.
#[inline(never)]
fn is_put(put: Result<Option<OpenTrace>, AllocFailed<(Name, OpenTrace)>>) -> bool
    ensures { result ≡ is_ok put }
{
    let is_put = put.is_ok();
    drop(put);
    is_put
}

impl Traces {
    /// No traces.
    pub(crate) fn new(alloc: Global) -> Traces
        ensures { result ≡ [] }
    {
        Traces {
            alloc,
            traces: IndexMap::new(alloc),
        }
    }

    fn open(&mut self, session: u16, name: Name, procs: u64, budget: u64, cells: &[Decl]) -> Reply
        ensures step { IsStepOrNoMemory (machine_in self.old) session (opens name procs budget cells.now) (reply_data result) (machine_in self.new) }
        ensures sets { IfDone (reply_data result) (HasNewSet (sets_in self.old) name (sets_in self.new)) (sets_in self.new ≡ sets_in self.old) }
    {
        let trace = match OpenTrace::new(self.alloc, session, procs, budget, cells) {
            Ok(trace) => trace,
            Err(refusal) => return Reply::Refused(refusal),
        };
        if let Some(refusal) = self.place_refusal(&name) {
            drop(trace);
            return Reply::Refused(refusal);
        }
        match self.put(name, trace) {
            Ok(()) => Reply::Done,
            Err(NoMemory) => Reply::Refused(Refusal::NoMemory),
        }
    }

    /// Why there is no place for a trace of this name, where there is none.
    fn place_refusal(&self, name: &Name) -> Option<Refusal>
        ensures { result ≡ place_cause (machine_in self.now) name.now }
    {
        if self.traces.contains_key(name) {
            return Some(Refusal::NameTaken);
        }
        if self.traces.len() >= MOST_TRACES {
            return Some(Refusal::TooManyTraces);
        }
        None
    }

    /// Puts the trace under this name.
    fn put(&mut self, name: Name, trace: OpenTrace) -> Result<(), NoMemory>
        ensures put { IfOk result (λ _. self.new ≡ insert_entry name_eq self.old name trace) }
        ensures kept { IfErr result (λ _. self.new ≡ self.old) }
    {
        if is_put(self.traces.insert(name, trace)) {
            Ok(())
        } else {
            Err(NoMemory)
        }
    }

    fn claim(&mut self, session: u16, name: Name, process: u64) -> Reply
        ensures step { IsStepOrNoMemory (machine_in self.old) session (claims name process) (reply_data result) (machine_in self.new) }
        ensures sets { sets_in self.new ≡ sets_in self.old }
    {
        let Some(trace) = self.traces.get_mut(&name) else {
            return Reply::Refused(Refusal::NoSuchTrace);
        };
        match trace.claim(session, process) {
            Ok(()) => Reply::Done,
            Err(refusal) => Reply::Refused(refusal),
        }
    }

    fn release(&mut self, session: u16, name: Name, process: u64) -> Reply
        ensures step { IsStepOrNoMemory (machine_in self.old) session (releases name process) (reply_data result) (machine_in self.new) }
        ensures sets { sets_in self.new ≡ sets_in self.old }
    {
        let Some(trace) = self.traces.get_mut(&name) else {
            return Reply::Refused(Refusal::NoSuchTrace);
        };
        match trace.release(session, process) {
            Ok(()) => Reply::Done,
            Err(refusal) => Reply::Refused(refusal),
        }
    }

    fn report(&mut self, session: u16, name: Name, process: u64, access: &Access) -> Reply
        ensures step { IsStepOrNoMemory (machine_in self.old) session (reports name process access.now) (reply_data result) (machine_in self.new) }
        ensures sets { sets_in self.new ≡ sets_in self.old }
    {
        let Some(trace) = self.traces.get_mut(&name) else {
            return Reply::Refused(Refusal::NoSuchTrace);
        };
        match trace.report(session, process, access) {
            Ok(()) => Reply::Done,
            Err(refusal) => Reply::Refused(refusal),
        }
    }

    fn mark(&mut self, session: u16, name: Name) -> Reply
        ensures step { IsStepOrNoMemory (machine_in self.old) session (sets_mark name) (reply_data result) (machine_in self.new) }
        ensures sets { sets_in self.new ≡ sets_in self.old }
    {
        let Some(trace) = self.traces.get_mut(&name) else {
            return Reply::Refused(Refusal::NoSuchTrace);
        };
        match trace.mark(session) {
            Ok(mark) => Reply::MarkSet(mark),
            Err(refusal) => Reply::Refused(refusal),
        }
    }

    fn back(&mut self, session: u16, name: Name, mark: u64) -> Reply
        ensures step { IsStepOrNoMemory (machine_in self.old) session (goes_back name mark) (reply_data result) (machine_in self.new) }
        ensures sets { IfDone (reply_data result) (CutsSet (machine_in self.old) (sets_in self.old) name mark (sets_in self.new)) (sets_in self.new ≡ sets_in self.old) }
    {
        let Some(trace) = self.traces.get_mut(&name) else {
            return Reply::Refused(Refusal::NoSuchTrace);
        };
        match trace.back(session, mark) {
            Ok(()) => Reply::Done,
            Err(refusal) => Reply::Refused(refusal),
        }
    }

    fn raise(&mut self, session: u16, name: Name, budget: u64) -> Reply
        ensures step { IsStepOrNoMemory (machine_in self.old) session (raises name budget) (reply_data result) (machine_in self.new) }
        ensures sets { sets_in self.new ≡ sets_in self.old }
    {
        let Some(trace) = self.traces.get_mut(&name) else {
            return Reply::Refused(Refusal::NoSuchTrace);
        };
        match trace.raise(session, budget) {
            Ok(()) => Reply::Done,
            Err(refusal) => Reply::Refused(refusal),
        }
    }

    fn ask(
        &mut self,
        session: u16,
        name: Name,
        mark: Option<u64>,
        is_near: bool,
        steps: &mut Steps,
    ) -> Reply
        requires room { HasRoomFor (machine_in self.old) name steps.old }
        ensures step { IsStepOrNoMemory (machine_in self.old) session (asks name mark) (reply_data result) (machine_in self.new) }
        ensures sets { SearchesSet (machine_in self.old) (sets_in self.old) name mark (reply_data result) steps.old steps.new (sets_in self.new) }
    {
        let Some(trace) = self.traces.get_mut(&name) else {
            return Reply::Refused(Refusal::NoSuchTrace);
        };
        match trace.ask(self.alloc, mark, is_near, steps) {
            Ok(verdict) => verdict,
            Err(refusal) => Reply::Refused(refusal),
        }
    }

    fn why(
        &mut self,
        session: u16,
        name: Name,
        mark: Option<u64>,
        is_near: bool,
        steps: &mut Steps,
    ) -> Reply
        requires room { HasRoomFor (machine_in self.old) name steps.old }
        ensures step { IsStepOrNoMemory (machine_in self.old) session (asks_why name mark) (reply_data result) (machine_in self.new) }
        ensures sets { SearchesSet (machine_in self.old) (sets_in self.old) name mark (reply_data result) steps.old steps.new (sets_in self.new) }
    {
        let Some(trace) = self.traces.get_mut(&name) else {
            return Reply::Refused(Refusal::NoSuchTrace);
        };
        match trace.why(self.alloc, mark, is_near, steps) {
            Ok(verdict) => verdict,
            Err(refusal) => Reply::Refused(refusal),
        }
    }

    fn cycle(&mut self, session: u16, name: Name, mark: Option<u64>) -> Reply
        ensures step { IsStepOrNoMemory (machine_in self.old) session (asks_cycle name mark) (reply_data result) (machine_in self.new) }
        ensures sets { sets_in self.new ≡ sets_in self.old }
    {
        let Some(trace) = self.traces.get(&name) else {
            return Reply::Refused(Refusal::NoSuchTrace);
        };
        match trace.cycle(self.alloc, mark) {
            Ok(reply) => reply,
            Err(refusal) => Reply::Refused(refusal),
        }
    }

    fn show(&mut self, session: u16, name: Name, process: u64) -> Reply
        ensures step { IsStepOrNoMemory (machine_in self.old) session (shows name process) (reply_data result) (machine_in self.new) }
        ensures sets { sets_in self.new ≡ sets_in self.old }
    {
        let Some(trace) = self.traces.get(&name) else {
            return Reply::Refused(Refusal::NoSuchTrace);
        };
        match trace.show(self.alloc, process) {
            Ok(operations) => Reply::Ops(operations),
            Err(refusal) => Reply::Refused(refusal),
        }
    }

    /// The names of the traces, in the order of their opening.
    fn names(&self) -> Result<Arc<Vec<Name>>, NoMemory>
        ensures { IfOk result (λ names. (arc_value names).items ≡ trace_names (machine_in self.now)) }
    {
        let names: Vec<Name> = self.traces.keys().copied().collect(self.alloc)?;
        // A copy is made sooner than what was gathered is shrunk.
        let exact = Vec::from_slice(self.alloc, &names)?;
        Ok(Arc::new(self.alloc, exact)?)
    }

    fn list(&mut self, session: u16) -> Reply
        ensures step { IsStepOrNoMemory (machine_in self.old) session lists (reply_data result) (machine_in self.new) }
        ensures sets { sets_in self.new ≡ sets_in self.old }
    {
        match self.names() {
            Ok(names) => Reply::Traces(names),
            Err(NoMemory) => Reply::Refused(Refusal::NoMemory),
        }
    }

    fn close(&mut self, session: u16, name: Name) -> Reply
        ensures step { IsStepOrNoMemory (machine_in self.old) session (closes name) (reply_data result) (machine_in self.new) }
        ensures sets { IfDone (reply_data result) (sets_in self.new ≡ remove_entry (name_eq name) (sets_in self.old)) (sets_in self.new ≡ sets_in self.old) }
    {
        let Some(trace) = self.traces.get(&name) else {
            return Reply::Refused(Refusal::NoSuchTrace);
        };
        if let Err(refusal) = trace.check_owner(session) {
            return Reply::Refused(refusal);
        }
        let closed = self.traces.shift_remove(&name);
        drop(closed);
        Reply::Done
    }

    /// Whether the counter has room for the steps of a question about the trace of this name. A new one always has.
    pub(crate) fn has_room(&self, name: &Name, steps: &Steps) -> bool
        ensures exact { IsTrue result ↔ HasRoomFor (machine_in self.now) name.now steps.now }
        ensures new { steps.now ≡ 0 → IsTrue result }
    {
        match self.traces.get(name) {
            Some(trace) => steps.made() <= u64::MAX - trace.most_steps(),
            None => true,
        }
    }

    /// How many situations are kept for the trace of this name, if it is there.
    pub(crate) fn held(&self, name: &Name) -> Option<usize>
        ensures { HoldsFor (machine_in self.now) (sets_in self.now) name.now result }
    {
        Some(self.traces.get(name)?.held())
    }

    /// A new counter, which has room for the steps of any call.
    pub(crate) fn new_counter(&self, call: &Call) -> Steps
        ensures new { result ≡ 0 }
        ensures room { HasRoom (machine_in self.now) (call_data call.now) result }
    {
        let steps = Steps::new();
        match call {
            Call::Ask { name, .. } | Call::Why { name, .. } => prove!(self.has_room(name, &steps)),
            _ => {}
        }
        steps
    }

    /// Makes a call of a session, unless its reply is known.
    pub(crate) fn call(
        &mut self,
        session: u16,
        call: &Call,
        outlook: Outlook,
        steps: &mut Steps,
    ) -> Reply
        requires room { HasRoom (machine_in self.old) (call_data call.now) steps.old }
        requires known { IsKnown (machine_in self.old) (call_data call.now) (known_reply outlook) }
        ensures step { IsStepOrNoMemory (machine_in self.old) session (call_data call.now) (reply_data result) (machine_in self.new) }
        ensures sets { LeavesSets (machine_in self.old) (sets_in self.old) (call_data call.now) (reply_data result) steps.old steps.new (sets_in self.new) }
    {
        match outlook {
            Outlook::Known(reply) => reply,
            Outlook::Near => self.make(session, call, true, steps),
            Outlook::Unknown => self.make(session, call, false, steps),
        }
    }

    /// Makes it. Where the answer to a question `is_near`, no schedule is looked for.
    fn make(&mut self, session: u16, call: &Call, is_near: bool, steps: &mut Steps) -> Reply
        requires room { HasRoom (machine_in self.old) (call_data call.now) steps.old }
        ensures step { IsStepOrNoMemory (machine_in self.old) session (call_data call.now) (reply_data result) (machine_in self.new) }
        ensures sets { LeavesSets (machine_in self.old) (sets_in self.old) (call_data call.now) (reply_data result) steps.old steps.new (sets_in self.new) }
    {
        match call {
            Call::OpenTrace {
                name,
                procs,
                budget,
                cells,
            } => self.open(session, *name, *procs, *budget, cells),
            Call::ClaimProcess { name, process } => self.claim(session, *name, *process),
            Call::ReleaseProcess { name, process } => self.release(session, *name, *process),
            Call::Report {
                name,
                process,
                access,
            } => self.report(session, *name, *process, access),
            Call::SetMark { name } => self.mark(session, *name),
            Call::GoBack { name, mark } => self.back(session, *name, *mark),
            Call::RaiseBudget { name, budget } => self.raise(session, *name, *budget),
            Call::Ask { name, mark } => self.ask(session, *name, *mark, is_near, steps),
            Call::Why { name, mark } => self.why(session, *name, *mark, is_near, steps),
            Call::Cycle { name, mark } => self.cycle(session, *name, *mark),
            Call::ShowOps { name, process } => self.show(session, *name, *process),
            Call::ListTraces => self.list(session),
            Call::CloseTrace { name } => self.close(session, *name),
        }
    }
}
