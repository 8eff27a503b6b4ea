//! An open trace.
ghost use Rattle.std.specs.Prelude.{◌≡◌, ◌∷◌, ◌++◌, [], ◌<◌, ◌≤◌, ◌==◌, length, None, Some, IfOk, IfErr, OnOk, OnErr, IsOkAnd, IsSomeAnd, slice_set, MatchResult};
ghost use Rattle.std.specs.Arc.{arc_value};
ghost use Rattle.scm_sequences.specs.declared.limits.TheConstants.{MOST_PROCESSES, MOST_SITUATIONS};
ghost use Rattle.scm_sequences.specs.Sequences.{Refuses, pushed, cut_lists, lengths_of};
ghost use Rattle.scm_budget.specs.Budgets.{raised};
ghost use Rattle.scm_marks.specs.MarkLists.{mark_at, marks_up_to};
ghost use Rattle.scm_lowering.specs.Lowering.{lowered};
ghost use Rattle.scm_reach.specs.inner.Cutting.{cut_members};
ghost use Rattle.scm_book.specs.Machine.{new_trace, trace_cause, claim_cause, release_cause, report_cause, not_owner, mark_cause, back_cause, raise_cause, no_process, declared_cells, shown_operations};

mod asking;
mod lending;
mod loan_state;
mod planning;
mod working;

use crate::declarations::declare_cells;
use crate::known_schedules::KnownSchedules;
use crate::showing::show_all;
use crate::{Decl, Shown};
use loan_state::LoanState;
pub(crate) use loan_state::Purpose;
use scm_budget::Budget;
use scm_cells::Cells;
use scm_lowering::{Access, lower};
use scm_marks::Marks;
use scm_proposals::Beginning;
use scm_reach::Reach;
use scm_sequences::{MOST_PROCESSES, NoMemory, Refusal, Sequences};
use smallvec::SmallVec;
use std::alloc::Global;
use std::marker::Model;
use std::sync::Arc;

/// A trace that is open, without its name. Contracts see its state in the machine, and the set that is kept for it.
#[derive(Drop)]
pub(crate) struct OpenTrace {
    owner: u16,
    budget: Budget,
    cells: Cells,
    sequences: Sequences,
    claimants: SmallVec<Option<u16>, MOST_PROCESSES>,
    marks: Marks,
    // What questions and outcomes found out stays for the next questions.
    reach: Reach,
    // So do the last schedule, which is no longer than the trace, and the order of the reports, for their proposals.
    schedules: KnownSchedules,
    // How far the order of the reports was found to be a schedule when the trace was looked at for work last.
    followed: Option<Beginning>,
    // What workers have to know of it.
    loan_state: LoanState,
}

impl Model for OpenTrace {
    ghost use Rattle.std.specs.Prelude.{◌≤◌, length, sum};
    ghost use Rattle.scm_sequences.specs.Sequences.{lengths_of};
    ghost use Rattle.scm_book.specs.inner.Sound.{IsSoundTrace, IsKeptFor};
    ghost use Rattle.scm_book.specs.inner.Sets.{KeptTrace};

    ghost Value = { KeptTrace };

    ghost view = { λ t. record { state = record { owner = t.owner; budget = t.budget; cells = t.cells; sequences = t.sequences; claimants = t.claimants.items; marks = t.marks }; set = t.reach } };

    ghost invariant = { λ t. IsSoundTrace (record { owner = t.owner; budget = t.budget; cells = t.cells; sequences = t.sequences; claimants = t.claimants.items; marks = t.marks }) × IsKeptFor (record { owner = t.owner; budget = t.budget; cells = t.cells; sequences = t.sequences; claimants = t.claimants.items; marks = t.marks }) t.reach × (length t.schedules.schedule.items ≤ sum (lengths_of t.sequences)) };
}

impl OpenTrace {
    /// A trace of these cells, with no operations, whose processes nobody claimed. Refused `BadDeclaration`, then
    /// `BadBudget`.
    pub(crate) fn new(
        alloc: Global,
        owner: u16,
        procs: u64,
        budget: u64,
        decls: &[Decl],
    ) -> Result<OpenTrace, Refusal>
        ensures ok { IfOk result (λ trace. (trace_cause procs budget decls.now ≡ None) × IsSomeAnd (declared_cells decls.now) (λ cells. trace.state ≡ new_trace owner procs budget cells)) }
        ensures set { IfOk result (λ trace. length trace.set.members ≡ 1) }
        ensures err { IfErr result (Refuses (trace_cause procs budget decls.now)) }
    {
        if procs == 0 || procs > MOST_PROCESSES as u64 {
            return Err(Refusal::BadDeclaration);
        }
        let cells = declare_cells(alloc, decls)?;
        let budget = Budget::new(budget)?;
        Ok(OpenTrace::empty(alloc, owner, procs as usize, budget, cells)?)
    }

    /// A trace of these cells and so many processes, with no operations, whose processes nobody claimed.
    fn empty(
        alloc: Global,
        owner: u16,
        procs: usize,
        budget: Budget,
        cells: Cells,
    ) -> Result<OpenTrace, NoMemory>
        requires some { 0 < procs }
        requires procs { procs ≤ MOST_PROCESSES }
        requires least { 1 ≤ budget }
        requires most { budget ≤ MOST_SITUATIONS }
        ensures state { IfOk result (λ trace. trace.state ≡ new_trace owner procs budget cells) }
        ensures set { IfOk result (λ trace. length trace.set.members ≡ 1) }
    {
        let sequences = Sequences::new(alloc, procs)?;
        let claimants = SmallVec::from_elem(alloc, None, procs)?;
        let reach = Reach::new(alloc, &cells, &sequences)?;
        Ok(OpenTrace {
            owner,
            budget,
            cells,
            sequences,
            claimants,
            marks: Marks::new(alloc),
            reach,
            schedules: KnownSchedules::new(alloc),
            followed: None,
            loan_state: LoanState::new(),
        })
    }

    /// Claims a process for the session. Refused `NoSuchProcess`, then `ProcessTaken`.
    pub(crate) fn claim(&mut self, session: u16, process: u64) -> Result<(), Refusal>
        ensures ok { OnOk result ((claim_cause self.old.state process ≡ None) × (self.new.state ≡ record self.old.state { claimants = slice_set self.old.state.claimants process (Some session) })) }
        ensures err { IfErr result (λ refusal. claim_cause self.old.state process ≡ Some refusal) }
        ensures set { self.new.set ≡ self.old.set }
        ensures unchanged { OnErr result (self.new ≡ self.old) }
    {
        let process = process as usize;
        if process >= self.claimants.len() {
            return Err(Refusal::NoSuchProcess);
        }
        if self.claimants[process].is_some() {
            return Err(Refusal::ProcessTaken);
        }
        self.claimants[process] = Some(session);
        Ok(())
    }

    /// Gives up a process that the session claimed. Refused `NoSuchProcess`, then `NotClaimed`.
    pub(crate) fn release(&mut self, session: u16, process: u64) -> Result<(), Refusal>
        ensures ok { OnOk result ((release_cause self.old.state session process ≡ None) × (self.new.state ≡ record self.old.state { claimants = slice_set self.old.state.claimants process None })) }
        ensures err { IfErr result (λ refusal. release_cause self.old.state session process ≡ Some refusal) }
        ensures set { self.new.set ≡ self.old.set }
        ensures unchanged { OnErr result (self.new ≡ self.old) }
    {
        let process = self.check_claimant(session, process)?;
        self.claimants[process] = None;
        Ok(())
    }

    /// Adds the operation that an access is to the sequence of a process, in amortized constant time. Refused
    /// `NoSuchProcess`, `NotClaimed`, what `lower` refuses, then `SequenceFull`.
    pub(crate) fn report(
        &mut self,
        session: u16,
        process: u64,
        access: &Access,
    ) -> Result<(), Refusal>
        ensures ok { OnOk result ((report_cause self.old.state session process access.now ≡ None) × IsOkAnd (lowered self.old.state.cells access.now) (λ op. self.new.state ≡ record self.old.state { sequences = pushed self.old.state.sequences process op })) }
        ensures err { IfErr result (Refuses (report_cause self.old.state session process access.now)) }
        ensures set { self.new.set ≡ self.old.set }
        ensures unchanged { OnErr result (self.new ≡ self.old) }
    {
        let process = self.check_claimant(session, process)?;
        let op = lower(&self.cells, access)?;
        self.sequences.push(process, op)?;
        self.reach.grown(process);
        self.schedules.report(process);
        self.loan_state.change();
        Ok(())
    }

    /// The place of a process that the session claimed. Refused `NoSuchProcess`, then `NotClaimed`.
    fn check_claimant(&self, session: u16, process: u64) -> Result<usize, Refusal>
        ensures { MatchResult result (λ place. (release_cause self.now.state session process ≡ None) × (place ≡ process) × (place < length self.now.state.claimants)) (λ refusal. release_cause self.now.state session process ≡ Some refusal) }
    {
        let process = process as usize;
        if process >= self.claimants.len() {
            return Err(Refusal::NoSuchProcess);
        }
        if self.claimants[process] != Some(session) {
            return Err(Refusal::NotClaimed);
        }
        Ok(process)
    }

    /// Refused `NotOwner` where the session did not open the trace.
    pub(crate) fn check_owner(&self, session: u16) -> Result<(), Refusal>
        ensures { MatchResult result (λ _. not_owner self.now.state session ≡ None) (λ refusal. not_owner self.now.state session ≡ Some refusal) }
    {
        if self.owner == session {
            Ok(())
        } else {
            Err(Refusal::NotOwner)
        }
    }

    /// Marks the present lengths, and gives the number of the mark. Refused `NotOwner`, then `TooManyMarks`.
    pub(crate) fn mark(&mut self, session: u16) -> Result<u64, Refusal>
        ensures number { IfOk result (λ n. n ≡ length self.old.state.marks) }
        ensures ok { OnOk result ((mark_cause self.old.state session ≡ None) × (self.new.state ≡ record self.old.state { marks = self.old.state.marks ++ lengths_of self.old.state.sequences ∷ [] })) }
        ensures err { IfErr result (Refuses (mark_cause self.old.state session)) }
        ensures set { self.new.set ≡ self.old.set }
        ensures unchanged { OnErr result (self.new ≡ self.old) }
    {
        self.check_owner(session)?;
        self.marks.set(self.sequences.lengths())
    }

    /// Cuts every sequence to a mark and drops the marks after it. Refused `NotOwner`, then `NoSuchMark`.
    pub(crate) fn back(&mut self, session: u16, mark: u64) -> Result<(), Refusal>
        ensures ok { OnOk result ((back_cause self.old.state session mark ≡ None) × IsOkAnd (mark_at self.old.state.marks mark) (λ lengths. self.new.state ≡ record self.old.state { sequences = cut_lists self.old.state.sequences lengths; marks = marks_up_to self.old.state.marks mark })) }
        ensures err { IfErr result (λ refusal. back_cause self.old.state session mark ≡ Some refusal) }
        ensures set { OnOk result (IsOkAnd (mark_at self.old.state.marks mark) (λ lengths. self.new.set ≡ record self.old.set { members = cut_members lengths self.old.set.members })) }
        ensures unchanged { OnErr result (self.new ≡ self.old) }
    {
        self.check_owner(session)?;
        let lengths = self.marks.get(mark)?;
        self.reach.cut(&self.sequences, lengths);
        self.sequences.cut(lengths);
        self.schedules.cut(lengths);
        self.followed = None;
        self.loan_state.change();
        self.marks.back(mark);
        Ok(())
    }

    /// Raises the budget. Refused `NotOwner`, then `BadBudget` below the present budget or above `MOST_SITUATIONS`.
    pub(crate) fn raise(&mut self, session: u16, budget: u64) -> Result<(), Refusal>
        ensures ok { OnOk result ((raise_cause self.old.state session budget ≡ None) × IsOkAnd (raised self.old.state.budget budget) (λ number. self.new.state ≡ record self.old.state { budget = number })) }
        ensures err { IfErr result (λ refusal. raise_cause self.old.state session budget ≡ Some refusal) }
        ensures set { self.new.set ≡ self.old.set }
        ensures unchanged { OnErr result (self.new ≡ self.old) }
    {
        self.check_owner(session)?;
        self.budget.raise(budget)?;
        self.schedules.retry();
        self.loan_state.retry();
        Ok(())
    }

    /// The operations of a process, each with the name of its cell. Refused `NoSuchProcess`.
    pub(crate) fn show(&self, alloc: Global, process: u64) -> Result<Arc<Vec<Shown>>, Refusal>
        ensures ok { IfOk result (λ shown. (no_process self.now.state process ≡ None) × ((arc_value shown).items ≡ shown_operations self.now.state process)) }
        ensures err { IfErr result (Refuses (no_process self.now.state process)) }
    {
        let process = process as usize;
        if process >= self.claimants.len() {
            return Err(Refusal::NoSuchProcess);
        }
        Ok(show_all(alloc, &self.cells, self.sequences.operations(process))?)
    }
}
