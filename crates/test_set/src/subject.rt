//! A trace that grows and goes back, with its set.
ghost use Rattle.std.specs.Prelude.{◌<◌, ◌≤◌, length};
ghost use Rattle.scm_sequences.specs.declared.limits.TheConstants.{MOST_PROCESSES};
ghost use Rattle.scm_sequences.specs.Sequences.{cell_of};

use crate::traces::operation;
use scm_cells::{Cells, Initial, Name, Num, Width};
use scm_expand::{Task, expand};
use scm_frontier::Steps;
use scm_reach::{Reach, Settled};
use scm_results::Fate;
use scm_sequences::{Lengths, MOST_PROCESSES, Op, Refusal, Sequences};
use std::alloc::Global;
use std::marker::Model;
use std::process::Abort;

/// The most situations of a test.
const LIMIT: usize = 1_000;

/// So many cells: the first is open at first, the others hold 0.
pub(crate) fn cells(rt: &impl Abort, alloc: Global, n: u8) -> Cells {
    assert!(rt; 0 < n && n <= 64);
    let mut cells = Cells::new(alloc);
    add(rt, &mut cells, 0, Initial::Unset);
    for c in 1..n {
        add(rt, &mut cells, c, Initial::Given(Num::Plain(0)));
    }
    cells
}

fn add(rt: &impl Abort, cells: &mut Cells, c: u8, initial: Initial) {
    let word = [b'a' + c / 10, b'0' + c % 10];
    let name = Name::read(&word).expect(rt, "a name");
    cells.add(name, Width::D, initial).expect(rt, "a cell");
}

/// A trace with its set.
#[derive(Drop)]
pub(crate) struct Subject {
    sequences: Sequences,
    reach: Reach,
}

impl Model for Subject {
    ghost use Rattle.std.specs.Prelude.{length};
    ghost use Rattle.scm_sequences.specs.Sequences.{NamesCellsBelow};
    ghost use Rattle.scm_sequences.specs.Traces.{trace_of};
    ghost use Rattle.scm_reach.specs.Kept.{Kept, IsKept};

    ghost Value = { Kept };

    ghost view = { λ a. a.reach };

    ghost invariant = { λ a. NamesCellsBelow (length a.reach.initials) a.sequences × IsKept (trace_of a.reach.initials a.sequences) a.reach.members };
}

impl Subject {
    /// The trace of so many processes with no operation.
    pub(crate) fn new(rt: &impl Abort, alloc: Global, cells: &Cells, procs: usize) -> Subject {
        assert!(rt; 0 < procs && procs <= MOST_PROCESSES);
        Subject::made(rt, alloc, cells, procs).expect(rt, "memory")
    }

    fn made(rt: &impl Abort, alloc: Global, cells: &Cells, procs: usize) -> Result<Subject, Refusal>
        requires some { 0 < procs }
        requires most { procs ≤ MOST_PROCESSES }
    {
        let sequences = Sequences::new(alloc, procs)?;
        let is_below = sequences.names_cells_below(cells.len());
        assert!(rt; is_below);
        let reach = Reach::new(alloc, cells, &sequences)?;
        Ok(Subject { sequences, reach })
    }

    /// The trace of so many processes with the operations of a text, on the cells o, x, y and z.
    pub(crate) fn of(rt: &impl Abort, alloc: Global, procs: usize, text: &str) -> Subject {
        let mut subject = Subject::new(rt, alloc, &cells(rt, alloc, 4), procs);
        subject.report_all(rt, text);
        subject
    }

    /// The sequences of the trace.
    pub(crate) fn sequences(&self) -> &Sequences {
        &self.sequences
    }

    /// The set.
    pub(crate) fn reach(&self) -> &Reach {
        &self.reach
    }

    /// One more operation of process `p`.
    pub(crate) fn report(&mut self, rt: &impl Abort, p: usize, op: Op) {
        let cells = self.reach.initials().len();
        assert!(rt; op.cell() < cells);
        self.push(p, op).expect(rt, "room for an operation");
    }

    /// The operations of a text.
    pub(crate) fn report_all(&mut self, rt: &impl Abort, text: &str) {
        for word in text.split_whitespace() {
            let (p, op) = operation(rt, word);
            self.report(rt, p, op);
        }
    }

    fn push(&mut self, p: usize, op: Op) -> Result<(), Refusal>
        requires { cell_of op < length self.old.initials }
    {
        self.sequences.push(p, op)?;
        self.reach.grown(p);
        Ok(())
    }

    /// What comes of the trace cut to these lengths.
    pub(crate) fn ask(&mut self, rt: &impl Abort, lengths: &Lengths) -> Settled {
        self.ask_under(rt, lengths, LIMIT).0
    }

    /// What comes of it under a limit, and by how many steps.
    pub(crate) fn ask_under(
        &mut self,
        rt: &impl Abort,
        lengths: &Lengths,
        limit: usize,
    ) -> (Settled, u64) {
        let is_within = self.sequences.lengths().bound(lengths.counts());
        assert!(rt; is_within);
        let has_room = self.reach.held() <= limit && limit <= LIMIT;
        assert!(rt; has_room);
        let mut steps = Steps::new();
        let settled = self
            .reach
            .settle(&self.sequences, lengths, limit, &mut steps)
            .expect(rt, "memory");
        (settled, steps.made())
    }

    /// So many tasks.
    pub(crate) fn take(&mut self, rt: &impl Abort, alloc: Global, n: usize) -> Vec<Task> {
        let name = Name::read(b"t").expect(rt, "a name");
        let taken = self.reach.tasks(alloc, name, &self.sequences, n);
        taken.expect(rt, "memory")
    }

    /// What becomes of the outcome of a copy of the task, under a limit.
    pub(crate) fn accept(&mut self, rt: &impl Abort, task: &Task, limit: usize) -> Fate {
        let Ok(outcome) = expand(task.copy().expect(rt, "memory")) else {
            panic!(rt; "no memory");
        };
        assert!(rt; self.reach.held() <= limit);
        self.reach.accept(&self.sequences, outcome, limit)
    }

    /// Goes back to these lengths.
    pub(crate) fn go_back(&mut self, rt: &impl Abort, lengths: &Lengths) {
        let is_within = self.sequences.lengths().bound(lengths.counts());
        assert!(rt; is_within);
        self.reach.cut(&self.sequences, lengths);
        self.sequences.cut(lengths);
    }
}
