//! What comes before what in every legal schedule, as far as it was drawn.
use crate::backward::afters_of;
use crate::candidates::Candidates;
use crate::cases::Restarts;
use crate::choices::Choices;
use crate::claims::Claim;
use crate::clauses::Clauses;
use crate::drawn_steps::{DrawnSteps, Need};
use crate::read_facts::ReadFacts;
use crate::rises::Rises;
use crate::trail::Sizes;
use crate::waiting::Waiting;
use scm_clocks::{Clocks, Flags, Given, is_covered};
use scm_orders::{Place, Rule};
use std::alloc::Global;

/// For how many operations and processes, multiplied, there are clocks at most: larger traces aren't looked at.
const MOST_NUMBERS: u64 = 1 << 24;

/// How many changes can be taken back at most, for each number of the clocks. A search that has more gives up.
const CHANGES_OF_NUMBER: u64 = 64;

/// How much is burnt for each number of the clocks, and for what is left there.
const BURNT_OF_NUMBER: u64 = 3;

/// How many entries of a list are looked at as fast as one unit of fuel is burnt.
const STEPS_OF_FUEL: usize = 32;

/// What is looked for.
#[derive(Clone, Copy, PartialEq, Eq)]
pub(crate) enum Sought {
    /// What reads see in some schedule.
    Schedule,
    /// A contradiction, with the lines of what it needs.
    Refutation,
}

/// Clocks (for each operation, how many of each process come before it), with what raised them, and the steps that were
/// drawn. A method that draws gives `None` where the fuel is spent.
#[derive(Drop)]
pub(crate) struct Search {
    pub(crate) alloc: Global,
    pub(crate) sought: Sought,
    pub(crate) given: Given,
    pub(crate) steps: DrawnSteps,
    pub(crate) procs: u32,
    pub(crate) ops: u32,
    /// What reads see, so far.
    pub(crate) read_facts: ReadFacts,
    /// What is to be looked at again, once cases are tried.
    pub(crate) waiting: Waiting,
    /// The sizes before each supposition.
    pub(crate) trail: Vec<Sizes>,
    pub(crate) choices: Choices,
    pub(crate) clauses: Clauses,
    pub(crate) restarts: Restarts,
    /// The step by which orders are supposed, where some are.
    pub(crate) supposed: Option<u32>,
    pub(crate) clocks: Clocks,
    /// For each operation, from which place on the operations of each process come after it.
    pub(crate) afters: Clocks,
    /// What is left for reads to see.
    pub(crate) candidates: Candidates,
    pub(crate) rises: Rises,
    /// What has new clocks to bring to those after it.
    pub(crate) flags: Flags,
    /// The step that contradicts, if one does.
    pub(crate) contradiction: Option<u32>,
    pub(crate) fuel: u64,
    most_changes: u64,
}

impl Search {
    /// Before anything is drawn. `None` also where the trace is too large, or the fuel too little for what is made here.
    pub(crate) fn new(alloc: Global, sought: Sought, given: Given, fuel: u64) -> Option<Search> {
        let (procs, ops) = (given.numbering.procs()?, given.numbering.len()?);
        let cells = u32::try_from(given.values.firsts().len()).ok()?;
        let numbers = u64::from(ops).checked_mul(u64::from(procs))?;
        MOST_NUMBERS.checked_sub(numbers)?;
        let fuel = fuel.checked_sub(numbers.checked_mul(BURNT_OF_NUMBER)?)?;
        Some(Search {
            alloc,
            sought,
            steps: DrawnSteps::new(alloc, ops)?,
            procs,
            ops,
            read_facts: ReadFacts::new(alloc, ops, cells)?,
            waiting: Waiting::new(alloc, ops)?,
            trail: Vec::new(alloc),
            choices: Choices::new(alloc, ops)?,
            clauses: Clauses::new(alloc, ops)?,
            restarts: Restarts::FIRST,
            supposed: None,
            clocks: Clocks::new(alloc, &given.numbering)?,
            afters: afters_of(alloc, &given.numbering)?,
            candidates: Candidates::new(alloc, &given)?,
            rises: Rises::new(alloc, procs)?,
            flags: Flags::new(alloc, ops)?,
            contradiction: None,
            fuel,
            most_changes: numbers.checked_mul(CHANGES_OF_NUMBER)?,
            given,
        })
    }

    /// Where an operation stands.
    pub(crate) fn place(&self, x: u32) -> Option<Place> {
        let (process, at) = self.given.numbering.spot(x)?;
        let process = u8::try_from(process).ok()?;
        Some(Place { process, at })
    }

    /// How many operations of a process come before `x`.
    pub(crate) fn before(&self, x: u32, process: u32) -> Option<u32> {
        self.clocks.get(x, process)
    }

    /// How many operations of a process come before `x` or are it.
    pub(crate) fn up_to(&self, x: u32, process: u32) -> Option<u32> {
        let (owner, at) = self.given.numbering.spot(x)?;
        if owner == process {
            at.checked_add(1)
        } else {
            self.before(x, process)
        }
    }

    /// From which place on the operations of a process come after `x`.
    pub(crate) fn after(&self, x: u32, process: u32) -> Option<u32> {
        self.afters.get(x, process)
    }

    /// Whether `x` is known to come before `y`.
    pub(crate) fn is_before(&self, x: u32, y: u32) -> Option<bool> {
        let (process, at) = self.given.numbering.spot(x)?;
        Some(self.before(y, process)? > at)
    }

    /// The steps that lead with the orders of processes from one operation to another that comes after it, as it was known
    /// first: none where both are of one process, which has them in this order.
    pub(crate) fn path(&self, from: u32, to: u32) -> Option<Vec<u32>> {
        let mut path = Vec::new(self.alloc);
        let (process, at) = self.given.numbering.spot(from)?;
        let mut x = to;
        for _ in 0..=self.steps.len()? {
            let (owner, place) = self.given.numbering.spot(x)?;
            if owner == process && place >= at && (from != x || !path.is_empty()) {
                path.reverse();
                return Some(path);
            }
            let count = at.checked_add(1)?;
            let id = self.rises.first((owner, place), process, count)?;
            path.push(id).ok()?;
            x = match self.supposed {
                Some(supposed) if supposed == id => from,
                _ => self.steps.get(id)?.claim.from,
            };
        }
        None
    }

    /// The steps that show what is needed, with the orders of processes.
    pub(crate) fn steps_of(&self, need: Need) -> Option<Vec<u32>> {
        match need {
            Need::Step(id) => vec![in self.alloc; id].ok(),
            Need::Order { from, to } | Need::Hiding { from, to } => self.path(from, to),
            Need::Hidden { write, by, read } => {
                let mut steps = self.path(write, by)?;
                steps.extend_from_slice(&self.path(by, read)?).ok()?;
                Some(steps)
            }
        }
    }

    pub(crate) fn burn(&mut self, amount: u32) -> Option<()> {
        self.fuel = self.fuel.checked_sub(u64::from(amount))?;
        Some(())
    }

    /// Burns for what a list was searched for.
    pub(crate) fn burn_for(&mut self, steps: usize) -> Option<()> {
        self.burn(u32::try_from(steps / STEPS_OF_FUEL).ok()?)
    }

    /// Draws an order, with all that it brings to the clocks. Gives its number.
    pub(crate) fn draw(&mut self, claim: Claim, rule: Rule, needs: &[Need]) -> Option<u32> {
        let Claim { from, to, .. } = claim;
        let id = self.add(claim, rule, needs)?;
        if from == to || self.is_before(to, from)? {
            self.contradiction = Some(id);
            return Some(id);
        }
        self.touch_before(from, to)?;
        self.absorb(to, from, id)?;
        self.spread()?;
        Some(id)
    }

    // Brings what is new of the clocks that are flagged to those after them. `None` also where too much would have to be taken
    // back.
    fn spread(&mut self) -> Option<()> {
        for _ in 0..self.fuel {
            let Some(x) = self.flags.next() else {
                return Some(());
            };
            self.burn(self.procs)?;
            let changes = self.clocks.changes().checked_add(self.afters.changes())?;
            let changes = changes.checked_add(self.candidates.changes())?;
            self.most_changes.checked_sub(changes as u64)?;
            self.spread_from(x)?;
        }
        None
    }

    fn spread_from(&mut self, x: u32) -> Option<()> {
        let mut leaving = self.steps.newest(x);
        for _ in 0..self.steps.len()? {
            let Some(id) = leaving else {
                break;
            };
            let step = self.steps.get(id)?;
            self.burn(1)?;
            self.absorb(step.claim.to, x, id)?;
            leaving = step.older;
        }
        Some(())
    }

    // Puts `y` after `x` and all that comes before it, by this step.
    fn absorb(&mut self, y: u32, x: u32, id: u32) -> Option<()> {
        if self.is_before(x, y)? && is_covered(self.clocks.row(x)?, self.clocks.row(y)?) {
            return Some(());
        }
        for process in 0..self.procs {
            let count = self.up_to(x, process)?;
            if self.before(y, process)? < count {
                self.raise(y, process, count, id)?;
            }
        }
        Some(())
    }

    /// So many of a process come before `y`, by this step, and before what comes after `y` in its process. What steps lead on
    /// from is flagged.
    pub(crate) fn raise(&mut self, y: u32, process: u32, count: u32, id: u32) -> Option<()> {
        let spot = self.given.numbering.spot(y)?;
        self.rises.add(spot, process, count, id)?;
        self.lower_afters(spot, process, count)?;
        let (owner, at) = spot;
        for place in at..self.given.numbering.count(owner)? {
            let x = self.given.numbering.number(owner, place)?;
            if self.before(x, process)? >= count {
                break;
            }
            self.burn(1)?;
            self.clocks.set(x, process, count)?;
            self.waiting.raised(x, process)?;
            if self.steps.newest(x).is_some() {
                self.flags.add(x)?;
            }
        }
        Some(())
    }
}
