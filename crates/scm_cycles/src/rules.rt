//! The rules by which orders are drawn.
use crate::claims::{Claim, Kind};
use crate::drawn_steps::Need;
use crate::evidence::Goal;
use crate::narrowing::Around;
use crate::read_views::ReadView;
use crate::search::Search;
use crate::waiting::News;
use scm_orders::Rule;

/// How many times as much a visit burns of a read whose source is open as of one whose source is settled.
const OPEN_VISIT: u32 = 3;

impl Search {
    /// Draws all that follows, round by round, until a cycle is closed or nothing is new. The step that closed it, if one did.
    pub(crate) fn run(&mut self) -> Option<Option<u32>> {
        for _ in 0..self.fuel {
            let before = self.steps.len()?;
            self.visit_all()?;
            if self.contradiction.is_some() || self.steps.len()? == before {
                return Some(self.contradiction);
            }
        }
        None
    }

    fn visit_all(&mut self) -> Option<()> {
        for x in 0..self.ops {
            if let Some(value) = self.given.values.found(x) {
                self.burn(self.procs)?;
                self.visit(x, value)?;
            }
            if self.contradiction.is_some() {
                break;
            }
        }
        Some(())
    }

    /// Draws what follows from what this read sees, or may see.
    pub(crate) fn visit(&mut self, read: u32, value: u32) -> Option<()> {
        let cell = self.given.numbering.cell(read)?;
        if self.read_facts.source(read)?.is_none() {
            self.visit_open(read, cell, value)?;
        }
        if self.contradiction.is_none()
            && let Some(source) = self.read_facts.source(read)?
        {
            let news = self.waiting.take_news(read)?;
            self.burn(news.count(self.procs))?;
            self.follow_source(read, cell, source, news)?;
        }
        Some(())
    }

    fn visit_open(&mut self, read: u32, cell: u32, value: u32) -> Option<()> {
        self.burn(self.procs.saturating_mul(OPEN_VISIT))?;
        self.narrow(read, cell, value)?;
        let (left, around) = (self.candidates.left(read)?, self.around(read)?);
        if left > 1 && !self.is_telling(read, cell, &around)? {
            return Some(());
        }
        self.burn(self.procs.checked_mul(self.procs)?)?;
        let view = self.view(read, cell, value)?;
        match (left, view.is_first_left) {
            (0, _) => {
                let claim = Claim::before(read, read);
                self.draw_by(&view, claim, Rule::AfterAll, Goal::Nothing)?;
                return Some(());
            }
            (1, false) => return self.settle_last(&view),
            (1, true) => self.settle_first(&view)?,
            _ => {}
        }
        self.draw_around(&view, &around)
    }

    // Draws an order by all that the read may see.
    fn draw_by(&mut self, view: &ReadView, claim: Claim, rule: Rule, goal: Goal) -> Option<u32> {
        let needs = self.needs(view, goal)?;
        self.draw(claim, rule, &needs)
    }

    // The read sees the one write that is left.
    fn settle_last(&mut self, view: &ReadView) -> Option<()> {
        let (write, _) = view.shares.iter().find_map(|share| share.left)?;
        let claim = Claim::sees(write, view.read);
        let id = self.draw_by(view, claim, Rule::Source, Goal::Nothing)?;
        self.settle(claim, id)
    }

    // The read sees first contents: of an unset cell that is news for other reads.
    fn settle_first(&mut self, view: &ReadView) -> Option<()> {
        if self.read_facts.first(view.cell)?.is_some()
            || self.given.values.first(view.cell)?.is_some()
        {
            return Some(());
        }
        let needs = self.needs(view, Goal::Nothing)?;
        let claim = Claim::sees_first(view.read);
        let id = self.add(claim, Rule::Source, &needs)?;
        if self.waiting.is_noted() {
            self.settle(claim, id)?;
        }
        self.set_first(view.cell, view.value, id)
    }

    // The read comes after what all that is left comes after, and before the writes that all of it comes before.
    fn draw_around(&mut self, view: &ReadView, around: &Around) -> Option<()> {
        for ((process, count), place) in (0..self.procs).zip(around.before).zip(around.after) {
            if self.contradiction.is_none() {
                self.draw_after_all(view, process, count)?;
            }
            if self.contradiction.is_none() {
                self.draw_before_all(view, process, place)?;
            }
        }
        Some(())
    }

    // So many of a process come before all that is left.
    fn draw_after_all(&mut self, view: &ReadView, process: u32, count: u32) -> Option<()> {
        if count > self.before(view.read, process)? {
            let from = self.given.numbering.number(process, count.checked_sub(1)?)?;
            let claim = Claim::before(from, view.read);
            self.draw_by(view, claim, Rule::AfterAll, Goal::After(from))?;
        }
        Some(())
    }

    // From this place on those of a process come after all that is left.
    fn draw_before_all(&mut self, view: &ReadView, process: u32, place: u32) -> Option<()> {
        if let Some(to) = self.write_from(view.read, view.cell, process, place)
            && !self.is_before(view.read, to)?
        {
            let claim = Claim::before(view.read, to);
            self.draw_by(view, claim, Rule::BeforeAll, Goal::Before(to))?;
        }
        Some(())
    }

    // The first write of another process than the read's to the cell, from a place on.
    fn write_from(&self, read: u32, cell: u32, process: u32, place: u32) -> Option<u32> {
        let (owner, _) = self.given.numbering.spot(read)?;
        if owner == process {
            return None;
        }
        self.write_at(process, cell, place)
    }

    // Draws what follows from what is seen.
    fn follow_source(&mut self, read: u32, cell: u32, step: u32, news: News) -> Option<()> {
        let seen = self.steps.get(step)?.claim;
        if seen.kind == Kind::SeesFirst {
            return self.follow_first(read, cell, step);
        }
        for process in 0..self.procs {
            if self.contradiction.is_none() && news.has(process) {
                self.draw_after_source(seen, cell, step, process)?;
            }
            if self.contradiction.is_none() && news.is_after_source {
                self.draw_before_next(seen, cell, step, process)?;
            }
        }
        Some(())
    }

    // Draws what follows from first contents that are seen.
    fn follow_first(&mut self, read: u32, cell: u32, source: u32) -> Option<()> {
        for process in 0..self.procs {
            if self.contradiction.is_none()
                && let Some(to) = self.write_from(read, cell, process, 0)
                && !self.is_before(read, to)?
            {
                let claim = Claim::before(read, to);
                self.draw(claim, Rule::BeforeAll, &[Need::Step(source)])?;
            }
        }
        Some(())
    }

    // Another write of the cell that comes before the read comes before its source. `seen` is what the step tells.
    fn draw_after_source(&mut self, seen: Claim, cell: u32, step: u32, process: u32) -> Option<()> {
        let (write, read) = (seen.from, seen.to);
        let (known, count) = (self.up_to(write, process)?, self.before(read, process)?);
        if !self.is_written(process, cell, known, count)? {
            return Some(());
        }
        let from = self.last_write(process, cell, read)?;
        let needs = [Need::Step(step), Need::Order { from, to: read }];
        self.draw(Claim::before(from, write), Rule::AfterSource, &needs)?;
        Some(())
    }

    // The read comes before another write of the cell that comes after its source.
    fn draw_before_next(&mut self, seen: Claim, cell: u32, step: u32, process: u32) -> Option<()> {
        let (write, read) = (seen.from, seen.to);
        let (place, known) = (self.after(write, process)?, self.after(read, process)?);
        let (owner, _) = self.given.numbering.spot(read)?;
        if owner == process || !self.is_written(process, cell, place, known)? {
            return Some(());
        }
        let to = self.write_from(read, cell, process, place)?;
        let needs = [Need::Step(step), Need::Order { from: write, to }];
        self.draw(Claim::before(read, to), Rule::BeforeAll, &needs)?;
        Some(())
    }

    /// Whether a process writes the cell between two places.
    pub(crate) fn is_written(&self, process: u32, cell: u32, from: u32, to: u32) -> Option<bool> {
        let writes = &self.given.writes;
        Some(from < to && writes.count(process, cell, from)? < writes.count(process, cell, to)?)
    }
}
