//! The derivation of what a contradiction needs, gathered back from it.
use crate::claims::{Claim, Kind};
use crate::conflict::Conflict;
use crate::drawn_steps::Need;
use crate::lines::Lines;
use crate::search::Search;
use scm_orders::{Derivation, Fact, Line, Rule};

/// In a block, this bit and the number of a step stand for the line of that step, outside of all blocks.
const OUTSIDE: u32 = 1 << 31;

/// Which steps and which clauses are needed, by number, the line that each was written as, and the line that each clause's
/// block ended with.
#[derive(Drop)]
struct Gathering<'a> {
    search: &'a Search,
    conflict: &'a Conflict,
    is_needed: Vec<bool>,
    is_clause_needed: Vec<bool>,
    ends: Vec<Option<u32>>,
    line_of: Vec<Option<u32>>,
    lines: Lines,
}

/// The lines that end with an operation before itself, of all that the contradiction needs. Of one under suppositions that is the
/// block that shows that not all of what contradicts itself is so: it names the lines outside of it by their steps, and the ends
/// of earlier blocks by their clauses.
pub(crate) fn gather(search: &Search, conflict: &Conflict) -> Option<Derivation> {
    let mut gathering = Gathering::new(search, conflict)?;
    gathering.suppose()?;
    gathering.need_contradiction()?;
    gathering.need_all()?;
    gathering.write_all()?;
    gathering.close()?;
    let Gathering { lines, .. } = gathering;
    Some(lines.derivation)
}

impl<'a> Gathering<'a> {
    fn new(search: &'a Search, conflict: &'a Conflict) -> Option<Gathering<'a>> {
        let alloc = search.alloc;
        let count = conflict.contradiction.checked_add(1)? as usize;
        let clauses = search.clauses.len()? as usize;
        Some(Gathering {
            search,
            conflict,
            is_needed: vec![in alloc; false; count].ok()?,
            is_clause_needed: vec![in alloc; false; clauses].ok()?,
            ends: vec![in alloc; None; clauses].ok()?,
            line_of: vec![in alloc; None; count].ok()?,
            lines: Lines::new(alloc),
        })
    }

    fn suppose(&mut self) -> Option<()> {
        let conflict = self.conflict;
        for id in &conflict.steps {
            let claim = self.search.steps.get(*id)?.claim;
            let fact = self.fact_of(claim)?;
            let line = self.lines.add(fact, Rule::Assumed, &[])?;
            *self.line_of.get_mut(*id as usize)? = Some(line);
        }
        Some(())
    }

    // Whether the step's line stands outside of the block that is written.
    fn is_outside(&self, id: u32) -> Option<bool> {
        Some(self.conflict.level > 0 && self.search.steps.get(id)?.level == 0)
    }

    fn line(&self, id: u32) -> Option<u32> {
        if self.is_outside(id)? {
            return Some(id | OUTSIDE);
        }
        *self.line_of.get(id as usize)?
    }

    fn need(&mut self, id: u32) -> Option<()> {
        let is_supposed = self.line_of.get(id as usize)?.is_some();
        if !is_supposed && !self.is_outside(id)? {
            *self.is_needed.get_mut(id as usize)? = true;
        }
        Some(())
    }

    fn need_contradiction(&mut self) -> Option<()> {
        let contradiction = self.conflict.contradiction;
        let Claim { from, to, .. } = self.search.steps.get(contradiction)?.claim;
        *self.is_needed.get_mut(contradiction as usize)? = true;
        if from != to {
            for id in &self.search.path(to, from)? {
                self.need(*id)?;
            }
        }
        Some(())
    }

    // How many blocks may be written: none within a block.
    fn blocks(&self) -> Option<u32> {
        if self.conflict.level > 0 {
            return Some(0);
        }
        self.search.clauses.len()
    }

    // Marks the steps and the clauses that are needed, from the newest on.
    fn need_all(&mut self) -> Option<()> {
        let mut clauses = self.blocks()?;
        let count = self.conflict.contradiction.checked_add(1)?;
        for left in (0..=count).rev() {
            clauses = self.need_blocks(clauses, left)?;
            if let Some(id) = left.checked_sub(1) {
                self.need_all_of(id)?;
            }
        }
        Some(())
    }

    // Marks what the blocks need that were written after so many steps. How many clauses are left.
    fn need_blocks(&mut self, clauses: u32, steps: u32) -> Option<u32> {
        for k in (0..clauses).rev() {
            if self.search.clauses.get(k)?.base < steps {
                return k.checked_add(1);
            }
            if *self.is_clause_needed.get(k as usize)? {
                self.need_block(k)?;
            }
        }
        Some(0)
    }

    fn need_block(&mut self, k: u32) -> Option<()> {
        let block = &self.search.clauses.get(k)?.block;
        for line in &block.lines {
            if let Rule::Lemma { end } = line.rule {
                *self.is_clause_needed.get_mut(end as usize)? = true;
            }
        }
        for hint in &block.hints {
            if *hint >= OUTSIDE {
                self.need(*hint & !OUTSIDE)?;
            }
        }
        Some(())
    }

    fn need_all_of(&mut self, id: u32) -> Option<()> {
        if !*self.is_needed.get(id as usize)? {
            return Some(());
        }
        if let Rule::Lemma { end } = self.search.steps.get(id)?.rule {
            *self.is_clause_needed.get_mut(end as usize)? = true;
        }
        for need in self.search.steps.needs(id)? {
            for id in &self.search.steps_of(*need)? {
                self.need(*id)?;
            }
        }
        Some(())
    }

    // Writes the blocks and the steps that are needed, from the oldest on.
    fn write_all(&mut self) -> Option<()> {
        let mut clauses = 0;
        for id in 0..=self.conflict.contradiction {
            clauses = self.write_blocks(clauses, id)?;
            self.write(id)?;
        }
        Some(())
    }

    // Writes the blocks that need nothing from this step on. How many clauses are done.
    fn write_blocks(&mut self, clauses: u32, id: u32) -> Option<u32> {
        let count = self.blocks()?;
        for k in clauses..count {
            if self.search.clauses.get(k)?.base > id {
                return Some(k);
            }
            if *self.is_clause_needed.get(k as usize)? {
                self.write_block(k)?;
            }
        }
        Some(count)
    }

    fn write_block(&mut self, k: u32) -> Option<()> {
        let block = &self.search.clauses.get(k)?.block;
        let first = self.lines.len()?;
        self.lines.block = Some(first);
        for line in &block.lines {
            self.copy(*line, line.hints_in(&block.hints), first)?;
        }
        self.lines.block = None;
        let end = self.lines.len()?.checked_sub(1)?;
        *self.ends.get_mut(k as usize)? = Some(end);
        Some(())
    }

    // Writes a line of a block that begins at line `first`.
    fn copy(&mut self, line: Line, named: &[u32], first: u32) -> Option<()> {
        let mut hints = Vec::new(self.search.alloc);
        for hint in named {
            let number = if *hint >= OUTSIDE {
                self.line(*hint & !OUTSIDE)?
            } else {
                hint.checked_add(first)?
            };
            hints.push(number).ok()?;
        }
        let rule = self.rule_of(line.rule)?;
        self.lines.add(line.fact, rule, &hints)?;
        Some(())
    }

    // The rule as it is written. A lemma names its clause in what is kept as a block, and the end of that clause's block in what is
    // handed out.
    fn rule_of(&self, rule: Rule) -> Option<Rule> {
        match rule {
            Rule::Lemma { end: k } if self.conflict.level == 0 => {
                let end = (*self.ends.get(k as usize)?)?;
                Some(Rule::Lemma { end })
            }
            rule => Some(rule),
        }
    }

    fn write(&mut self, id: u32) -> Option<()> {
        if !*self.is_needed.get(id as usize)? {
            return Some(());
        }
        let step = self.search.steps.get(id)?;
        let is_lemma = matches!(step.rule, Rule::Lemma { .. });
        let mut hints = Vec::new(self.search.alloc);
        for need in self.search.steps.needs(id)? {
            if let Some(line) = self.name(*need)?
                && (is_lemma || !hints.contains(&line))
            {
                hints.push(line).ok()?;
            }
        }
        let (fact, rule) = (self.fact_of(step.claim)?, self.rule_of(step.rule)?);
        let line = self.lines.add(fact, rule, &hints)?;
        *self.line_of.get_mut(id as usize)? = Some(line);
        Some(())
    }

    fn fact_of(&self, claim: Claim) -> Option<Fact> {
        let (from, to) = (self.search.place(claim.from)?, self.search.place(claim.to)?);
        let (write, read) = (from, to);
        Some(match claim.kind {
            Kind::Before => Fact::Before { from, to },
            Kind::Sees => Fact::Sees { write, read },
            Kind::SeesFirst => Fact::SeesFirst { read },
            Kind::Unseen => Fact::Unseen { write, read },
            Kind::UnseenFirst => Fact::UnseenFirst { read },
        })
    }

    // The line that shows what is needed: none where the order of a process does.
    fn name(&mut self, need: Need) -> Option<Option<u32>> {
        Some(match need {
            Need::Step(id) => Some(self.line(id)?),
            Need::Order { from, to } => self.name_order(from, to)?,
            Need::Hiding { from, to } => Some(self.name_from(from, to)?),
            Need::Hidden { write, by, read } => Some(self.name_hidden(write, by, read)?),
        })
    }

    fn name_order(&mut self, from: u32, to: u32) -> Option<Option<u32>> {
        let path = self.search.path(from, to)?;
        match path.as_slice() {
            [] => Some(None),
            [id] => Some(Some(self.line(*id)?)),
            _ => Some(Some(self.join(&path, from, to)?)),
        }
    }

    // By a line that begins at the one operation.
    fn name_from(&mut self, from: u32, to: u32) -> Option<u32> {
        let path = self.search.path(from, to)?;
        match path.as_slice() {
            [id] if self.search.steps.get(*id)?.claim.from == from => self.line(*id),
            _ => self.join(&path, from, to),
        }
    }

    // The line that joins those of these steps, from the one operation to the other.
    fn join(&mut self, path: &[u32], from: u32, to: u32) -> Option<u32> {
        let key = (from, from, to);
        if let Some(line) = self.lines.known(key) {
            return Some(line);
        }
        let mut hints = Vec::new(self.search.alloc);
        for id in path {
            hints.push(self.line(*id)?).ok()?;
        }
        let fact = self.fact_of(Claim::before(from, to))?;
        self.lines.keep(key, fact, Rule::Joined, &hints)
    }

    fn name_hidden(&mut self, write: u32, by: u32, read: u32) -> Option<u32> {
        let key = (by, write, read);
        if let Some(line) = self.lines.known(key) {
            return Some(line);
        }
        let mut hints = Vec::new(self.search.alloc);
        for (from, to) in [(write, by), (by, read)] {
            if let Some(line) = self.name_order(from, to)? {
                hints.push(line).ok()?;
            }
        }
        let (write, read) = (self.search.place(write)?, self.search.place(read)?);
        let by = self.search.place(by)?;
        let fact = Fact::Hidden { write, read };
        self.lines.keep(key, fact, Rule::Hidden { by }, &hints)
    }

    // Joins the step that contradicts and the way back from its end to its beginning.
    fn close(&mut self) -> Option<()> {
        let contradiction = self.conflict.contradiction;
        let Claim { from, to, .. } = self.search.steps.get(contradiction)?.claim;
        if from == to {
            return Some(());
        }
        let path = self.search.path(to, from)?;
        if path.is_empty() {
            return Some(());
        }
        let mut hints = Vec::new(self.search.alloc);
        hints.push(self.line(contradiction)?).ok()?;
        for id in &path {
            hints.push(self.line(*id)?).ok()?;
        }
        let fact = self.fact_of(Claim::before(from, from))?;
        self.lines.add(fact, Rule::Joined, &hints)?;
        Some(())
    }
}
