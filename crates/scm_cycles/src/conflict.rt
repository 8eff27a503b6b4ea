//! Why suppositions contradict each other.
use crate::claims::Claim;
use crate::drawn_steps::Need;
use crate::search::Search;
use scm_orders::Rule;
use std::mem;

/// Which part of a list of rises a way is looked for in, mostly.
const PART_OF_LIST: usize = 8;

/// What contradicts itself together: steps of lower levels, and last one of the level of the contradiction. Where it needs no
/// supposition the level is 0, and there are none.
#[derive(Drop)]
pub(crate) struct Conflict {
    pub(crate) contradiction: u32,
    pub(crate) level: u32,
    pub(crate) steps: Vec<u32>,
    is_seen: Vec<bool>,
    open: u32,
}

impl Search {
    /// What contradicts itself by the step that closed a cycle.
    pub(crate) fn explain(&mut self, contradiction: u32) -> Option<Conflict> {
        let needs = self.contradiction_needs(contradiction)?;
        let mut level = 0;
        for need in &needs {
            for id in &self.steps_of(*need)? {
                level = level.max(self.steps.get(*id)?.level);
            }
        }
        let count = contradiction.checked_add(1)?;
        let mut conflict = Conflict {
            contradiction,
            level,
            steps: Vec::new(self.alloc),
            is_seen: vec![in self.alloc; false; count as usize].ok()?,
            open: 0,
        };
        if level > 0 {
            self.add_needs_of(&mut conflict, &needs)?;
            self.resolve(&mut conflict)?;
        }
        Some(conflict)
    }

    // What the contradiction of a step that closed a cycle follows from. A step just before it that a clause gave is no
    // more than a part of it.
    fn contradiction_needs(&self, contradiction: u32) -> Option<Vec<Need>> {
        let mut needs = Vec::new(self.alloc);
        for need in self.steps.needs(contradiction)? {
            if let Need::Step(id) = *need
                && id.checked_add(1)? == contradiction
                && matches!(self.steps.get(id)?.rule, Rule::Lemma { .. })
            {
                needs.extend_from_slice(self.steps.needs(id)?).ok()?;
            } else {
                needs.push(*need).ok()?;
            }
        }
        let Claim { from, to, .. } = self.steps.get(contradiction)?.claim;
        if from != to {
            let (from, to) = (to, from);
            needs.push(Need::Order { from, to }).ok()?;
        }
        Some(needs)
    }

    // Back to the first step of the level that all of the contradiction goes through.
    fn resolve(&mut self, conflict: &mut Conflict) -> Option<()> {
        for id in (0..conflict.contradiction).rev() {
            if !*conflict.is_seen.get(id as usize)? || self.steps.get(id)?.level < conflict.level {
                continue;
            }
            if conflict.open <= 1 {
                conflict.steps.push(id).ok()?;
                return Some(());
            }
            conflict.open = conflict.open.checked_sub(1)?;
            let mut needs = Vec::new(self.alloc);
            needs.extend_from_slice(self.steps.needs(id)?).ok()?;
            self.add_needs_of(conflict, &needs)?;
        }
        None
    }

    fn add_needs_of(&mut self, conflict: &mut Conflict, needs: &[Need]) -> Option<()> {
        let list = self.rises.len_of_list()? / PART_OF_LIST;
        for need in needs {
            self.burn(self.procs)?;
            self.burn_for(list)?;
            for id in &self.steps_of(*need)? {
                self.add_step(conflict, *id)?;
            }
        }
        Some(())
    }

    fn add_step(&mut self, conflict: &mut Conflict, id: u32) -> Option<()> {
        let step = self.steps.get(id)?;
        let is_seen = conflict.is_seen.get_mut(id as usize)?;
        if step.level == 0 || mem::replace(is_seen, true) {
            return Some(());
        }
        self.choices.bump(step.claim)?;
        if step.level < conflict.level {
            conflict.steps.push(id).ok()
        } else {
            conflict.open = conflict.open.checked_add(1)?;
            Some(())
        }
    }
}
