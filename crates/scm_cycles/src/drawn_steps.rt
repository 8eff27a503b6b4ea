//! What was drawn, step by step.
use crate::claims::Claim;
use scm_orders::Rule;
use std::alloc::Global;

/// What a step follows from: all of it was known before.
#[derive(Clone, Copy)]
pub(crate) enum Need {
    /// The step of this number.
    Step(u32),
    /// The one operation comes before the other.
    Order { from: u32, to: u32 },
    /// The same, where `from` hides what comes before it: a line of it has to begin there.
    Hiding { from: u32, to: u32 },
    /// `by` stands between the write and the read.
    Hidden { write: u32, by: u32, read: u32 },
}

/// What was drawn, by which rule, and under how many suppositions; with the next older step that leads on from the same
/// operation. In place of the line at which the block of a lemma ends stands the number of its clause.
#[derive(Clone, Copy)]
pub(crate) struct Step {
    pub(crate) claim: Claim,
    pub(crate) rule: Rule,
    pub(crate) level: u32,
    pub(crate) older: Option<u32>,
    // Where those needs begin that it follows from.
    needs_start: usize,
}

/// All of them, in the order in which they were drawn, with a chain of those that lead on from each operation.
#[derive(Drop)]
pub(crate) struct DrawnSteps {
    list: Vec<Step>,
    needs: Vec<Need>,
    newest: Vec<Option<u32>>,
}

impl DrawnSteps {
    pub(crate) fn new(alloc: Global, ops: u32) -> Option<DrawnSteps> {
        Some(DrawnSteps {
            list: Vec::new(alloc),
            needs: Vec::new(alloc),
            newest: vec![in alloc; None; ops as usize].ok()?,
        })
    }

    pub(crate) fn len(&self) -> Option<u32> {
        u32::try_from(self.list.len()).ok()
    }

    pub(crate) fn get(&self, id: u32) -> Option<Step> {
        self.list.get(id as usize).copied()
    }

    /// What a step follows from.
    pub(crate) fn needs(&self, id: u32) -> Option<&[Need]> {
        let next = self.get(id.checked_add(1)?);
        let end = next.map_or(self.needs.len(), |step| step.needs_start);
        self.needs.get(self.get(id)?.needs_start..end)
    }

    /// Adds one, and gives its number.
    pub(crate) fn add(
        &mut self,
        claim: Claim,
        rule: Rule,
        level: u32,
        needs: &[Need],
    ) -> Option<u32> {
        let id = self.len()?;
        let needs_start = self.needs.len();
        self.needs.extend_from_slice(needs).ok()?;
        let newest = self.newest.get_mut(claim.from as usize)?;
        let step = Step {
            claim,
            rule,
            level,
            older: *newest,
            needs_start,
        };
        self.list.push(step).ok()?;
        if claim.is_order() {
            *newest = Some(id);
        }
        Some(id)
    }

    /// Takes the newest back.
    pub(crate) fn take_back(&mut self) -> Option<Step> {
        let step = self.list.pop()?;
        if step.claim.is_order() {
            *self.newest.get_mut(step.claim.from as usize)? = step.older;
        }
        self.needs.truncate(step.needs_start);
        Some(step)
    }

    /// The newest that leads on from an operation, if there is one.
    pub(crate) fn newest(&self, x: u32) -> Option<u32> {
        *self.newest.get(x as usize)?
    }
}
