//! What is taken as so: by a case, or by a clause.
use crate::claims::{Claim, Kind};
use crate::drawn_steps::Need;
use crate::search::Search;
use scm_orders::Rule;

impl Search {
    /// Takes a claim as so, of which nothing was known.
    pub(crate) fn assert(&mut self, claim: Claim, rule: Rule, needs: &[Need]) -> Option<()> {
        match claim.kind {
            Kind::Before => {
                self.draw(claim, rule, needs)?;
                Some(())
            }
            Kind::Sees => {
                let id = self.draw(claim, rule, needs)?;
                self.settle(claim, id)
            }
            Kind::SeesFirst => {
                let id = self.add(claim, rule, needs)?;
                self.settle(claim, id)?;
                self.settle_contents(claim.to, id)
            }
            Kind::Unseen | Kind::UnseenFirst => {
                let id = self.add(claim, rule, needs)?;
                self.read_facts.rule_out(claim.to, id)?;
                self.touch(claim.to)
            }
        }
    }

    /// Adds a step, and gives its number: nothing is drawn from it yet.
    pub(crate) fn add(&mut self, claim: Claim, rule: Rule, needs: &[Need]) -> Option<u32> {
        let level = u32::try_from(self.trail.len()).ok()?;
        self.steps.add(claim, rule, level, needs)
    }

    /// By this step it is known what a read sees.
    pub(crate) fn settle(&mut self, claim: Claim, id: u32) -> Option<()> {
        self.read_facts.settle(claim.to, id)?;
        self.choices.see(claim)?;
        self.candidates.close(claim.to)?;
        self.waiting.settled(claim.to)
    }

    // A read that sees first contents tells what they are.
    fn settle_contents(&mut self, read: u32, id: u32) -> Option<()> {
        let cell = self.given.numbering.cell(read)?;
        if self.read_facts.first(cell)?.is_some() || self.given.values.first(cell)?.is_some() {
            return Some(());
        }
        let value = self.given.values.found(read)?;
        self.set_first(cell, value, id)
    }

    /// Takes as so what is left of a clause of which all else is false; where that is false too, a contradiction is closed.
    pub(crate) fn infer(&mut self, k: u32, claim: Claim) -> Option<()> {
        let truth = self.truth(claim)?;
        if truth == Some(true) {
            return Some(());
        }
        let needs = self.clause_needs(k, claim)?;
        if truth == Some(false) && claim.kind != Kind::Before {
            return self.clash(k, claim, &needs);
        }
        self.assert(claim, Rule::Lemma { end: k }, &needs)
    }

    // What shows that all of a clause but one claim is false, in the order in which its block supposes it.
    fn clause_needs(&self, k: u32, claim: Claim) -> Option<Vec<Need>> {
        let mut needs = Vec::new(self.alloc);
        for other in &self.clauses.get(k)?.claims {
            if *other != claim {
                needs.push(self.falsity(*other)?).ok()?;
            }
        }
        Some(needs)
    }

    // What a read sees, or doesn't, contradicts the clause: so nothing is left for it to see.
    fn clash(&mut self, k: u32, claim: Claim, needs: &[Need]) -> Option<()> {
        let contrary = self.falsity(claim)?;
        let id = self.add(claim, Rule::Lemma { end: k }, needs)?;
        let nothing = Claim::before(claim.to, claim.to);
        self.draw(nothing, Rule::AfterAll, &[Need::Step(id), contrary])?;
        Some(())
    }
}
