//! Whether something is known to be so, or not, and what shows that.
use crate::claims::{Claim, Kind};
use crate::drawn_steps::Need;
use crate::search::Search;

impl Search {
    /// Whether the claim is known to be true, or to be false.
    pub(crate) fn truth(&self, claim: Claim) -> Option<Option<bool>> {
        match claim.kind {
            Kind::Before => self.order_truth(claim.from, claim.to),
            Kind::Sees | Kind::SeesFirst => self.seen_truth(claim),
            Kind::Unseen | Kind::UnseenFirst => {
                let seen = self.seen_truth(claim.negation())?;
                Some(seen.map(|is_seen| !is_seen))
            }
        }
    }

    pub(crate) fn is_false(&self, claim: Claim) -> Option<bool> {
        Some(self.truth(claim)? == Some(false))
    }

    fn order_truth(&self, from: u32, to: u32) -> Option<Option<bool>> {
        if self.is_before(from, to)? {
            return Some(Some(true));
        }
        let is_false = from == to || self.is_before(to, from)?;
        Some(is_false.then_some(false))
    }

    fn seen_truth(&self, claim: Claim) -> Option<Option<bool>> {
        if let Some(id) = self.read_facts.source(claim.to)? {
            return Some(Some(self.steps.get(id)?.claim == claim));
        }
        Some(self.unseen_need(claim)?.map(|_| false))
    }

    /// What shows that this claim, that a read sees something, is false, if something does.
    fn unseen_need(&self, claim: Claim) -> Option<Option<Need>> {
        let read = claim.to;
        if let Some(id) = self.read_facts.source(read)? {
            let is_other = self.steps.get(id)?.claim != claim;
            return Some(is_other.then_some(Need::Step(id)));
        }
        match claim.kind {
            Kind::Sees => self.unseen_write_need(claim.from, read),
            _ => self.unseen_first_need(read),
        }
    }

    fn unseen_write_need(&self, write: u32, read: u32) -> Option<Option<Need>> {
        if let Some(id) = self.unseen(write, read)? {
            return Some(Some(Need::Step(id)));
        }
        if self.is_before(read, write)? {
            let (from, to) = (read, write);
            return Some(Some(Need::Order { from, to }));
        }
        let cell = self.given.numbering.cell(read)?;
        for process in 0..self.procs {
            if let Some(by) = self.last_write(process, cell, read)
                && self.is_before(write, by)?
            {
                return Some(Some(Need::Hidden { write, by, read }));
            }
        }
        Some(None)
    }

    fn unseen_first_need(&self, read: u32) -> Option<Option<Need>> {
        if let Some(id) = self.unseen_first(read)? {
            return Some(Some(Need::Step(id)));
        }
        let cell = self.given.numbering.cell(read)?;
        for process in 0..self.procs {
            if let Some(from) = self.last_write(process, cell, read) {
                return Some(Some(Need::Hiding { from, to: read }));
            }
        }
        let Some((value, id)) = self.read_facts.first(cell)? else {
            return Some(None);
        };
        let is_other = self.given.values.found(read) != Some(value);
        Some(is_other.then_some(Need::Step(id)))
    }

    /// What shows that a claim is false.
    pub(crate) fn falsity(&self, claim: Claim) -> Option<Need> {
        match claim.kind {
            Kind::Before => Some(Need::Order {
                from: claim.to,
                to: claim.from,
            }),
            Kind::Sees | Kind::SeesFirst => self.unseen_need(claim)?,
            Kind::Unseen | Kind::UnseenFirst => Some(Need::Step(
                self.read_facts.source(claim.to)??,
            )),
        }
    }
}
