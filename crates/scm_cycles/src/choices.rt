//! What case is tried next.
use crate::claims::Claim;
use std::alloc::Global;

/// How much a contradiction adds to what it goes through, at first.
const FIRST_INCREMENT: u64 = 1 << 20;

/// From this on all is made smaller.
const MOST_INCREMENT: u64 = 1 << 40;

/// By how much it is made smaller.
const SCALE: u32 = 20;

/// For each operation how much contradictions went through it of late, and what was seen last.
#[derive(Drop)]
pub(crate) struct Choices {
    activities: Vec<u64>,
    last_seen: Vec<Option<Claim>>,
    increment: u64,
}

impl Choices {
    pub(crate) fn new(alloc: Global, ops: u32) -> Option<Choices> {
        Some(Choices {
            activities: vec![in alloc; 0; ops as usize].ok()?,
            last_seen: vec![in alloc; None; ops as usize].ok()?,
            increment: FIRST_INCREMENT,
        })
    }

    pub(crate) fn last_seen(&self, read: u32) -> Option<Option<Claim>> {
        self.last_seen.get(read as usize).copied()
    }

    pub(crate) fn see(&mut self, claim: Claim) -> Option<()> {
        *self.last_seen.get_mut(claim.to as usize)? = Some(claim);
        Some(())
    }

    /// A contradiction goes through this claim: its operations are chosen sooner.
    pub(crate) fn bump(&mut self, claim: Claim) -> Option<()> {
        let increment = self.increment;
        for x in [claim.to, claim.watched()] {
            let activity = self.activities.get_mut(x as usize)?;
            *activity = activity.saturating_add(increment);
        }
        Some(())
    }

    /// What comes later counts for more.
    pub(crate) fn age(&mut self) {
        self.increment = self.increment.saturating_add(self.increment / 19);
        if self.increment > MOST_INCREMENT {
            self.increment >>= SCALE;
            for activity in self.activities.iter_mut() {
                *activity >>= SCALE;
            }
        }
    }

    /// The activity of an operation, where 1,024 is one contradiction of late; never 0.
    pub(crate) fn share(&self, x: u32) -> Option<u64> {
        let activity = *self.activities.get(x as usize)?;
        let unit = (self.increment >> 10).max(1);
        Some((activity / unit).saturating_add(1))
    }
}
