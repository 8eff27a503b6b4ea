//! Which case is tried next.
use crate::claims::Claim;
use crate::read_views::part;
use crate::search::{Search, Sought};

/// For how many reads that are looked at one step is burnt.
const READS_OF_STEP: u32 = 8;

/// A claim, and how much speaks for it.
#[derive(Clone, Copy)]
struct WeightedClaim {
    claim: Claim,
    weight: u64,
}

// Puts a claim in the place of the best one, if more speaks for it.
fn offer(best: &mut Option<WeightedClaim>, claim: Claim, weight: u64) {
    if best.is_none_or(|choice| weight > choice.weight) {
        *best = Some(WeightedClaim { claim, weight });
    }
}

impl Search {
    /// The case that is tried next, if there is one.
    pub(crate) fn choose(&mut self) -> Option<Option<Claim>> {
        let open = u32::try_from(self.candidates.open_reads()?.len()).ok()?;
        self.burn(open / READS_OF_STEP)?;
        if let Some(read) = self.open_read()? {
            return Some(Some(self.choose_source(read)?));
        }
        if self.sought == Sought::Schedule {
            return Some(None);
        }
        self.burn(self.ops / READS_OF_STEP)?;
        self.choose_order()
    }

    // The read by activity over how much is left, the latter by another power after each restart.
    fn open_read(&self) -> Option<Option<u32>> {
        let mut best: Option<(u32, u64)> = None;
        for read in self.candidates.open_reads()? {
            let weight = self.weight(*read)?;
            if best.is_none_or(|(first, most)| weight > most || weight == most && *read < first) {
                best = Some((*read, weight));
            }
        }
        Some(best.map(|(read, _)| read))
    }

    fn weight(&self, read: u32) -> Option<u64> {
        let left = self.candidates.left(read)?;
        let part = u64::from(left).saturating_mul(2).saturating_sub(1).max(1);
        let over = match self.restarts.count % 3 {
            1 => part.saturating_mul(part),
            2 => part,
            _ => part.saturating_mul(part).saturating_mul(part),
        };
        let share = self.choices.share(read)?.saturating_mul(1 << 32);
        Some(share / over.max(1))
    }

    fn time(&self, x: u32) -> Option<u64> {
        Some(u64::from(*self.given.times.get(x as usize)?))
    }

    // What was seen last, if it is left, else what is nearest.
    fn choose_source(&mut self, read: u32) -> Option<Claim> {
        if let Some(claim) = self.choices.last_seen(read)?
            && self.truth(claim)?.is_none()
        {
            return Some(claim);
        }
        let (cell, value) = (
            self.given.numbering.cell(read)?,
            self.given.values.found(read)?,
        );
        self.narrow(read, cell, value)?;
        let mut best = None;
        if self.candidates.is_first_left(read)? {
            let far = self.time(read)?;
            let claim = Claim::sees_first(read);
            offer(&mut best, claim, u64::MAX.saturating_sub(far));
        }
        for bounds in self.candidates.row(read)? {
            let writers = self.given.writers.of(value)?;
            let left = part(writers, bounds.low, bounds.high);
            self.offer_nearest(&mut best, read, left)?;
        }
        best.map(|choice| choice.claim)
    }

    fn offer_nearest(
        &self,
        best: &mut Option<WeightedClaim>,
        read: u32,
        left: &[u32],
    ) -> Option<()> {
        let here = self.time(read)?;
        for write in left {
            if self.unseen(*write, read)?.is_some() {
                continue;
            }
            let there = self.time(*write)?;
            let far = if there > here {
                there.saturating_sub(here).saturating_mul(3)
            } else {
                here.saturating_sub(there)
            };
            let claim = Claim::sees(*write, read);
            offer(best, claim, u64::MAX.saturating_sub(far));
        }
        Some(())
    }

    // Of a write whose order to a read and what that sees isn't known.
    fn choose_order(&self) -> Option<Option<Claim>> {
        let mut best = None;
        for read in 0..self.ops {
            if let Some(source) = self.read_facts.source(read)? {
                let claim = self.steps.get(source)?.claim;
                if claim.is_order() {
                    self.offer_orders(&mut best, claim)?;
                }
            }
        }
        Some(best.map(|choice| choice.claim))
    }

    fn offer_orders(&self, best: &mut Option<WeightedClaim>, seen: Claim) -> Option<()> {
        for process in 0..self.procs {
            if let Some(x) = self.between(seen, process)? {
                let weight = self.choices.share(seen.to)?.max(self.choices.share(x)?);
                let is_early = self.time(x)? < self.time(seen.from)?;
                let claim = if is_early {
                    Claim::before(x, seen.from)
                } else {
                    Claim::before(seen.to, x)
                };
                offer(best, claim, weight);
            }
        }
        Some(())
    }

    // The first write of a process to the cell that is known neither to come before the source nor after the read.
    fn between(&self, seen: Claim, process: u32) -> Option<Option<u32>> {
        let (owner, _) = self.given.numbering.spot(seen.from)?;
        if owner == process {
            return Some(None);
        }
        let cell = self.given.numbering.cell(seen.to)?;
        let place = self.before(seen.from, process)?;
        let mut next = self.write_at(process, cell, place);
        if next == Some(seen.to) {
            let (_, at) = self.given.numbering.spot(seen.to)?;
            next = self.write_at(process, cell, at.checked_add(1)?);
        }
        match next {
            Some(x) if !self.is_before(seen.to, x)? => Some(Some(x)),
            _ => Some(None),
        }
    }

    /// The first write of a process to a cell, from a place on.
    pub(crate) fn write_at(&self, process: u32, cell: u32, place: u32) -> Option<u32> {
        let at = self.given.writes.from(process, cell, place)?;
        self.given.numbering.number(process, at)
    }
}
