//! What is kept for the next proposal.
ghost use Rattle.std.specs.Prelude.{◌≡◌, ◌≤◌, [], length, max, sum};

use crate::Reply;
use scm_sequences::Lengths;
use std::alloc::Global;
use std::mem;

/// The longest schedule that was found for a trace, at how many operations none was found, and the order of its reports. It is
/// no part of the machine, and nothing rests on it: what a proposal makes of it is judged anew.
#[derive(Drop)]
pub(crate) struct KnownSchedules {
    schedule: Vec<u8>,
    /// The process of each operation, in the order of the reports, which is often that of their happening. `None` once
    /// memory was refused for it.
    reported: Option<Vec<u8>>,
    /// At how many operations no schedule was found. Nothing changed since, for any lengths with as many operations: the
    /// lengths that a trace can be asked about lie within one another.
    failed: Option<u64>,
    /// The same, where the whole budget could have been spent on a proposal.
    failed_at_full_budget: Option<u64>,
    /// At how many operations neither the schedule nor the order of the reports is legal, which were judged then.
    illegal: Option<u64>,
    /// How often the trace was cut.
    cuts: u64,
}

/// Where the set is full a proposal may cost the whole budget again once the trace has grown by this part of itself.
const GROWTH_TO_RETRY: u64 = 64;

impl KnownSchedules {
    /// No schedule and no operation yet.
    pub(crate) fn new(alloc: Global) -> KnownSchedules
        ensures { result.schedule.items ≡ [] }
    {
        KnownSchedules {
            schedule: Vec::new(alloc),
            reported: Some(Vec::new(alloc)),
            failed: None,
            failed_at_full_budget: None,
            illegal: None,
            cuts: 0,
        }
    }

    /// A copy.
    pub(crate) fn copy(&self) -> Option<KnownSchedules> {
        let alloc = *self.schedule.allocator();
        let reported = match &self.reported {
            Some(reported) => Vec::from_slice(alloc, reported).ok(),
            None => None,
        };
        Some(KnownSchedules {
            schedule: Vec::from_slice(alloc, &self.schedule).ok()?,
            reported,
            failed: self.failed,
            failed_at_full_budget: self.failed_at_full_budget,
            illegal: self.illegal,
            cuts: self.cuts,
        })
    }

    /// The longest one that was found.
    pub(crate) fn longest(&self) -> &[u8] {
        &self.schedule
    }

    /// The schedule, where it has as many operations as there are within the lengths.
    pub(crate) fn complete_schedule(&self, lengths: &Lengths) -> Option<&[u8]> {
        if self.schedule.len() as u64 == operations_in(lengths) {
            Some(&self.schedule)
        } else {
            None
        }
    }

    /// An operation of this process was reported.
    pub(crate) fn report(&mut self, process: usize)
        ensures { self.new.schedule ≡ self.old.schedule }
    {
        if self.keep_report(process).is_none() {
            self.reported = None;
        }
    }

    fn keep_report(&mut self, process: usize) -> Option<()>
        ensures { self.new.schedule ≡ self.old.schedule }
    {
        let place = u8::try_from(process).ok()?;
        self.reported.as_mut()?.push(place).ok()
    }

    /// The operations within the lengths, in the order in which they were reported: the first ones, since a trace can be asked
    /// about as it is or as it stood.
    pub(crate) fn reported(&self, lengths: &Lengths) -> Option<&[u8]> {
        let reported = self.reported.as_ref()?;
        reported.get(..operations_in(lengths) as usize)
    }

    /// Whether no schedule was found at these lengths, and nothing changed since.
    pub(crate) fn has_failed(&self, lengths: &Lengths) -> bool {
        self.failed == Some(operations_in(lengths))
    }

    /// Whether neither of them is legal at these lengths, as far as they were judged.
    pub(crate) fn are_illegal(&self, lengths: &Lengths) -> bool {
        self.illegal == Some(operations_in(lengths))
    }

    /// They were judged at these lengths: what comes of the reply of a legal one, or that neither is.
    pub(crate) fn learn_known(&mut self, known: Option<&Reply>, lengths: &Lengths)
        ensures { length self.new.schedule.items ≤ max (length self.old.schedule.items) (sum lengths.now) }
    {
        match known {
            Some(reply) => self.learn(reply, lengths),
            None => self.illegal = Some(operations_in(lengths)),
        }
    }

    /// What comes of the reply to a question about the trace cut to these lengths.
    pub(crate) fn learn(&mut self, reply: &Reply, lengths: &Lengths)
        ensures { length self.new.schedule.items ≤ max (length self.old.schedule.items) (sum lengths.now) }
    {
        match reply {
            Reply::Consistent(witness) => self.keep(&witness.schedule, lengths),
            _ => self.fail(lengths),
        }
    }

    /// No schedule was found at these lengths.
    pub(crate) fn fail(&mut self, lengths: &Lengths)
        ensures { self.new.schedule ≡ self.old.schedule }
    {
        let operations = operations_in(lengths);
        if self.may_spend_budget(lengths) {
            self.failed_at_full_budget = Some(operations);
        }
        self.failed = Some(operations);
    }

    /// Whether all of the budget may be spent on a proposal though the set is full.
    pub(crate) fn may_spend_budget(&self, lengths: &Lengths) -> bool {
        match self.failed_at_full_budget {
            Some(before) => operations_in(lengths)
                > before.saturating_add(before / GROWTH_TO_RETRY),
            None => true,
        }
    }

    /// Keeps a copy of a schedule of the trace cut to these lengths that isn't shorter, where there is memory for it.
    pub(crate) fn keep(&mut self, schedule: &[u8], lengths: &Lengths)
        ensures { length self.new.schedule.items ≤ max (length self.old.schedule.items) (sum lengths.now) }
    {
        let fits = schedule.len() as u64 <= operations_in(lengths);
        if !fits || schedule.len() < self.schedule.len() {
            return;
        }
        if let Ok(copy) = Vec::from_slice(*self.schedule.allocator(), schedule) {
            self.schedule = copy;
            self.illegal = None;
            self.retry();
        }
    }

    /// The trace is cut to these lengths. Of the schedule no more is kept than a schedule of them has; of the reports, the
    /// first ones, which led to these lengths.
    pub(crate) fn cut(&mut self, lengths: &Lengths)
        ensures { length self.new.schedule.items ≤ sum lengths.now }
    {
        let operations = operations_in(lengths) as usize;
        self.schedule.truncate(operations);
        if let Some(reported) = &mut self.reported {
            reported.truncate(operations);
        }
        self.cuts = self.cuts.saturating_add(1);
        self.failed = None;
        self.failed_at_full_budget = None;
        self.illegal = None;
    }

    /// Takes the schedule of another one, which began as a copy of this one, where it isn't shorter, as far as the trace has
    /// as many operations; and where nothing changed since, what failed or was illegal.
    pub(crate) fn take_back(&mut self, other: &mut KnownSchedules, present: &Lengths, is_same: bool)
        ensures { length self.new.schedule.items ≤ max (length self.old.schedule.items) (sum present.now) }
    {
        let is_unchanged = is_same && other.cuts == self.cuts;
        other.schedule.truncate(operations_in(present) as usize);
        if other.schedule.len() >= self.schedule.len() {
            mem::swap(&mut self.schedule, &mut other.schedule);
            self.illegal = if is_unchanged { other.illegal } else { None };
        }
        if is_unchanged {
            self.failed = other.failed;
            self.failed_at_full_budget = other.failed_at_full_budget;
        }
    }

    /// A proposal may find more than before.
    pub(crate) fn retry(&mut self)
        ensures { self.new.schedule ≡ self.old.schedule }
    {
        self.failed = None;
        self.failed_at_full_budget = None;
    }
}

/// How many operations lie within the lengths.
fn operations_in(lengths: &Lengths) -> u64
    ensures { result ≤ sum lengths.now }
{
    let mut operations: u64 = 0;
    for p in 0..lengths.procs() {
        operations = operations.saturating_add(u64::from(lengths.get(p)));
    }
    operations
}
