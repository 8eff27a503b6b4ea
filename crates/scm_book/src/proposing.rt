//! Schedules that are proposed and judged.
ghost use Rattle.std.specs.Prelude.{◌↔◌, reverse, IfOk, IfSome, IsTrue};
ghost use Rattle.scm_sequences.specs.declared.limits.TheConstants.{MOST_CELLS};
ghost use Rattle.scm_sequences.specs.Sequences.{IsWithin, lengths_of};
ghost use Rattle.scm_sequences.specs.Traces.{trace_of, cut_to, IsSchedule};
ghost use Rattle.scm_book.specs.inner.Loans.{CanJudge, IsSettled};

use crate::known_schedules::KnownSchedules;
use crate::loan::PARTS_IN_WORDS;
use crate::open_trace::Purpose;
use scm_frontier::Situation;
use scm_proposals::{is_near_end, propose, propose_by_search, propose_by_walks};
use scm_reach::Reach;
use scm_schedules::is_legal;
use scm_sequences::{Lengths, MOST_CELLS, MOST_PROCESSES, Sequences};
use std::alloc::Global;

/// A search among no more situations than this is short.
const FEW_SITUATIONS: u64 = 256;

/// How far the answer to a question is.
#[derive(Clone, Copy)]
pub(crate) enum Distance {
    /// The set has it or is near to it.
    Near,
    /// There are few situations, the set is full, memory is refused, or there is no such question.
    Unknown,
    /// There may be many situations, and the set is neither full nor near to the answer.
    Far,
}

/// What schedules are proposed for: the trace with these sequences, cut to these lengths.
#[derive(Drop)]
pub(crate) struct Proposing<'a> {
    pub(crate) alloc: Global,
    pub(crate) sequences: &'a Sequences,
    pub(crate) lengths: &'a Lengths,
    /// How many situations may be kept.
    pub(crate) limit: usize,
    pub(crate) schedules: &'a KnownSchedules,
    /// For what they are proposed.
    pub(crate) purpose: Purpose,
}

impl Proposing<'_> {
    /// Whether a search is likely to be short, since its first way from the newest situation leads to the end, within the
    /// limit of situations. So a trace that grows from question to question goes on from what is held. Nothing rests on it.
    fn is_search_short(&self, reach: &Reach) -> Option<bool> {
        let newest = reach.held().checked_sub(1)?;
        let room = self.limit.checked_sub(reach.held())?;
        let situation = reach.situation(newest).ok()?;
        let is_short = self.leads_to_end(&situation, room);
        drop(situation);
        is_short
    }

    /// Whether the first way from this situation leads to the end, within so many situations.
    fn leads_to_end(&self, situation: &Situation, room: usize) -> Option<bool> {
        let mut counts = [0; MOST_PROCESSES];
        for p in 0..situation.procs() {
            *counts.get_mut(p)? = situation.count(p);
        }
        let mut contents = [None; MOST_CELLS];
        for c in 0..situation.cells() {
            *contents.get_mut(c)? = situation.value(c);
        }
        let counts = counts.get_mut(..situation.procs())?;
        Some(is_near_end(counts, &mut contents, self.sequences, self.lengths, room))
    }

    /// Whether the set has the answer.
    pub(crate) fn is_settled(&self, reach: &Reach) -> bool
        requires { IsWithin self.now.lengths.now (lengths_of self.now.sequences.now) }
        ensures { IsTrue result ↔ IsSettled self.now.sequences.now self.now.lengths.now reach.now.members }
    {
        reach.holds_whole(self.sequences, self.lengths) || !reach.is_open(self.sequences)
    }

    /// Whether the set has the answer, or a search in it is likely to be short. `None` where memory is refused. Nothing rests
    /// on it. What goes over the set comes last.
    fn is_near(&self, reach: &Reach) -> Option<bool>
        requires { IsWithin self.now.lengths.now (lengths_of self.now.sequences.now) }
    {
        Some(self.is_search_short(reach)? || self.is_settled(reach))
    }

    /// What the heuristic proposes.
    fn proposal(&self, reach: &Reach) -> Option<Vec<u8>> {
        let longest = self.schedules.longest();
        let room = self.room(reach);
        propose(
            self.alloc,
            reach.initials(),
            self.sequences,
            self.lengths,
            longest,
            self.limit,
            room,
        )
    }

    /// The room of the search that a proposal may spare: what the limit leaves beside this set, or all of it, for work, where the
    /// set has no more than a short search finds, and where it is full, if that wasn't tried of late.
    fn room(&self, reach: &Reach) -> usize {
        let room = self.limit.saturating_sub(reach.held());
        let is_due = room == 0 && self.schedules.may_spend_budget(self.lengths);
        let is_small = reach.held() <= self.limit / PARTS_IN_WORDS;
        if is_due || is_small || matches!(self.purpose, Purpose::Work) {
            self.limit
        } else {
            room
        }
    }

    /// Whether this proposal is a legal schedule.
    fn fits(&self, reach: &Reach, proposal: &[u8]) -> bool
        requires { CanJudge self.now.sequences.now self.now.lengths.now reach.now.initials }
        ensures { IsTrue result → IsSchedule (cut_to (trace_of reach.now.initials self.now.sequences.now) self.now.lengths.now) (reverse proposal.now) }
    {
        is_legal(reach.initials(), self.sequences, self.lengths, proposal)
    }

    /// This schedule, if there is one, where it is legal.
    fn judged<'s>(&self, reach: &Reach, proposal: Option<&'s [u8]>) -> Option<&'s [u8]>
        requires { CanJudge self.now.sequences.now self.now.lengths.now reach.now.initials }
        ensures { IfSome result (λ schedule. IsSchedule (cut_to (trace_of reach.now.initials self.now.sequences.now) self.now.lengths.now) (reverse schedule.now)) }
    {
        let schedule = proposal?;
        if self.fits(reach, schedule) {
            Some(schedule)
        } else {
            None
        }
    }

    /// The longest schedule that was found, where it has every operation, or else the order of the reports, which is that of
    /// their happening at best: where it is legal. It takes no memory.
    pub(crate) fn known(&self, reach: &Reach) -> Option<&[u8]>
        requires { CanJudge self.now.sequences.now self.now.lengths.now reach.now.initials }
        ensures { IfSome result (λ schedule. IsSchedule (cut_to (trace_of reach.now.initials self.now.sequences.now) self.now.lengths.now) (reverse schedule.now)) }
    {
        if self.schedules.are_illegal(self.lengths) {
            return None;
        }
        match self.judged(reach, self.schedules.complete_schedule(self.lengths)) {
            Some(schedule) => Some(schedule),
            None => self.judged(reach, self.schedules.reported(self.lengths)),
        }
    }

    /// A legal schedule of the trace: one that is known, or one that is proposed. Where none is known, `None` also where the set
    /// has the answer already or is near to it, where no proposal was legal before and nothing changed, and where memory is
    /// refused.
    pub(crate) fn legal(&self, reach: &Reach) -> Option<Vec<u8>>
        requires { CanJudge self.now.sequences.now self.now.lengths.now reach.now.initials }
        ensures { IfSome result (λ schedule. IsSchedule (cut_to (trace_of reach.now.initials self.now.sequences.now) self.now.lengths.now) (reverse schedule.items)) }
    {
        if let Some(schedule) = self.known(reach) {
            return Vec::from_slice(self.alloc, schedule).ok();
        }
        if self.schedules.has_failed(self.lengths) || self.is_near(reach)? {
            return None;
        }
        self.proposed(reach)
    }

    /// A legal schedule of what is lent, to which none is known and whose set hasn't the answer, by walks alone; or the fuel that
    /// they leave: nothing where none was legal before and nothing changed, for work where a search is likely to be short, where no
    /// schedule exists as far as was seen, and where memory is refused.
    pub(crate) fn legal_by_walks(&self, reach: &Reach) -> Result<Vec<u8>, u64>
        requires { CanJudge self.now.sequences.now self.now.lengths.now reach.now.initials }
        ensures { IfOk result (λ schedule. IsSchedule (cut_to (trace_of reach.now.initials self.now.sequences.now) self.now.lengths.now) (reverse schedule.items)) }
    {
        if self.schedules.has_failed(self.lengths) {
            return Err(0);
        }
        let is_for_work = matches!(self.purpose, Purpose::Work);
        if is_for_work && self.is_search_short(reach) != Some(false) {
            return Err(0);
        }
        let proposal = propose_by_walks(
            self.alloc,
            reach.initials(),
            self.sequences,
            self.lengths,
            self.schedules.longest(),
            self.limit,
            self.room(reach),
        )?;
        self.fitting(reach, proposal).ok_or(0u64)
    }

    /// The same after walks, with the fuel that they left.
    pub(crate) fn legal_by_search(&self, reach: &Reach, fuel: u64) -> Option<Vec<u8>>
        requires { CanJudge self.now.sequences.now self.now.lengths.now reach.now.initials }
        ensures { IfSome result (λ schedule. IsSchedule (cut_to (trace_of reach.now.initials self.now.sequences.now) self.now.lengths.now) (reverse schedule.items)) }
    {
        let proposal = propose_by_search(
            self.alloc,
            reach.initials(),
            self.sequences,
            self.lengths,
            self.limit,
            fuel,
        )?;
        self.fitting(reach, proposal)
    }

    /// What the heuristic proposes, where it is legal.
    fn proposed(&self, reach: &Reach) -> Option<Vec<u8>>
        requires { CanJudge self.now.sequences.now self.now.lengths.now reach.now.initials }
        ensures { IfSome result (λ schedule. IsSchedule (cut_to (trace_of reach.now.initials self.now.sequences.now) self.now.lengths.now) (reverse schedule.items)) }
    {
        let proposal = self.proposal(reach)?;
        self.fitting(reach, proposal)
    }

    /// This proposal, where it is legal.
    fn fitting(&self, reach: &Reach, proposal: Vec<u8>) -> Option<Vec<u8>>
        requires { CanJudge self.now.sequences.now self.now.lengths.now reach.now.initials }
        ensures { IfSome result (λ schedule. IsSchedule (cut_to (trace_of reach.now.initials self.now.sequences.now) self.now.lengths.now) (reverse schedule.items)) }
    {
        if self.fits(reach, &proposal) {
            Some(proposal)
        } else {
            None
        }
    }

    /// How far the answer is, to which no schedule is known.
    pub(crate) fn distance(&self, reach: &Reach) -> Distance
        requires { IsWithin self.now.lengths.now (lengths_of self.now.sequences.now) }
    {
        if has_few_situations(self.lengths, self.limit) || reach.held() >= self.limit {
            return Distance::Unknown;
        }
        match self.is_near(reach) {
            Some(true) => Distance::Near,
            Some(false) => Distance::Far,
            None => Distance::Unknown,
        }
    }

    /// Whether a question about the trace would search: the set has room and hasn't the answer, and no schedule is known.
    pub(crate) fn wants_work(&self, reach: &Reach) -> bool
        requires { CanJudge self.now.sequences.now self.now.lengths.now reach.now.initials }
    {
        reach.held() < self.limit && self.known(reach).is_none() && !self.is_settled(reach)
    }
}

/// Whether there are few situations at most, by the lengths or by the limit.
pub(crate) fn has_few_situations(lengths: &Lengths, limit: usize) -> bool {
    let mut situations = 1u64;
    for p in 0..lengths.procs() {
        let counts = u64::from(lengths.get(p)) + 1;
        situations = situations.saturating_mul(counts);
    }
    situations.min(limit as u64) <= FEW_SITUATIONS
}
