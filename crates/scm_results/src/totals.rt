//! What a source keeps of what was taken from it and delivered to it.
ghost use Rattle.std.specs.Prelude.{◌≡◌, ◌+◌, ◌<◌, ◌≤◌, ◌↔◌, IsTrue, MatchOption, vec_len};
ghost use Rattle.scm_results.specs.declared.naming.TheConstants.{MOST_TALLIES};
ghost use Rattle.scm_results.specs.Totals.{with_taken, sum_of, delivered_of};
ghost use Rattle.scm_results.specs.Tallies.{nothing, nothing_counted, RisesAlike, AddUpTo};

use crate::{Delivered, MOST_TALLIES, Naming, Results, Taken, Tally, Token};
use std::marker::Model;
use std::sync::ledger::{Book, Share};

/// The totals of a source, which it keeps under its lock, and how many tallies it gave. What is counted here is counted at once
/// in a tally, so all tallies together add up to the totals. No call takes memory.
#[derive(Drop)]
pub struct Totals<B: Naming> {
    results: Results,
    given: u32,
    taken: Book<Taken<B>>,
    delivered: Book<Delivered<B>>,
    unissued_taken: Share<Taken<B>>,
    unissued_delivered: Share<Delivered<B>>,
}

impl<B: Naming> Model for Totals<B> {
    ghost use Rattle.std.specs.Prelude.{◌≡◌, ◌+◌, ◌≤◌};
    ghost use Rattle.scm_results.specs.declared.naming.TheConstants.{MOST_TALLIES};
    ghost use Rattle.scm_results.specs.Totals.{delivered_of};
    ghost use Rattle.scm_results.specs.Tallies.{Total};

    ghost Value = { Total };

    ghost view = { λ t. record { results = t.results; given = t.given } };

    ghost invariant = { λ t.
        (t.taken.total ≡ t.results.taken)
        × (t.delivered.total ≡ delivered_of t.results)
        × (t.unissued_taken.parts + t.given ≡ MOST_TALLIES + 1)
        × (t.unissued_delivered.parts + t.given ≡ MOST_TALLIES + 1)
        × (t.unissued_taken.amount ≡ 0)
        × (t.unissued_delivered.amount ≡ 0)
        × (t.given ≤ MOST_TALLIES)
        × (B.parts ≡ MOST_TALLIES + 1) };
}

impl<B: Naming> Totals<B> {
    /// Nothing was counted, and no tally was given.
    pub fn new(token: Token) -> Totals<B>
        requires taken { token.taken.name ≡ B.taken }
        requires delivered { token.delivered.name ≡ B.delivered }
        requires parts { token.taken.parts ≡ B.parts }
        ensures { result ≡ nothing }
    {
        let (taken, unissued_taken) = token.taken.open::<Taken<B>>();
        let (delivered, unissued_delivered) = token.delivered.open::<Delivered<B>>();
        Totals {
            results: Results::new(),
            given: 0,
            taken,
            delivered,
            unissued_taken,
            unissued_delivered,
        }
    }

    /// What was taken, and what became of what was delivered.
    pub fn results(&self) -> Results
        ensures { result ≡ self.now.results }
    {
        self.results
    }

    /// How many tallies were given.
    pub fn given(&self) -> u32
        ensures given { result ≡ self.now.given }
        ensures most { result ≤ MOST_TALLIES }
    {
        self.given
    }

    /// A new tally, in which nothing is counted. There is none only where [`MOST_TALLIES`] were given.
    pub fn tally(&mut self) -> Option<Tally<B>>
        ensures tally { MatchOption result ((self.old.given ≡ MOST_TALLIES) × (self.new.given ≡ self.old.given)) (λ t. (t ≡ nothing_counted) × (self.old.given < MOST_TALLIES) × (self.new.given ≡ self.old.given + 1)) }
        ensures results { self.new.results ≡ self.old.results }
    {
        if self.given >= MOST_TALLIES {
            return None;
        }
        self.given += 1;
        Some(Tally {
            taken: 0,
            delivered: 0,
            of_taken: self.unissued_taken.split_off(1, 0),
            of_delivered: self.unissued_delivered.split_off(1, 0),
        })
    }

    /// Counts this many tasks that were taken.
    pub fn take(&mut self, n: usize, tally: &mut Tally<B>)
        ensures results { self.new.results ≡ with_taken self.old.results n }
        ensures given { self.new.given ≡ self.old.given }
        ensures tally { RisesAlike self.old.results self.new.results tally.old tally.new }
    {
        let mut results = self.results;
        results.take(n);
        self.rise_to(results, tally);
    }

    /// Adds these totals, of outcomes that were delivered.
    pub fn add(&mut self, other: &Results, tally: &mut Tally<B>)
        ensures results { self.new.results ≡ sum_of self.old.results other.now }
        ensures given { self.new.given ≡ self.old.given }
        ensures tally { RisesAlike self.old.results self.new.results tally.old tally.new }
        ensures none_taken { other.now.taken ≡ 0 → tally.new.taken ≡ tally.old.taken }
    {
        let mut results = self.results;
        results.add(other);
        self.rise_to(results, tally);
    }

    /// Counts up to these totals, which are no less than its own.
    fn rise_to(&mut self, results: Results, tally: &mut Tally<B>)
        requires taken { self.old.results.taken ≤ results.taken }
        requires delivered { delivered_of self.old.results ≤ delivered_of results }
        ensures results { self.new.results ≡ results }
        ensures given { self.new.given ≡ self.old.given }
        ensures tally { RisesAlike self.old.results self.new.results tally.old tally.new }
    {
        let taken = results.taken - self.results.taken;
        let delivered = results.delivered() - self.results.delivered();
        self.taken.audit(&mut tally.of_taken);
        self.delivered.audit(&mut tally.of_delivered);
        self.taken.add(&mut tally.of_taken, taken);
        self.delivered.add(&mut tally.of_delivered, delivered);
        tally.taken += taken;
        tally.delivered += delivered;
        self.results = results;
    }

    /// Whether these tallies add up to the totals: of all that were given they do.
    pub fn settle(self, tallies: Vec<Tally<B>>) -> bool
        ensures exact { IsTrue result ↔ AddUpTo self.results tallies.items }
        ensures all { vec_len tallies ≡ self.given → IsTrue result }
        ensures few { vec_len tallies ≤ self.given }
    {
        let Totals {
            results,
            mut taken,
            mut delivered,
            unissued_taken: mut all_of_taken,
            unissued_delivered: mut all_of_delivered,
            ..
        } = self;
        let mut taken_sum = 0;
        let mut delivered_sum = 0;
        for tally in tallies {
            let Tally {
                taken: more_taken,
                delivered: more_delivered,
                of_taken,
                of_delivered,
            } = tally;
            all_of_taken.merge(of_taken);
            all_of_delivered.merge(of_delivered);
            taken.audit(&mut all_of_taken);
            delivered.audit(&mut all_of_delivered);
            taken_sum += more_taken;
            delivered_sum += more_delivered;
        }
        taken.audit(&mut all_of_taken);
        delivered.audit(&mut all_of_delivered);
        taken_sum == results.taken && delivered_sum == results.delivered()
    }
}
