//! The end of a shared book: whose passes came back, and what workers counted.
ghost use Rattle.std.specs.Prelude.{◌≡◌, ◌+◌, ◌<◌, ◌≤◌, ◌↔◌, [], ◌∷◌, true, All, IsTrue, length, sum_by, vec_len};
ghost use Rattle.scm_sequences.specs.declared.limits.TheConstants.{MOST_SESSIONS};
ghost use Rattle.scm_results.specs.declared.naming.TheConstants.{MOST_TALLIES};
ghost use Rattle.scm_results.specs.Tallies.{AddUpTo};
ghost use Rattle.scm_book.specs.Journal.{IsLegalBook};
ghost use Rattle.scm_shared.specs.inner.Rule.{holder, FitsHistory};
ghost use Rattle.scm_shared.specs.inner.Steps.{both};
ghost use Rattle.scm_shared.specs.inner.Audits.{covers, Agree};

use crate::length_word::LengthWord;
use crate::locked::Locked;
use crate::word::View;
use crate::{BookNaming, Made, Pass};
use atomic_table::Seat;
use scm_book::{Book, Entry};
use scm_results::Tally;
use std::sync::ledger::Share;

/// What an audit finds.
#[derive(Drop)]
pub struct Audit {
    pub book: Book,
    /// How many passes entered.
    pub entered: u16,
    /// How many tallies were given.
    pub tallies: u32,
    /// Whether each session with an entry has its pass among those handed in. That the calls of these are its entries, in
    /// order, is proved.
    pub agreed: bool,
    /// Whether the tallies add up to what the book counted.
    pub totals_agreed: bool,
}

/// Takes a pass apart, which joins the book's seat. Gives how many calls it made.
fn take_in<B: BookNaming>(
    length_word: &LengthWord<B>,
    seat: &mut Seat<Entry, View>,
    all: &mut Share<Made<B>>,
    pass: Pass<B>,
) -> u64
    requires { seat.old.table_id ≡ B.table }
    ensures seat { (seat.new.table_id ≡ B.table) × (seat.new.me ≡ (both seat.old.me.0 (holder (pass ∷ [])), seat.old.me.1)) }
    ensures made { result ≡ length pass.made }
    ensures parts { (all.new.parts ≡ all.old.parts + 1) × (all.new.parts ≤ B.seats) }
    ensures amount { all.new.amount ≡ all.old.amount + length pass.made }
{
    let Pass {
        made,
        mut badge,
        share,
        ..
    } = pass;
    length_word.join(seat, &mut badge);
    all.merge(share);
    made
}

impl<B: BookNaming> Locked<B> {
    /// Takes apart what the lock holds, and compares the tallies with the totals. That the calls of every pass are its session's
    /// entries is proved, by the rule of the length word: what is looked at is whether they made as many as there are entries.
    pub(crate) fn audit(
        self,
        length_word: &LengthWord<B>,
        passes: Vec<Pass<B>>,
        tallies: Vec<Tally<B>>,
    ) -> Audit
        ensures book { result.book ≡ self.book }
        ensures entered { result.entered ≡ self.entered }
        ensures most_entered { (vec_len passes ≤ result.entered) × (result.entered ≤ MOST_SESSIONS) }
        ensures tallies { result.tallies ≡ self.totals.given }
        ensures most_tallies { (vec_len tallies ≤ result.tallies) × (result.tallies ≤ MOST_TALLIES) }
        ensures legal { IsLegalBook result.book }
        ensures fits { All (λ pass. FitsHistory result.book.journal pass) passes.items }
        ensures numbers { All (λ pass. pass.number < result.entered) passes.items }
        ensures made { vec_len passes ≡ result.entered → sum_by (λ pass. length pass.made) passes.items ≡ length result.book.journal }
        ensures agreed { IsTrue result.agreed ↔ Agree passes.items result.book.journal }
        ensures given { covers passes.items result.book.journal ≡ true → IsTrue result.agreed }
        ensures totals_agreed { IsTrue result.totals_agreed ↔ AddUpTo result.book.results tallies.items }
        ensures all_tallies { vec_len tallies ≡ result.tallies → IsTrue result.totals_agreed }
    {
        let Locked {
            book,
            entered,
            mut seat,
            totals,
            mut made,
            unissued: mut all,
            ..
        } = self;
        let mut calls = 0;
        for pass in passes {
            let of_pass = take_in(length_word, &mut seat, &mut all, pass);
            // By this, which does nothing at run time, no sum is more than there are entries.
            made.audit(&mut all);
            calls += of_pass;
        }
        made.audit(&mut all);
        length_word.learn(&mut seat);
        let entries = book.entries().len() as u64;
        Audit {
            book,
            entered,
            tallies: totals.given(),
            agreed: calls == entries,
            totals_agreed: totals.settle(tallies),
        }
    }
}
