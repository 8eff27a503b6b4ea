//! The marks of a trace.
ghost use Rattle.std.specs.Prelude.{◌≡◌, ℕ, [], ◌∷◌, ◌++◌, ◌<◌, ◌≤◌, List, length, None, Ok, Err, IfOk, IfErr, OnOk, OnErr, MatchResult};
ghost use Rattle.scm_sequences.specs.declared.limits.TheConstants.{MOST_MARKS};
ghost use Rattle.scm_sequences.specs.Sequences.{Refuses};
ghost use Rattle.scm_marks.specs.MarkLists.{mark_at, marks_up_to, set_refusal};

use scm_sequences::{Lengths, MOST_MARKS, Refusal};
use std::alloc::Global;
use std::marker::Model;

/// At most `MOST_MARKS` lengths, in the order in which they were set. Contracts see their list.
#[derive(Drop)]
pub struct Marks {
    marks: Vec<Lengths>,
}

impl Model for Marks {
    ghost use Rattle.std.specs.Prelude.{ℕ, List, ◌≤◌, length};
    ghost use Rattle.scm_sequences.specs.declared.limits.TheConstants.{MOST_MARKS};

    ghost Value = { List (List ℕ) };

    ghost view = { λ m. m.marks.items };

    ghost invariant = { λ m. length m.marks.items ≤ MOST_MARKS };
}

impl Marks {
    /// No marks.
    pub fn new(alloc: Global) -> Marks
        ensures { result ≡ [] }
    {
        Marks {
            marks: Vec::new(alloc),
        }
    }

    /// The number of marks.
    pub fn count(&self) -> usize
        ensures count { result ≡ length self.now }
        ensures most { length self.now ≤ MOST_MARKS }
    {
        self.marks.len()
    }

    /// Sets a mark at these lengths, and gives its place, from 0. Refused `TooManyMarks`, or `NoMemory`; unchanged after a
    /// refusal.
    pub fn set(&mut self, lengths: Lengths) -> Result<u64, Refusal>
        ensures place { IfOk result (λ n. n ≡ length self.old) }
        ensures set { OnOk result ((set_refusal self.old ≡ None) × (self.new ≡ self.old ++ lengths ∷ [])) }
        ensures refused { IfErr result (Refuses (set_refusal self.old)) }
        ensures unchanged { OnErr result (self.new ≡ self.old) }
    {
        let place = self.marks.len();
        if place >= MOST_MARKS {
            return Err(Refusal::TooManyMarks);
        }
        self.marks.push(lengths).map_err(|_| Refusal::NoMemory)?;
        Ok(place as u64)
    }

    /// The lengths of mark `n`. Refused `NoSuchMark`. It takes no memory.
    pub fn get(&self, n: u64) -> Result<&Lengths, Refusal>
        ensures { MatchResult result (λ lengths. mark_at self.now n ≡ Ok lengths.now) (λ refusal. mark_at self.now n ≡ Err refusal) }
    {
        self.marks.get(n as usize).ok_or(Refusal::NoSuchMark)
    }

    /// Drops the marks after mark `n`, which stays. It takes no memory.
    pub fn back(&mut self, n: u64)
        requires { n < length self.old }
        ensures { self.new ≡ marks_up_to self.old n }
    {
        self.marks.truncate(n as usize + 1);
    }
}
