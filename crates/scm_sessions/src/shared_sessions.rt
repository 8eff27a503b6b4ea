//! The sessions of a run over a shared book.
ghost use Rattle.std.specs.Prelude.{◌≡◌, ◌<◌, ◌≤◌, ◌⊎◌, ℕ, List, [], ◌∷◌, ◌++◌, length, vec_capacity, IfOk, IfErr, OnOk, OnErr};
ghost use Rattle.scm_sequences.specs.declared.refusal.Refusal.TheVariants.{NoMemory, TooManySessions};
ghost use Rattle.scm_sequences.specs.declared.limits.TheConstants.{MOST_SESSIONS};
ghost use Rattle.scm_shared.specs.Passes.{newcomer};
ghost use Rattle.scm_sessions.specs.Script.{session_of, with_name};
ghost use Rattle.scm_sessions.specs.inner.Callers.{callers, made_by, AreNumberedFrom};

use crate::answers::MakeCalls;
use crate::sessions::turns_away;
use indexmap::IndexSet;
use scm_book::{Call, Reply};
use scm_cells::Name;
use scm_sequences::Refusal;
use scm_shared::{BookNaming, Pass, SharedBook};
use std::alloc::Global;
use std::marker::Model;
use std::sync::Wait;

/// The names of the sessions in the order of their entry, each with its pass, whose number is the name's place.
#[derive(Drop)]
pub(crate) struct SharedSessions<'a, B: BookNaming, T: Wait> {
    rt: &'a T,
    book: &'a SharedBook<B>,
    names: IndexSet<Name>,
    passes: Vec<Pass<B>>,
}

impl<'a, B: BookNaming, T: Wait> Model for SharedSessions<'a, B, T> {
    ghost use Rattle.std.specs.Prelude.{◌≡◌, ◌≤◌, length};
    ghost use Rattle.scm_sequences.specs.declared.limits.TheConstants.{MOST_SESSIONS};
    ghost use Rattle.scm_sessions.specs.inner.Callers.{Callers, callers, AreNumberedFrom};

    ghost Value = { Callers };

    ghost view = { λ s. callers s.names.keys s.passes.items };

    ghost invariant = { λ s.
        (length s.names.keys ≤ MOST_SESSIONS)
        × (length s.passes.items ≡ length s.names.keys)
        × AreNumberedFrom 0 s.passes.items };
}

/// The place of this name, which comes last where it is new. Unchanged where memory is refused.
fn enter_name(names: &mut IndexSet<Name>, name: Name) -> Result<usize, Refusal>
    ensures ok { IfOk result (λ place. (place ≡ session_of names.old.keys name) × (names.new.keys ≡ with_name names.old.keys name)) }
    ensures err { IfErr result (λ refusal. refusal ≡ NoMemory) }
    ensures unchanged { OnErr result (names.new.keys ≡ names.old.keys) }
{
    match names.insert_full(name) {
        Ok((place, _)) => Ok(place),
        Err(_) => Err(Refusal::NoMemory),
    }
}

/// Enters the shared book, and puts the new pass last. Unchanged after a refusal: `NoMemory`, or `TooManySessions` where all
/// passes entered, or where others entered too, so that the number of the pass isn't its place.
fn enter_next<B: BookNaming, T: Wait>(
    rt: &T,
    book: &SharedBook<B>,
    passes: &mut Vec<Pass<B>>,
) -> Result<(), Refusal>
    ensures ok { OnOk result (passes.new.items ≡ passes.old.items ++ newcomer (length passes.old.items) ∷ []) }
    ensures err { IfErr result (λ refusal. (refusal ≡ TooManySessions) ⊎ (refusal ≡ NoMemory)) }
    ensures unchanged { OnErr result (passes.new.items ≡ passes.old.items) }
{
    if passes.reserve(1).is_err() {
        return Err(Refusal::NoMemory);
    }
    let pass = book.enter(rt)?;
    if usize::from(pass.number()) != passes.len() {
        return Err(Refusal::TooManySessions);
    }
    passes.push_reserved(pass);
    Ok(())
}

impl<'a, B: BookNaming, T: Wait> SharedSessions<'a, B, T> {
    /// No session has entered.
    pub(crate) fn new(alloc: Global, rt: &'a T, book: &'a SharedBook<B>) -> SharedSessions<'a, B, T>
        ensures { result ≡ callers [] [] }
    {
        SharedSessions {
            rt,
            book,
            names: IndexSet::new(alloc),
            passes: Vec::new(alloc),
        }
    }

    /// The place of the session of this name, which enters where it is new. Refused `TooManySessions` or `NoMemory`.
    fn enter(&mut self, name: Name) -> Result<usize, Refusal>
        ensures ok { IfOk result (λ place. (place ≡ session_of self.new.names name) × (place < length self.new.passes)) }
        ensures err { IfErr result (λ refusal. (refusal ≡ TooManySessions) ⊎ (refusal ≡ NoMemory)) }
        ensures made { (other : List ℕ) → made_by self.new other ≡ made_by self.old other }
    {
        if turns_away(&self.names, &name) {
            return Err(Refusal::TooManySessions);
        }
        let place = enter_name(&mut self.names, name)?;
        if place < self.passes.len() {
            return Ok(place);
        }
        match enter_next(self.rt, self.book, &mut self.passes) {
            Ok(()) => Ok(place),
            Err(refusal) => {
                self.names.truncate(place);
                Err(refusal)
            }
        }
    }

    /// The passes, and into `names` the names, both in the order of their entry.
    pub(crate) fn into_parts(self, names: &mut Vec<Name>) -> Vec<Pass<B>>
        requires empty { names.old.items ≡ [] }
        requires fits { MOST_SESSIONS ≤ vec_capacity names.old }
        ensures names { names.new.items ≡ self.entry.names }
        ensures passes { result.items ≡ self.entry.passes }
        ensures each { length result.items ≡ length names.new.items }
        ensures numbered { AreNumberedFrom 0 result.items }
    {
        names.extend_from_slice(self.names.as_slice()).unwrap();
        self.passes
    }
}

impl<B: BookNaming, T: Wait> MakeCalls for SharedSessions<'_, B, T> {
    ghost use Rattle.scm_sessions.specs.inner.Callers.{MakesCall};

    ghost calls = { MakesCall };

    fn call(&mut self, name: Name, call: Call) -> Reply {
        match self.enter(name) {
            Ok(place) => self.book.call(self.rt, &mut self.passes[place], call),
            Err(refusal) => Reply::Refused(refusal),
        }
    }
}
