//! The state of a script run: the names of the sessions, and the book.
ghost use Rattle.std.specs.Prelude.{◌≡◌, ◌⊎◌, ◌≤◌, [], vec_capacity, true, false, IfOk, IfErr, OnErr};
ghost use Rattle.scm_sequences.specs.declared.refusal.Refusal.TheVariants.{NoMemory, TooManySessions};
ghost use Rattle.scm_sequences.specs.declared.limits.TheConstants.{MOST_SESSIONS};
ghost use Rattle.scm_book.specs.Journal.{IsLegalBook};
ghost use Rattle.scm_sessions.specs.Script.{script_state, session_of, with_name, is_turned_away};

use crate::answers::MakeCalls;
use indexmap::IndexSet;
use scm_book::{Book, Call, Reply};
use scm_cells::Name;
use scm_sequences::{MOST_SESSIONS, Refusal};
use std::alloc::Global;
use std::marker::Model;

/// The names of the sessions in the order of their entry, and the book. A name's place is the number of its session.
#[derive(Drop)]
pub struct Sessions {
    names: IndexSet<Name>,
    book: Book,
}

impl Model for Sessions {
    ghost use Rattle.std.specs.Prelude.{◌≤◌, length};
    ghost use Rattle.scm_sequences.specs.declared.limits.TheConstants.{MOST_SESSIONS};
    ghost use Rattle.scm_sessions.specs.Script.{ScriptState, script_state};

    ghost Value = { ScriptState };

    ghost view = { λ s. script_state s.names.keys s.book };

    ghost invariant = { λ s. length s.names.keys ≤ MOST_SESSIONS };
}

/// Whether a session of this name can't enter: the name is new, and all sessions have entered.
pub(crate) fn turns_away(names: &IndexSet<Name>, name: &Name) -> bool
    ensures { result ≡ is_turned_away names.now.keys name.now }
{
    names.len() >= MOST_SESSIONS && !names.contains(name)
}

impl Sessions {
    /// No session has entered.
    pub fn new(alloc: Global, book: Book) -> Sessions
        ensures { result ≡ script_state [] book }
    {
        Sessions {
            names: IndexSet::new(alloc),
            book,
        }
    }

    /// The number of the session of this name, which enters where it is new. Refused `TooManySessions` where all
    /// sessions have entered, or `NoMemory`; unchanged after a refusal.
    pub fn enter(&mut self, name: Name) -> Result<u16, Refusal>
        ensures ok { IfOk result (λ session. (session ≡ session_of self.old.names name)
            × (is_turned_away self.old.names name ≡ false) × (self.new.names ≡ with_name self.old.names name)) }
        ensures err { IfErr result (λ refusal.
            ((refusal ≡ TooManySessions) × (is_turned_away self.old.names name ≡ true)) ⊎ (refusal ≡ NoMemory)) }
        ensures unchanged { OnErr result (self.new.names ≡ self.old.names) }
        ensures book { self.new.book ≡ self.old.book }
    {
        if turns_away(&self.names, &name) {
            return Err(Refusal::TooManySessions);
        }
        let Ok((place, _)) = self.names.insert_full(name) else {
            return Err(Refusal::NoMemory);
        };
        Ok(place as u16)
    }

    /// The book, and the names in the order of their entry, which go into `room`.
    pub(crate) fn into_parts(self, mut room: Vec<Name>) -> (Book, Vec<Name>)
        requires empty { room.items ≡ [] }
        requires fits { MOST_SESSIONS ≤ vec_capacity room }
        ensures book { result.0 ≡ self.book }
        ensures legal { IsLegalBook result.0 }
        ensures names { result.1.items ≡ self.names }
    {
        let Sessions { names, book } = self;
        room.extend_from_slice(names.as_slice()).unwrap();
        (book, room)
    }
}

impl MakeCalls for Sessions {
    ghost use Rattle.scm_sessions.specs.Script.{AnswersCall};

    ghost calls = { AnswersCall };

    fn call(&mut self, name: Name, call: Call) -> Reply {
        match self.enter(name) {
            Ok(session) => self.book.call(session, call),
            Err(refusal) => Reply::Refused(refusal),
        }
    }
}
