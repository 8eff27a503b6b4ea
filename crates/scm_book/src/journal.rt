//! The journal of a book.
ghost use Rattle.std.specs.Prelude.{◌≡◌, ◌<◌, ◌≤◌, [], length, map, OnOk};
ghost use Rattle.scm_sequences.specs.declared.limits.TheConstants.{MOST_ENTRIES};
ghost use Rattle.scm_book.specs.Machine.{entry_data, call_data, reply_data};
ghost use Rattle.scm_book.specs.Journal.{is_full as is_full_list, count_of as count_in, entered, AreNumbered};

use crate::{Call, Entry, Reply};
use scm_sequences::{MOST_ENTRIES, NoMemory};
use std::alloc::Global;
use std::marker::Model;

/// The calls that were answered, in order, each with its reply and its number within its session.
///
/// Contracts see the entries, how many more have room, and how many sessions have a counter.
#[derive(Drop)]
pub(crate) struct Journal {
    entries: Vec<Entry>,
    counts: Vec<u64>,
}

impl Model for Journal {
    ghost use Rattle.std.specs.Prelude.{◌≤◌, ◌-◌, [], length, map, vec_capacity};
    ghost use Rattle.scm_sequences.specs.declared.limits.TheConstants.{MOST_ENTRIES};
    ghost use Rattle.scm_book.specs.Machine.{entry_data};
    ghost use Rattle.scm_book.specs.Journal.{AreNumbered};
    ghost use Rattle.scm_book.specs.inner.JournalState.{JournalState, CountsEach};

    ghost Value = { JournalState };

    ghost view = { λ j. record { entries = map entry_data j.entries.items; room = vec_capacity j.entries - length j.entries.items; sessions = length j.counts.items } };

    ghost invariant = { λ j. AreNumbered [] (map entry_data j.entries.items) × (length j.entries.items ≤ MOST_ENTRIES) × CountsEach j.counts.items (map entry_data j.entries.items) };
}

impl Journal {
    /// A journal with no entries.
    pub(crate) fn new(alloc: Global) -> Journal
        ensures { result.entries ≡ [] }
    {
        Journal {
            entries: Vec::new(alloc),
            counts: Vec::new(alloc),
        }
    }

    /// The entries, in order.
    pub(crate) fn entries(&self) -> &[Entry]
        ensures entries { map entry_data result.now ≡ self.now.entries }
        ensures numbered { AreNumbered [] self.now.entries }
        ensures most { length self.now.entries ≤ MOST_ENTRIES }
    {
        &self.entries
    }

    /// Whether no further entry may be made.
    pub(crate) fn is_full(&self) -> bool
        ensures { result ≡ is_full_list self.now.entries }
    {
        self.entries.len() >= MOST_ENTRIES
    }

    /// How many entries are of a session.
    pub(crate) fn count_of(&self, session: u16) -> u64
        ensures { result ≡ count_in session self.now.entries }
    {
        match self.counts.get(usize::from(session)) {
            Some(count) => *count,
            None => 0,
        }
    }

    /// Makes room for one more entry of a session, in amortized constant time.
    pub(crate) fn make_room(&mut self, session: u16) -> Result<(), NoMemory>
        ensures room { OnOk result ((0 < self.new.room) × (session < self.new.sessions)) }
        ensures entries { self.new.entries ≡ self.old.entries }
    {
        self.entries.reserve(1)?;
        let sessions = usize::from(session) + 1;
        if self.counts.len() < sessions {
            self.counts.resize(sessions, 0)?;
        }
        Ok(())
    }

    /// Adds an entry. It takes no memory, since `make_room` did.
    pub(crate) fn enter(&mut self, session: u16, call: Call, reply: Reply)
        requires room { 0 < self.old.room }
        requires session { session < self.old.sessions }
        requires most { length self.old.entries < MOST_ENTRIES }
        ensures { self.new.entries ≡ entered self.old.entries session (call_data call) (reply_data reply) }
    {
        let place = usize::from(session);
        let number = self.counts[place];
        let entry = Entry {
            session,
            number,
            call,
            reply,
        };
        self.entries.push(entry).unwrap();
        self.counts[place] = number + 1;
    }
}
