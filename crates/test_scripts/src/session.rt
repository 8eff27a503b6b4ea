//! Sessions of a shared book, as their callers see them.

use scm_book::{Call, Entry, Reply};
use scm_sequences::NoMemory;
use scm_shared::{BookNaming, Pass, SharedBook};
use std::alloc::Global;
use std::sync::Wait;

/// A pass, and the calls that were made with it, each with the reply that its caller got.
#[derive(Drop)]
pub(crate) struct Session<B: BookNaming> {
    pub(crate) pass: Pass<B>,
    pub(crate) calls: Vec<(Call, Reply)>,
}

impl<B: BookNaming> Session<B> {
    pub(crate) fn new(alloc: Global, pass: Pass<B>) -> Session<B> {
        Session {
            pass,
            calls: Vec::new(alloc),
        }
    }

    /// Makes a call, and keeps it with its reply.
    pub(crate) fn call<R: Wait>(
        &mut self,
        rt: &R,
        shared: &SharedBook<B>,
        call: Call,
    ) -> Result<(), NoMemory> {
        let made = call.clone()?;
        let reply = shared.call(rt, &mut self.pass, call);
        self.calls.push((made, reply))?;
        Ok(())
    }
}

/// Whether these are the calls and replies of the session's entries, in order.
pub(crate) fn are_entries_of(session: usize, calls: &[(Call, Reply)], journal: &[Entry]) -> bool {
    let entries = || journal
        .iter()
        .filter(|entry| usize::from(entry.session) == session);
    entries().count() == calls.len()
        && entries().zip(calls.iter()).all(|(entry, made)| entry.call == made.0
            && entry.reply == made.1)
}
