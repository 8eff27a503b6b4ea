//! The calls of a journal, made again on a book of their own.

use scm_book::{Book, Entry, Event, Reply, run_events};
use scm_sequences::NoMemory;
use std::alloc::Global;

/// Whether a call that is made again is answered the same. A question may find another schedule, and where one of the two
/// runs ran out of its budget the other one need not have.
fn is_same(first: &Reply, again: &Reply) -> bool {
    match (first, again) {
        (Reply::Consistent(_), Reply::Consistent(_)) => true,
        (Reply::Undecided, again) => is_verdict(again),
        (first, Reply::Undecided) => is_verdict(first),
        _ => first == again,
    }
}

fn is_verdict(reply: &Reply) -> bool {
    matches!(
        reply,
        Reply::Consistent(_) | Reply::Inconsistent | Reply::Because(_) | Reply::Undecided
    )
}

/// The calls of a journal, made again by `run_events` on an empty book: that book then, and the replies.
pub(crate) fn run_again(alloc: Global, entries: &[Entry]) -> Result<(Book, Vec<Reply>), NoMemory> {
    let mut events = Vec::new(alloc);
    for entry in entries {
        events.push(Event::CallBy {
            session: entry.session,
            call: entry.call.clone()?,
        })?;
    }
    match run_events(alloc, Book::new(alloc), events) {
        Ok(ended) => Ok(ended),
        Err(_) => Err(NoMemory),
    }
}

/// Whether the calls of a journal that are made again are answered the same.
pub(crate) fn replays(alloc: Global, entries: &[Entry]) -> Result<bool, NoMemory> {
    let (_, replies) = run_again(alloc, entries)?;
    let same = entries
        .iter()
        .zip(replies.iter())
        .all(|(entry, again)| is_same(&entry.reply, again));
    Ok(same && replies.len() == entries.len())
}
