//! Lists of events.
ghost use Rattle.std.specs.Prelude.{◌≡◌, ◌<◌, ◌≤◌, ◌++◌, [], length, map, IfOk, IfErr};
ghost use Rattle.std.specs.Vec.{vec_capacity};
ghost use Rattle.std.specs.Option.{option_map};
ghost use Rattle.scm_book.specs.Machine.{call_data, reply_data};
ghost use Rattle.scm_book.specs.Journal.{IsRun, IsLegalBook};
ghost use Rattle.scm_book.specs.Events.{takes, lends, lends_work, event_data, IsAnswered, AnswersAll, with_reply, steps_of};

use crate::{Book, Call, Loan, Reply};
use scm_expand::Outcome;
use std::alloc::Global;

/// What happens to a book.
#[derive(Drop, Debug)]
pub enum Event {
    /// A session makes a call.
    CallBy { session: u16, call: Call },
    /// A worker takes at most this many tasks, and drops them.
    Take(usize),
    /// Outcomes are delivered.
    Deliver(Vec<Outcome>),
    /// The question that a call asks is lent, where its plan says so, and dropped.
    Lend(Call),
    /// A set is lent for work, and dropped.
    LendWork,
    /// What was lent comes back: whenever, and of whatever book.
    TakeBack(Loan),
}

/// Takes at most `n` tasks, and drops them.
fn take(book: &mut Book, n: usize)
    ensures taken { IsAnswered book.old (takes n) None book.new }
    ensures legal { IsLegalBook book.new }
{
    let tasks = book.take(n);
    drop(tasks);
}

/// Lends the question that a call asks, where its plan says so, and drops it.
fn lend(book: &mut Book, call: &Call)
    ensures lent { IsAnswered book.old (lends (call_data call.now)) None book.new }
    ensures legal { IsLegalBook book.new }
{
    let plan = book.plan(call);
    drop(plan);
}

/// Lends a set for work, and drops it.
fn lend_work(book: &mut Book)
    ensures lent { IsAnswered book.old lends_work None book.new }
    ensures legal { IsLegalBook book.new }
{
    let loan = book.lend_work();
    drop(loan);
}

/// The reply to an event, where it is a call.
fn answer(book: &mut Book, event: Event) -> Option<Reply>
    ensures answered { IsAnswered book.old (event_data event) (option_map reply_data result) book.new }
    ensures legal { IsLegalBook book.new }
{
    match event {
        Event::CallBy { session, call } => Some(book.call(session, call)),
        Event::Take(n) => {
            take(book, n);
            None
        }
        Event::Deliver(outcomes) => {
            book.deliver(outcomes);
            None
        }
        Event::Lend(call) => {
            lend(book, &call);
            None
        }
        Event::LendWork => {
            lend_work(book);
            None
        }
        Event::TakeBack(loan) => {
            book.take_back(loan);
            None
        }
    }
}

/// Adds the reply to an event, if there is one, where there is room.
fn add_reply(replies: &mut Vec<Reply>, reply: Option<Reply>)
    requires room { length replies.old.items < vec_capacity replies.old }
    ensures items { map reply_data replies.new.items ≡ map reply_data replies.old.items ++ with_reply (option_map reply_data reply) [] }
    ensures capacity { vec_capacity replies.old ≤ vec_capacity replies.new }
{
    if let Some(reply) = reply {
        replies.push(reply).unwrap();
    }
}

/// Runs a list of events on a book, and gives the book and one reply to each call, in order. Where there is no memory for
/// the replies nothing is done, and book and events come back.
pub fn run_events(
    alloc: Global,
    mut book: Book,
    events: Vec<Event>,
) -> Result<(Book, Vec<Reply>), (Book, Vec<Event>)>
    ensures run { IfOk result (λ ended. AnswersAll book (map event_data events.items) (map reply_data ended.1.items) ended.0) }
    ensures machine { IfOk result (λ ended. IsRun book.machine (steps_of (map event_data events.items) (map reply_data ended.1.items)) ended.0.machine) }
    ensures legal { IfOk result (λ ended. IsLegalBook ended.0) }
    ensures refused { IfErr result (λ given_back. (given_back.0 ≡ book) × (map event_data given_back.1.items ≡ map event_data events.items)) }
{
    let Ok(mut replies) = Vec::with_capacity(alloc, events.len()) else {
        return Err((book, events));
    };
    for event in events {
        add_reply(&mut replies, answer(&mut book, event));
    }
    // What `entries` says of each book, that its journal is a legal history, is said of this one.
    let _entries = book.entries();
    Ok((book, replies))
}
