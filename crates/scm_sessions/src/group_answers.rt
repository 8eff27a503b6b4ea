//! The answers to the lines of a script, each group of them in a thread of its own.
ghost use Rattle.std.specs.Prelude.{◌≡◌, ◌<◌, All, MatchBool, [], length, true};
ghost use Rattle.scm_book.specs.Machine.{reply_data};
ghost use Rattle.scm_sessions.specs.Asking.{asked_data};
ghost use Rattle.scm_sessions.specs.Script.{has_reply};
ghost use Rattle.scm_sessions.specs.inner.Gathered.{AnswersIn};
ghost use Rattle.scm_sessions.specs.inner.Jobs.{AnsweredLines, AnsweredWhole, AllAnswered};

use crate::asking::Asked;
use crate::jobs::Job;
use crate::numbered::NumberedLine;
use scm_book::Reply;
use scm_expand::{Gate, run_workers};
use scm_results::Tally;
use scm_sequences::{MOST_SESSIONS, Refusal};
use scm_shared::{BookNaming, Pass, SharedBook};
use std::alloc::Global;
use std::sync::Wait;
use std::thread;
use std::thread::{Threads, join_mut};

/// The reply to a line of a session with this pass. Where it has none its calls are refused.
fn reply_to<B: BookNaming, T: Wait>(
    rt: &T,
    book: &SharedBook<B>,
    pass: &mut Option<Pass<B>>,
    asked: Asked,
) -> Reply
    requires { has_reply (asked_data asked) ≡ true }
    ensures { AnswersIn pass.old (asked_data asked) (reply_data result) pass.new }
{
    match asked {
        Asked::Nothing | Asked::Bad(_) => Reply::Refused(Refusal::BadLine),
        Asked::Good { call, .. } => match pass {
            Some(pass) => book.call(rt, pass, call),
            None => Reply::Refused(Refusal::TooManySessions),
        },
    }
}

/// Answers the next line of a group, and says whether there was one.
fn answer_next<B: BookNaming, T: Wait>(rt: &T, book: &SharedBook<B>, group: &mut Job<B>) -> bool
    requires { All (λ line. has_reply line.asked ≡ true) group.old.lines }
    ensures { MatchBool result (AnsweredLines group.old group.new × (length group.new.lines < length group.old.lines))
        ((group.new ≡ group.old) × (group.old.lines ≡ [])) }
{
    let Some(line) = group.lines.pop_front() else {
        return false;
    };
    let NumberedLine { number, asked } = line;
    let reply = reply_to(rt, book, &mut group.pass, asked);
    group.findings.add_reply_to(number, &reply);
    group.replies.push_reserved(reply);
    true
}

/// Answers the lines of a group, in order.
fn answer_group<B: BookNaming, T: Wait>(rt: &T, book: &SharedBook<B>, group: &mut Job<B>)
    requires { All (λ line. has_reply line.asked ≡ true) group.old.lines }
    ensures { AnsweredWhole group.old group.new }
{
    'each: while answer_next(rt, book, group) {}
}

/// Answers the lines of all groups, each group in a thread of its own while there are no more groups than sessions, and then
/// tells the workers to end.
fn answer_groups<B: BookNaming + Send + Sync, T: Threads + Wait + Sync>(
    rt: &T,
    book: &SharedBook<B>,
    groups: &mut [Job<B>],
)
    requires { All (λ group. All (λ line. has_reply line.asked ≡ true) group.lines) groups.old }
    ensures { AllAnswered groups.old groups.new }
{
    thread::for_each_mut(
        rt,
        groups,
        MOST_SESSIONS,
        &|_: usize, group: &mut Job<B>|
            requires { All (λ line. has_reply line.asked ≡ true) group.old.lines }
            ensures { AnsweredWhole group.old group.new }
        { answer_group(rt, book, group) },
    );
    book.stop_workers();
}

/// Answers the lines of all groups beside workers, which end with them. Gives the tallies that they bring back.
pub(crate) fn answer_beside_workers<
    B: BookNaming + Send + Sync,
    G: Gate + Sync,
    T: Threads + Wait + Sync,
>(
    rt: &T,
    alloc: Global,
    book: &SharedBook<B>,
    groups: &mut [Job<B>],
    gate: &G,
    workers: usize,
) -> Vec<Tally<B>>
    requires { All (λ group. All (λ line. has_reply line.asked ≡ true) group.lines) groups.old }
    ensures { AllAnswered groups.old groups.new }
{
    let mut work = || run_workers::<B, SharedBook<B>, G, T>(rt, alloc, book, gate, workers);
    let mut answer = ||
        requires { All (λ group. All (λ line. has_reply line.asked ≡ true) group.lines) groups.now }
    { answer_groups(rt, book, groups) };
    let (crew, ()) = join_mut(rt, &mut work, &mut answer);
    match crew {
        Ok(tallies) => tallies,
        Err(_) => Vec::new(alloc),
    }
}
