//! The groups of a script while they run.
ghost use Rattle.std.specs.Prelude.{◌≡◌, ◌+◌, ◌⊎◌, None, IfOk, IfSome};
ghost use Rattle.std.specs.List.{list_any};
ghost use Rattle.std.specs.Option.{option_map_or};
ghost use Rattle.scm_shared.specs.Passes.{newcomer};
ghost use Rattle.scm_sessions.specs.inner.Numbered.{line_data};
ghost use Rattle.scm_sessions.specs.inner.Jobs.{begun, is_call, AreBegun, HasEntered};

use crate::Findings;
use crate::asking::Asked;
use crate::groups::Group;
use crate::numbered::NumberedLine;
use scm_book::Reply;
use scm_cells::Name;
use scm_sequences::NoMemory;
use scm_shared::{BookNaming, Pass, SharedBook};
use std::alloc::Global;
use std::collections::VecDeque;
use std::marker::Model;
use std::sync::Wait;

/// A group while it runs: its lines that have no reply yet, the pass of its session, where it has one, the replies, for which
/// there is room, and what they say.
#[derive(Drop)]
pub(crate) struct Job<B: BookNaming> {
    pub(crate) name: Option<Name>,
    pub(crate) lines: VecDeque<NumberedLine>,
    pub(crate) pass: Option<Pass<B>>,
    pub(crate) replies: Vec<Reply>,
    pub(crate) findings: Findings,
}

impl<B: BookNaming> Model for Job<B> {
    ghost use Rattle.std.specs.Prelude.{◌+◌, ◌≤◌, length, map, vec_capacity};
    ghost use Rattle.scm_book.specs.Machine.{reply_data};
    ghost use Rattle.scm_sessions.specs.inner.Numbered.{line_data};
    ghost use Rattle.scm_sessions.specs.inner.Jobs.{JobData, job};

    ghost Value = { JobData };

    ghost view = { λ j. job j.name (map line_data j.lines.items) j.pass (map reply_data j.replies.items) j.findings };

    ghost invariant = { λ j. length j.lines.items + length j.replies.items ≤ vec_capacity j.replies };
}

/// Whether one of these lines is a call.
fn has_call(lines: &VecDeque<NumberedLine>) -> bool
    ensures { result ≡ list_any (λ line. is_call (line_data line).asked) lines.now.items }
{
    lines
        .iter()
        .any(|line| matches!(line.asked, Asked::Good { .. }))
}

/// A new pass of the shared book, where it has one left and the number of the pass is this one.
fn entered<B: BookNaming, T: Wait>(rt: &T, book: &SharedBook<B>, number: usize) -> Option<Pass<B>>
    ensures { IfSome result (λ pass. pass ≡ newcomer number) }
{
    let pass = book.enter(rt).ok()?;
    if usize::from(pass.number()) != number {
        return None;
    }
    Some(pass)
}

/// A group as it begins to run. Where it has a call it enters the book, if the next pass has this number.
fn job_of<B: BookNaming, T: Wait>(
    rt: &T,
    alloc: Global,
    book: &SharedBook<B>,
    number: usize,
    group: Group,
) -> Result<Job<B>, NoMemory>
    ensures { IfOk result (λ begins. (begins ≡ begun group None) ⊎ HasEntered number group begins) }
{
    let Group { name, lines } = group;
    let replies = Vec::with_capacity(alloc, lines.len())?;
    let pass = if has_call(&lines) {
        entered(rt, book, number)
    } else {
        None
    };
    Ok(Job {
        name,
        lines,
        pass,
        replies,
        findings: Findings::new(),
    })
}

/// The number of the pass after this job's, or this number where the job has none.
fn next_number<B: BookNaming>(job: &Job<B>, number: usize) -> usize
    ensures { result ≡ option_map_or (λ pass. pass.number + 1) job.now.pass number }
{
    match &job.pass {
        Some(pass) => usize::from(pass.number()) + 1,
        None => number,
    }
}

/// The groups as they begin to run: those that have a call enter the book, in their order, as far as it takes them.
pub(crate) fn jobs_of<B: BookNaming, T: Wait>(
    rt: &T,
    alloc: Global,
    book: &SharedBook<B>,
    groups: Vec<Group>,
) -> Result<Vec<Job<B>>, NoMemory>
    ensures { IfOk result (λ jobs. AreBegun 0 groups.items jobs.items) }
{
    let mut jobs = Vec::new(alloc);
    let mut number = 0;
    for group in groups {
        let job = job_of(rt, alloc, book, number, group)?;
        number = next_number(&job, number);
        jobs.push(job)?;
    }
    Ok(jobs)
}
