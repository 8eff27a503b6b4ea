//! The run of a script with a thread for each session.
ghost use Rattle.std.specs.Prelude.{◌≡◌, ◌≤◌, ◌⊎◌, ◌↔◌, [], length, true, false, vec_capacity, All, IfOk, IfErr, IsErrOf, IsTrue};
ghost use Rattle.std.specs.Io.KnownBytes.{Appends};
ghost use Rattle.scm_book.specs.Journal.{IsLegalBook};
ghost use Rattle.scm_sessions.specs.Script.{inner_of, has_failed, AppendsPart, has_reply};
ghost use Rattle.scm_sessions.specs.inner.JournalText.{AreNamed};
ghost use Rattle.scm_sessions.specs.inner.Findings.{unanswered};
ghost use Rattle.scm_sessions.specs.inner.Jobs.{AreBegun, AllAnswered, jobs_text, with_jobs};
ghost use Rattle.scm_sessions.specs.inner.Groups.{GroupsWhole, GroupsWholeLines};
ghost use Rattle.scm_sessions.specs.inner.SharedRuns.{AllFit, IsSharedRun};
ghost use Rattle.scm_sessions.specs.inner.EachRuns.{FindsGroups, RunsGroupsWholeLines, RunsGroupsPart};

use crate::group_answers::answer_beside_workers;
use crate::group_ends::{add_findings, gathered, room_for, write_groups};
use crate::groups::{Group, Groups};
use crate::jobs::{Job, jobs_of};
use crate::reading::LineReader;
use crate::{Ended, Findings, Port, RunFault};
use scm_cells::Name;
use scm_expand::Gate;
use scm_results::Tally;
use scm_sequences::NoMemory;
use scm_shared::{BookNaming, BookToken, Pass, SharedBook};
use std::alloc::Global;
use std::io::{Read, Write};
use std::sync::Wait;
use std::thread::Threads;

/// The groups of the lines of a script, or of its whole lines before a read that failed. The lines are counted among the
/// findings. Fails where memory is refused.
fn read_groups<R: Read>(
    alloc: Global,
    reader: &mut Port<R>,
    findings: &mut Findings,
) -> Result<Vec<Group>, RunFault>
    requires reads { has_failed reader.old ≡ false }
    requires uncounted { findings.old ≡ unanswered 0 }
    ensures whole { IfOk result (λ groups. has_failed reader.new ≡ false →
        GroupsWhole (R.remaining (inner_of reader.old)) (R.remaining (inner_of reader.new)) groups.items findings.new) }
    ensures whole_lines { IfOk result (λ groups. has_failed reader.new ≡ true →
        GroupsWholeLines (R.remaining (inner_of reader.old)) (R.remaining (inner_of reader.new)) groups.items) }
    ensures fault { IfErr result (λ fault. fault ≡ RunFault.NoMemory) }
{
    let mut lines = LineReader::new(alloc)?;
    let mut groups = Groups::new(alloc);
    match groups.read(&mut lines, reader, findings) {
        Ok(()) | Err(RunFault::ReadFailed) => Ok(groups.into_groups()),
        Err(_) => Err(RunFault::NoMemory),
    }
}

/// The groups as they begin to run, and room for the names and the passes of their sessions.
fn begin_jobs<B: BookNaming, T: Wait>(
    rt: &T,
    alloc: Global,
    book: &SharedBook<B>,
    groups: Vec<Group>,
) -> Result<(Vec<Job<B>>, Vec<Name>, Vec<Pass<B>>), NoMemory>
    ensures begun { IfOk result (λ begins. AreBegun 0 groups.items begins.0.items) }
    ensures empty { IfOk result (λ begins. (begins.1.items ≡ []) × (begins.2.items ≡ [])) }
    ensures fits { IfOk result (λ begins. (length begins.0.items ≤ vec_capacity begins.1) × (length begins.0.items ≤ vec_capacity begins.2)) }
{
    let jobs = jobs_of(rt, alloc, book, groups)?;
    let (names, passes) = room_for(alloc, jobs.len())?;
    Ok((jobs, names, passes))
}

/// Answers the lines of all groups beside workers, which end with them. Gives the tallies that they bring back.
fn answer_jobs<B: BookNaming + Send + Sync, G: Gate + Sync, T: Threads + Wait + Sync>(
    rt: &T,
    alloc: Global,
    book: &SharedBook<B>,
    jobs: &mut Vec<Job<B>>,
    gate: &G,
    workers: usize,
) -> Vec<Tally<B>>
    requires { All (λ group. All (λ line. has_reply line.asked ≡ true) group.lines) jobs.old.items }
    ensures answered { AllAnswered jobs.old.items jobs.new.items }
    ensures each { length jobs.new.items ≡ length jobs.old.items }
{
    answer_beside_workers::<B, G, T>(rt, alloc, book, jobs.as_mut_slice(), gate, workers)
}

/// Writes the replies of all groups, and tells what was found in them where the script was read whole.
fn write_replies<B: BookNaming, R: Read, W: Write>(
    reader: &Port<R>,
    writer: &mut Port<W>,
    jobs: &[Job<B>],
    counted: Findings,
    findings: &mut Findings,
) -> Result<(), RunFault>
    requires { has_failed writer.old ≡ false }
    ensures whole { IfOk result (λ _. (has_failed reader.now ≡ false)
        × Appends (W.contents (inner_of writer.old)) (W.contents (inner_of writer.new)) (jobs_text jobs.now)
        × (findings.new ≡ with_jobs counted jobs.now)) }
    ensures read_failed { IsErrOf result RunFault.ReadFailed → (has_failed reader.now ≡ true)
        × Appends (W.contents (inner_of writer.old)) (W.contents (inner_of writer.new)) (jobs_text jobs.now) }
    ensures write_failed { IsErrOf result RunFault.WriteFailed →
        AppendsPart (W.contents (inner_of writer.old)) (W.contents (inner_of writer.new)) (jobs_text jobs.now) }
    ensures fault { IfErr result (λ fault. (fault ≡ RunFault.WriteFailed) ⊎ (fault ≡ RunFault.ReadFailed)) }
    ensures failed { IsErrOf result RunFault.WriteFailed ↔ (has_failed writer.new ≡ true) }
{
    write_groups(writer, jobs)?;
    if reader.failed() {
        return Err(RunFault::ReadFailed);
    }
    let mut found = counted;
    add_findings(&mut found, jobs);
    *findings = found;
    Ok(())
}

/// Runs a script over a new book with a thread for each session, while `workers` threads look for situations
/// that questions will want. The script is read whole, and its lines are grouped by the names that they begin with, in the order
/// in which they first come; lines without a name are a group too. The names with a call enter in this order, then the lines of
/// each are answered in a thread of its own, and at the end the replies are written group by group. What was found goes into
/// `findings`, as in a run in the order of the lines: the first refused line is that of the smallest number.
///
/// Where a read fails, the whole lines before it are answered and their replies written. Ends as `run_with_workers` does.
/// `NoMemory` comes only before the first answer; a line for which memory is refused later is answered so.
pub fn run_each<
    B: BookNaming + Send + Sync,
    R: Read,
    W: Write,
    G: Gate + Sync,
    T: Threads + Wait + Sync,
>(
    rt: &T,
    alloc: Global,
    token: BookToken,
    reader: &mut Port<R>,
    writer: &mut Port<W>,
    findings: &mut Findings,
    gate: &G,
    workers: usize,
) -> Result<Ended, RunFault>
    requires reads { has_failed reader.old ≡ false }
    requires writes { has_failed writer.old ≡ false }
    requires table { token.table.shared.table_id ≡ B.table }
    requires made { (token.made.name ≡ B.made) × (token.made.parts ≡ B.seats) }
    requires totals { (token.totals.taken.name ≡ B.taken) × (token.totals.delivered.name ≡ B.delivered) × (token.totals.taken.parts ≡ B.parts) }
    ensures ok { IfOk result (λ ended. FindsGroups (R.remaining (inner_of reader.old)) (R.remaining (inner_of reader.new))
        (W.contents (inner_of writer.old)) (W.contents (inner_of writer.new)) (IsSharedRun ended) findings.new) }
    ensures named { IfOk result (λ ended. IsTrue ended.audit.agreed → AreNamed ended.names.items ended.audit.book.journal) }
    ensures legal { IfOk result (λ ended. IsLegalBook ended.audit.book) }
    ensures read_failed { IsErrOf result RunFault.ReadFailed →
        RunsGroupsWholeLines (R.remaining (inner_of reader.old)) (R.remaining (inner_of reader.new))
        (W.contents (inner_of writer.old)) (W.contents (inner_of writer.new)) AllFit }
    ensures write_failed { IsErrOf result RunFault.WriteFailed →
        RunsGroupsPart (R.remaining (inner_of reader.old)) (R.remaining (inner_of reader.new))
        (W.contents (inner_of writer.old)) (W.contents (inner_of writer.new)) AllFit }
    ensures reader_failed { IsErrOf result RunFault.ReadFailed ↔
        ((has_failed reader.new ≡ true) × (has_failed writer.new ≡ false) × ¬ IsErrOf result RunFault.NoMemory) }
    ensures writer_failed { IsErrOf result RunFault.WriteFailed ↔ (has_failed writer.new ≡ true) }
    ensures no_memory { IsErrOf result RunFault.NoMemory → writer.new ≡ writer.old }
{
    let mut found = Findings::new();
    let groups = read_groups(alloc, reader, &mut found)?;
    let book = SharedBook::<B>::new(alloc, token);
    let (mut jobs, mut names, passes) = begin_jobs(rt, alloc, &book, groups)?;
    let tallies = answer_jobs::<B, G, T>(rt, alloc, &book, &mut jobs, gate, workers);
    write_replies(reader, writer, jobs.as_slice(), found, findings)?;
    let passes = gathered(jobs, &mut names, passes);
    Ok(Ended {
        audit: book.audit(passes, tallies),
        names,
    })
}
