//! The end of a run in groups: what their lines were answered is written, and the passes of their sessions are gathered.
ghost use Rattle.std.specs.Prelude.{◌≡◌, ◌≤◌, ◌<◌, ◌++◌, [], length, map, flat_map, false, is_err, option_copied, vec_capacity, IfOk, IfErr};
ghost use Rattle.scm_book.specs.Machine.{reply_data};
ghost use Rattle.scm_sessions.specs.Script.{inner_of, has_failed, WritesText, Sends, reply_line};
ghost use Rattle.scm_sessions.specs.inner.Findings.{with_findings};
ghost use Rattle.scm_sessions.specs.inner.Jobs.{job_text, jobs_text, with_jobs, names_in, passes_in, entered_names, entered_passes};

use crate::jobs::Job;
use crate::{Findings, Port, RunFault};
use scm_book::Reply;
use scm_cells::Name;
use scm_sequences::NoMemory;
use scm_shared::{BookNaming, Pass};
use std::alloc::Global;
use std::io::Write;

impl<W: Write> Port<W> {
    /// Puts these replies, each in its line under this name.
    fn put_reply_lines(&mut self, name: Option<&Name>, replies: &[Reply])
        ensures { Sends (W.contents (inner_of self.old)) (has_failed self.old)
            (W.contents (inner_of self.new)) (has_failed self.new)
            (flat_map (λ reply. reply_line (option_copied name.entry) reply) (map reply_data replies.now)) }
    {
        for reply in replies {
            self.put_reply_line(name, reply);
        }
    }

    /// Puts the replies of a group.
    fn put_group<B: BookNaming>(&mut self, group: &Job<B>)
        ensures { Sends (W.contents (inner_of self.old)) (has_failed self.old)
            (W.contents (inner_of self.new)) (has_failed self.new) (job_text group.now) }
    {
        self.put_reply_lines(group.name.as_ref(), group.replies.as_slice());
    }

    /// Puts the replies of these groups, one group after the other.
    fn put_groups<B: BookNaming>(&mut self, groups: &[Job<B>])
        ensures { Sends (W.contents (inner_of self.old)) (has_failed self.old)
            (W.contents (inner_of self.new)) (has_failed self.new) (jobs_text groups.now) }
    {
        for group in groups {
            self.put_group(group);
        }
    }
}

/// Writes the replies of these groups, one group after the other, and flushes. Takes no memory.
pub(crate) fn write_groups<B: BookNaming, W: Write>(
    writer: &mut Port<W>,
    groups: &[Job<B>],
) -> Result<(), RunFault>
    requires { has_failed writer.old ≡ false }
    ensures bytes { WritesText (W.contents (inner_of writer.old)) (W.contents (inner_of writer.new)) result (jobs_text groups.now) }
    ensures fault { IfErr result (λ fault. fault ≡ RunFault.WriteFailed) }
    ensures failed { has_failed writer.new ≡ is_err result }
{
    writer.put_groups(groups);
    if writer.failed() {
        return Err(RunFault::WriteFailed);
    }
    writer.flush()?;
    Ok(())
}

/// Adds what was found in this group.
fn add_group<B: BookNaming>(findings: &mut Findings, group: &Job<B>)
    ensures { findings.new ≡ with_findings findings.old group.now.found }
{
    findings.add_findings(&group.findings);
}

/// Adds what was found in these groups.
pub(crate) fn add_findings<B: BookNaming>(findings: &mut Findings, groups: &[Job<B>])
    ensures { findings.new ≡ with_jobs findings.old groups.now }
{
    for group in groups {
        add_group(findings, group);
    }
}

/// Room for the names and the passes of so many sessions.
pub(crate) fn room_for<B: BookNaming>(
    alloc: Global,
    sessions: usize,
) -> Result<(Vec<Name>, Vec<Pass<B>>), NoMemory>
    ensures empty { IfOk result (λ room. (room.0.items ≡ []) × (room.1.items ≡ [])) }
    ensures fits { IfOk result (λ room. (sessions ≤ vec_capacity room.0) × (sessions ≤ vec_capacity room.1)) }
{
    let names = Vec::with_capacity(alloc, sessions)?;
    let passes = Vec::with_capacity(alloc, sessions)?;
    Ok((names, passes))
}

/// Puts the name and the pass of a group last, where its session entered.
fn gather<B: BookNaming>(group: Job<B>, names: &mut Vec<Name>, passes: &mut Vec<Pass<B>>)
    requires name_fits { length names.old.items < vec_capacity names.old }
    requires pass_fits { length passes.old.items < vec_capacity passes.old }
    ensures names { names.new.items ≡ names.old.items ++ names_in group.name group.pass }
    ensures passes { passes.new.items ≡ passes.old.items ++ passes_in group.name group.pass }
    ensures name_room { vec_capacity names.new ≡ vec_capacity names.old }
    ensures pass_room { vec_capacity passes.new ≡ vec_capacity passes.old }
{
    let Job { name, pass, .. } = group;
    if let Some(name) = name {
        if let Some(pass) = pass {
            names.push_reserved(name);
            passes.push_reserved(pass);
        }
    }
}

/// The passes of the sessions that entered, and into `names` their names.
pub(crate) fn gathered<B: BookNaming>(
    groups: Vec<Job<B>>,
    names: &mut Vec<Name>,
    mut passes: Vec<Pass<B>>,
) -> Vec<Pass<B>>
    requires no_name { names.old.items ≡ [] }
    requires no_pass { passes.items ≡ [] }
    requires names_fit { length groups.items ≤ vec_capacity names.old }
    requires passes_fit { length groups.items ≤ vec_capacity passes }
    ensures names { names.new.items ≡ entered_names groups.items }
    ensures passes { result.items ≡ entered_passes groups.items }
{
    for group in groups {
        gather(group, names, &mut passes);
    }
    passes
}
