//! The run of a script with workers beside it.
ghost use Rattle.std.specs.Prelude.{◌≡◌, ◌≤◌, ◌↔◌, [], true, false, vec_capacity, IfOk, IsErrOf, IsTrue};
ghost use Rattle.scm_sequences.specs.declared.limits.TheConstants.{MOST_SESSIONS};
ghost use Rattle.scm_book.specs.Journal.{IsLegalBook};
ghost use Rattle.scm_sessions.specs.Script.{inner_of, has_failed, RunsWholeLines, RunsPart, MayFail};
ghost use Rattle.scm_sessions.specs.inner.Reading.{unread_of};
ghost use Rattle.scm_sessions.specs.inner.JournalText.{AreNamed};
ghost use Rattle.scm_sessions.specs.inner.Findings.{FindsWhole};
ghost use Rattle.scm_sessions.specs.inner.Callers.{RunsCallers};
ghost use Rattle.scm_sessions.specs.inner.SharedRuns.{AllFit, IsSharedRun};

use crate::reading::LineReader;
use crate::run::{begin_lines, run_lines};
use crate::shared_sessions::SharedSessions;
use crate::{Ended, Findings, Port, RunFault};
use scm_cells::Name;
use scm_expand::{Gate, run_workers};
use scm_results::Tally;
use scm_sequences::NoMemory;
use scm_shared::{BookNaming, BookToken, Pass, SharedBook};
use std::alloc::Global;
use std::io::{Read, Write};
use std::mem;
use std::sync::Wait;
use std::thread::{Threads, join_mut};

/// Runs the script over this book, and then tells the workers to end. Gives the passes of the sessions, whose names go into
/// `names`, in the order of their entry, and what the run found.
fn run_and_stop<'a, B: BookNaming, T: Wait, R: Read, W: Write>(
    rt: &'a T,
    alloc: Global,
    book: &'a SharedBook<B>,
    names: &mut Vec<Name>,
    lines: &mut LineReader,
    reader: &mut Port<R>,
    writer: &mut Port<W>,
) -> Result<(Vec<Pass<B>>, Findings), RunFault>
    requires empty { names.old.items ≡ [] }
    requires fits { MOST_SESSIONS ≤ vec_capacity names.old }
    requires fresh { unread_of lines.old ≡ [] }
    requires reads { has_failed reader.old ≡ false }
    requires writes { has_failed writer.old ≡ false }
    ensures ok { IfOk result (λ ended. RunsCallers (R.remaining (inner_of reader.old)) (R.remaining (inner_of reader.new))
        (W.contents (inner_of writer.old)) (W.contents (inner_of writer.new)) names.new.items ended.0.items ended.1) }
    ensures fails { MayFail result (R.remaining (inner_of reader.old)) (R.remaining (inner_of reader.new))
        (W.contents (inner_of writer.old)) (W.contents (inner_of writer.new)) (has_failed reader.new) (has_failed writer.new) AllFit }
{
    let mut sessions = SharedSessions::new(alloc, rt, book);
    let mut findings = Findings::new();
    let ran = run_lines(alloc, &mut sessions, lines, reader, writer, &mut findings);
    book.stop_workers();
    ran?;
    Ok((sessions.into_parts(names), findings))
}

/// Takes what the workers counted, where they ran.
fn take_tallies<B: BookNaming>(crew: Result<Vec<Tally<B>>, NoMemory>, tallies: &mut Vec<Tally<B>>) {
    if let Ok(mut brought) = crew {
        mem::swap(tallies, &mut brought);
        drop(brought);
    }
}

/// Runs the script over this book beside workers, which end with it and whose tallies go into `tallies`. Gives the passes of the
/// sessions, whose names go into `names`, in the order of their entry, with what the run found.
fn run_beside_workers<
    B: BookNaming + Send + Sync,
    R: Read,
    W: Write,
    G: Gate + Sync,
    T: Threads + Wait + Sync,
>(
    rt: &T,
    alloc: Global,
    book: &SharedBook<B>,
    names: &mut Vec<Name>,
    lines: &mut LineReader,
    reader: &mut Port<R>,
    writer: &mut Port<W>,
    gate: &G,
    workers: usize,
    tallies: &mut Vec<Tally<B>>,
) -> Result<(Vec<Pass<B>>, Findings), RunFault>
    requires empty { names.old.items ≡ [] }
    requires fits { MOST_SESSIONS ≤ vec_capacity names.old }
    requires fresh { unread_of lines.old ≡ [] }
    requires reads { has_failed reader.old ≡ false }
    requires writes { has_failed writer.old ≡ false }
    ensures ok { IfOk result (λ ended. RunsCallers (R.remaining (inner_of reader.old)) (R.remaining (inner_of reader.new))
        (W.contents (inner_of writer.old)) (W.contents (inner_of writer.new)) names.new.items ended.0.items ended.1) }
    ensures fails { MayFail result (R.remaining (inner_of reader.old)) (R.remaining (inner_of reader.new))
        (W.contents (inner_of writer.old)) (W.contents (inner_of writer.new)) (has_failed reader.new) (has_failed writer.new) AllFit }
{
    let mut work = || run_workers::<B, SharedBook<B>, G, T>(rt, alloc, book, gate, workers);
    let mut script = || run_and_stop(rt, alloc, book, names, lines, reader, writer);
    let (crew, ran) = join_mut(rt, &mut work, &mut script);
    take_tallies(crew, tallies);
    ran
}

/// Runs a script over a new book, in its order on the caller's thread, while `workers` threads look for situations that
/// questions will want. Ends with the book's audit and the names of the sessions, a name's place being the
/// number of its session, and with what it found in `findings`.
///
/// Each reply is written and flushed before more bytes are asked for, as far as whole lines were read. The run ends
/// early where the reader or the writer fails. `NoMemory` comes only before the first read; a line for which
/// memory is refused later is answered so, and the run goes on. Where no thread can be started, or memory for workers is
/// refused, it goes on without workers. Workers have ended when it ends.
pub fn run_with_workers<
    B: BookNaming + Send + Sync,
    R: Read,
    W: Write,
    G: Gate + Sync,
    T: Threads + Wait + Sync,
>(
    rt: &T,
    alloc: Global,
    token: BookToken,
    reader: &mut Port<R>,
    writer: &mut Port<W>,
    findings: &mut Findings,
    gate: &G,
    workers: usize,
) -> Result<Ended, RunFault>
    requires reads { has_failed reader.old ≡ false }
    requires writes { has_failed writer.old ≡ false }
    requires table { token.table.shared.table_id ≡ B.table }
    requires made { (token.made.name ≡ B.made) × (token.made.parts ≡ B.seats) }
    requires totals { (token.totals.taken.name ≡ B.taken) × (token.totals.delivered.name ≡ B.delivered) × (token.totals.taken.parts ≡ B.parts) }
    ensures ok { IfOk result (λ ended. FindsWhole (R.remaining (inner_of reader.old)) (R.remaining (inner_of reader.new))
        (W.contents (inner_of writer.old)) (W.contents (inner_of writer.new)) (IsSharedRun ended) findings.new) }
    ensures named { IfOk result (λ ended. IsTrue ended.audit.agreed → AreNamed ended.names.items ended.audit.book.journal) }
    ensures legal { IfOk result (λ ended. IsLegalBook ended.audit.book) }
    ensures read_failed { IsErrOf result RunFault.ReadFailed →
        RunsWholeLines (R.remaining (inner_of reader.old)) (R.remaining (inner_of reader.new))
        (W.contents (inner_of writer.old)) (W.contents (inner_of writer.new)) AllFit }
    ensures write_failed { IsErrOf result RunFault.WriteFailed →
        RunsPart (R.remaining (inner_of reader.old)) (R.remaining (inner_of reader.new))
        (W.contents (inner_of writer.old)) (W.contents (inner_of writer.new)) AllFit }
    ensures reader_failed { IsErrOf result RunFault.ReadFailed ↔ (has_failed reader.new ≡ true) }
    ensures writer_failed { IsErrOf result RunFault.WriteFailed ↔ (has_failed writer.new ≡ true) }
    ensures no_memory { IsErrOf result RunFault.NoMemory →
        (reader.new ≡ reader.old) × (writer.new ≡ writer.old) }
{
    let (mut lines, mut names) = begin_lines(alloc)?;
    let book = SharedBook::<B>::new(alloc, token);
    let mut tallies = Vec::new(alloc);
    let ran = run_beside_workers::<B, R, W, G, T>(
        rt,
        alloc,
        &book,
        &mut names,
        &mut lines,
        reader,
        writer,
        gate,
        workers,
        &mut tallies,
    );
    let (passes, found) = ran?;
    *findings = found;
    Ok(Ended {
        audit: book.audit(passes, tallies),
        names,
    })
}
