//! The run of a script, from bytes to bytes.
ghost use Rattle.std.specs.Prelude.{◌≡◌, ◌≢◌, ◌≤◌, ◌↔◌, ℕ, List, [], true, false, is_err, IfOk, IfErr, OnOk, IsErrOf, option_copied, vec_capacity};
ghost use Rattle.std.specs.Io.KnownBytes.{Keeps};
ghost use Rattle.scm_sequences.specs.declared.limits.TheConstants.{MOST_SESSIONS};
ghost use Rattle.scm_sessions.specs.Asking.{line_given, asked_by};
ghost use Rattle.scm_sessions.specs.Script.{inner_of, has_failed, WritesText, LeadTo, RunsWholeLines, RunsPart, script_state, IsScriptRun, IsScriptBeginning};
ghost use Rattle.scm_sessions.specs.inner.Reading.{unread_of};
ghost use Rattle.scm_book.specs.Journal.{IsLegalBook};
ghost use Rattle.scm_sessions.specs.inner.JournalText.{AreNamed};
ghost use Rattle.scm_sessions.specs.inner.Findings.{findings_of, replies_of, with_answer, FindsWhole};
ghost use Rattle.scm_sessions.specs.inner.Answering.{AnswersLine};

use crate::answers::{MakeCalls, answer_line};
use crate::reading::{Cut, LineReader};
use crate::replies::send_reply;
use crate::sessions::Sessions;
use crate::{Findings, Port, RunFault};
use scm_book::Book;
use scm_cells::Name;
use scm_sequences::{MOST_SESSIONS, NoMemory};
use std::alloc::Global;
use std::io::{Read, Write};

/// What a run over the lines of a script begins with: a reader of lines, and room for the names of all sessions.
pub(crate) fn begin_lines(alloc: Global) -> Result<(LineReader, Vec<Name>), NoMemory>
    ensures fresh { IfOk result (λ begun. unread_of begun.0 ≡ []) }
    ensures empty { IfOk result (λ begun. begun.1.items ≡ []) }
    ensures fits { IfOk result (λ begun. MOST_SESSIONS ≤ vec_capacity begun.1) }
{
    let lines = LineReader::new(alloc)?;
    let names = Vec::with_capacity(alloc, MOST_SESSIONS)?;
    Ok((lines, names))
}

/// Answers a line, and hands the reply to the writer where it has one; `None` stands for a line that is too long. The answer
/// goes into the findings.
fn send_answer<S: MakeCalls, W: Write>(
    alloc: Global,
    sessions: &mut S,
    line: Option<&[u8]>,
    writer: &mut Port<W>,
    findings: &mut Findings,
) -> Result<(), RunFault>
    requires { has_failed writer.old ≡ false }
    ensures answered { (text : List ℕ)
        × (answers : AnswersLine S.calls sessions.old (asked_by (line_given (option_copied line.entry))) text sessions.new)
        × WritesText (W.contents (inner_of writer.old)) (W.contents (inner_of writer.new)) result text
        × (findings.new ≡ with_answer findings.old (replies_of answers.exchanges)) }
    ensures fault { IfErr result (λ fault. fault ≡ RunFault.WriteFailed) }
    ensures failed { has_failed writer.new ≡ is_err result }
{
    let answer = answer_line(alloc, sessions, line);
    findings.add_answer(answer.as_ref());
    match answer {
        Some(answer) => send_reply(writer, answer.name.as_ref(), &answer.reply),
        None => Ok(()),
    }
}

/// Flushes the replies where the next line can't be taken without a read, so that none is held back while bytes are
/// awaited.
fn flush_before_read<W: Write>(lines: &LineReader, writer: &mut Port<W>) -> Result<(), RunFault>
    requires { has_failed writer.old ≡ false }
    ensures bytes { Keeps (W.contents (inner_of writer.old)) (W.contents (inner_of writer.new)) }
    ensures fault { IfErr result (λ fault. fault ≡ RunFault.WriteFailed) }
    ensures failed { has_failed writer.new ≡ is_err result }
{
    if !lines.holds_line() {
        writer.flush()?;
    }
    Ok(())
}

/// Answers each line of the script that is left, up to a fault, and gathers what it finds.
pub(crate) fn run_lines<S: MakeCalls, R: Read, W: Write>(
    alloc: Global,
    sessions: &mut S,
    lines: &mut LineReader,
    reader: &mut Port<R>,
    writer: &mut Port<W>,
    findings: &mut Findings,
) -> Result<(), RunFault>
    requires fresh { unread_of lines.old ≡ [] }
    requires new { findings.old ≡ findings_of [] [] }
    requires reads { has_failed reader.old ≡ false }
    requires writes { has_failed writer.old ≡ false }
    ensures ok { OnOk result (FindsWhole (R.remaining (inner_of reader.old)) (R.remaining (inner_of reader.new))
        (W.contents (inner_of writer.old)) (W.contents (inner_of writer.new))
        (λ exchanges. LeadTo S.calls sessions.old exchanges sessions.new) findings.new) }
    ensures read_failed { IsErrOf result RunFault.ReadFailed →
        RunsWholeLines (R.remaining (inner_of reader.old)) (R.remaining (inner_of reader.new))
        (W.contents (inner_of writer.old)) (W.contents (inner_of writer.new))
        (λ exchanges. LeadTo S.calls sessions.old exchanges sessions.new) }
    ensures write_failed { IsErrOf result RunFault.WriteFailed →
        RunsPart (R.remaining (inner_of reader.old)) (R.remaining (inner_of reader.new))
        (W.contents (inner_of writer.old)) (W.contents (inner_of writer.new))
        (λ exchanges. LeadTo S.calls sessions.old exchanges sessions.new) }
    ensures reader_failed { IsErrOf result RunFault.ReadFailed ↔ (has_failed reader.new ≡ true) }
    ensures writer_failed { IsErrOf result RunFault.WriteFailed ↔ (has_failed writer.new ≡ true) }
    ensures memory { IfErr result (λ fault. fault ≢ RunFault.NoMemory) }
{
    'each: loop {
        flush_before_read(lines, writer)?;
        match lines.next_line(reader)? {
            Cut::Whole => send_answer(alloc, sessions, lines.line(), writer, findings)?,
            Cut::Last => {
                send_answer(alloc, sessions, lines.line(), writer, findings)?;
                writer.flush()?;
                return Ok(());
            }
            Cut::End => return Ok(()),
        }
    }
}

/// Runs a script: answers each of its lines over this book, and gives back the book and the names of the sessions, a
/// name's place being the number of its session, with what was found in `findings`.
///
/// Each reply is written and flushed before more bytes are asked for, as far as whole lines were read, and no sooner: the
/// replies to the lines that one read brought go out together. The run ends
/// early where the reader or the writer fails. `NoMemory` comes only before the first read; a line for which
/// memory is refused later is answered so, and the run goes on.
pub fn run_script<R: Read, W: Write>(
    alloc: Global,
    book: Book,
    reader: &mut Port<R>,
    writer: &mut Port<W>,
    findings: &mut Findings,
) -> Result<(Book, Vec<Name>), RunFault>
    requires reads { has_failed reader.old ≡ false }
    requires writes { has_failed writer.old ≡ false }
    ensures ok { IfOk result (λ ended. FindsWhole (R.remaining (inner_of reader.old)) (R.remaining (inner_of reader.new))
        (W.contents (inner_of writer.old)) (W.contents (inner_of writer.new))
        (λ exchanges. IsScriptRun (script_state [] book) exchanges (script_state ended.1.items ended.0)) findings.new) }
    ensures named { IfOk result (λ ended. book.journal ≡ [] → AreNamed ended.1.items ended.0.journal) }
    ensures legal { IfOk result (λ ended. IsLegalBook ended.0) }
    ensures read_failed { IsErrOf result RunFault.ReadFailed →
        RunsWholeLines (R.remaining (inner_of reader.old)) (R.remaining (inner_of reader.new))
        (W.contents (inner_of writer.old)) (W.contents (inner_of writer.new)) (IsScriptBeginning (script_state [] book)) }
    ensures write_failed { IsErrOf result RunFault.WriteFailed →
        RunsPart (R.remaining (inner_of reader.old)) (R.remaining (inner_of reader.new))
        (W.contents (inner_of writer.old)) (W.contents (inner_of writer.new)) (IsScriptBeginning (script_state [] book)) }
    ensures reader_failed { IsErrOf result RunFault.ReadFailed ↔ (has_failed reader.new ≡ true) }
    ensures writer_failed { IsErrOf result RunFault.WriteFailed ↔ (has_failed writer.new ≡ true) }
    ensures no_memory { IsErrOf result RunFault.NoMemory →
        (reader.new ≡ reader.old) × (writer.new ≡ writer.old) }
{
    let Ok((mut lines, names)) = begin_lines(alloc) else {
        drop(book);
        return Err(RunFault::NoMemory);
    };
    let mut sessions = Sessions::new(alloc, book);
    let mut found = Findings::new();
    run_lines(alloc, &mut sessions, &mut lines, reader, writer, &mut found)?;
    *findings = found;
    Ok(sessions.into_parts(names))
}
