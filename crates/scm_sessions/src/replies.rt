//! The text of replies.
ghost use Rattle.std.specs.Prelude.{◌≡◌, ◌++◌, codes, false, flat_map, is_err, option_copied, unwrap_or, IfErr};
ghost use Rattle.scm_book.specs.Machine.{reply_data, marked, consistent, ops, listed, refused};
ghost use Rattle.scm_sessions.specs.Script.{inner_of, has_failed, reads_of, WritesText, Sends, spaced, fixed_text, with_text, shown_text, reply_text, reply_line};

use crate::{Port, RunFault};
use scm_book::{Reply, Shown};
use scm_cells::Name;
use scm_sequences::{Op, Refusal};
use std::io::Write;

/// The reply to a line, and the name of the session that it goes to, where the line has one.
#[derive(Drop, Debug)]
pub struct Answer {
    pub name: Option<Name>,
    pub reply: Reply,
}

/// The name of a session as it stands in a reply.
fn shown_name(name: Option<&Name>) -> &[u8]
    ensures { result.now ≡ unwrap_or (option_copied name.entry) (codes "?") }
{
    match name {
        Some(name) => name.bytes(),
        None => b"?",
    }
}

impl<W: Write> Port<W> {
    /// Puts a fixed value, with a space before it: the name of its cell, an equals sign and the value.
    fn put_fixed_value(&mut self, fixed: (Name, u64))
        ensures bytes { Sends (W.contents (inner_of self.old)) (has_failed self.old)
            (W.contents (inner_of self.new)) (has_failed self.new) (fixed_text fixed) }
        ensures reads { reads_of self.new ≡ reads_of self.old }
    {
        let (cell, value) = fixed;
        self.put_spaced_name(cell);
        self.put(b"=");
        self.put_number(value);
    }

    /// Puts each of these fixed values.
    fn put_fixed_values(&mut self, fixed: &[(Name, u64)])
        ensures bytes { Sends (W.contents (inner_of self.old)) (has_failed self.old)
            (W.contents (inner_of self.new)) (has_failed self.new) (flat_map fixed_text fixed.now) }
        ensures reads { reads_of self.new ≡ reads_of self.old }
    {
        for value in fixed {
            self.put_fixed_value(*value);
        }
    }

    /// Puts what stands behind a schedule: these fixed values, where there are any.
    fn put_with(&mut self, fixed: &[(Name, u64)])
        ensures bytes { Sends (W.contents (inner_of self.old)) (has_failed self.old)
            (W.contents (inner_of self.new)) (has_failed self.new) (with_text fixed.now) }
        ensures reads { reads_of self.new ≡ reads_of self.old }
    {
        if !fixed.is_empty() {
            self.put(b" with");
            self.put_fixed_values(fixed);
        }
    }

    /// Puts the reply that a trace is consistent: the process numbers of a schedule, and its fixed values.
    fn put_consistent(&mut self, schedule: &[u8], fixed: &[(Name, u64)])
        ensures bytes { Sends (W.contents (inner_of self.old)) (has_failed self.old)
            (W.contents (inner_of self.new)) (has_failed self.new) (reply_text (consistent schedule.now fixed.now)) }
        ensures reads { reads_of self.new ≡ reads_of self.old }
    {
        self.put(b"consistent ");
        self.put_number(schedule.len() as u64);
        self.put_numbers(schedule);
        self.put_with(fixed);
    }

    /// Puts the letters of an operation, the name of its cell and its first value.
    fn put_labelled(&mut self, letters: &[u8], cell: Name, value: u64)
        ensures bytes { Sends (W.contents (inner_of self.old)) (has_failed self.old)
            (W.contents (inner_of self.new)) (has_failed self.new) (letters.now ++ cell ++ spaced value) }
        ensures reads { reads_of self.new ≡ reads_of self.old }
    {
        self.put(letters);
        self.put(cell.bytes());
        self.put_value(value);
    }

    /// Puts a read and a write in one step.
    fn put_read_write(&mut self, cell: Name, old: u64, new: u64)
        ensures bytes { Sends (W.contents (inner_of self.old)) (has_failed self.old)
            (W.contents (inner_of self.new)) (has_failed self.new) (codes " RW " ++ cell ++ spaced old ++ spaced new) }
        ensures reads { reads_of self.new ≡ reads_of self.old }
    {
        self.put_labelled(b" RW ", cell, old);
        self.put_value(new);
    }

    /// Puts an operation, with a space before it.
    fn put_operation(&mut self, shown: &Shown)
        ensures bytes { Sends (W.contents (inner_of self.old)) (has_failed self.old)
            (W.contents (inner_of self.new)) (has_failed self.new) (shown_text shown.now) }
        ensures reads { reads_of self.new ≡ reads_of self.old }
    {
        match shown.op {
            Op::R { value, .. } => self.put_labelled(b" R ", shown.cell, value),
            Op::W { value, .. } => self.put_labelled(b" W ", shown.cell, value),
            Op::Rw { old, new, .. } => self.put_read_write(shown.cell, old, new),
        }
    }

    /// Puts each of these operations.
    fn put_each(&mut self, operations: &[Shown])
        ensures bytes { Sends (W.contents (inner_of self.old)) (has_failed self.old)
            (W.contents (inner_of self.new)) (has_failed self.new) (flat_map shown_text operations.now) }
        ensures reads { reads_of self.new ≡ reads_of self.old }
    {
        for shown in operations {
            self.put_operation(shown);
        }
    }

    /// Puts the reply that shows the operations of a process.
    fn put_operations(&mut self, operations: &[Shown])
        ensures bytes { Sends (W.contents (inner_of self.old)) (has_failed self.old)
            (W.contents (inner_of self.new)) (has_failed self.new) (reply_text (ops operations.now)) }
        ensures reads { reads_of self.new ≡ reads_of self.old }
    {
        self.put(b"ops ");
        self.put_number(operations.len() as u64);
        self.put_each(operations);
    }

    /// Puts the number of a mark that was set.
    fn put_mark(&mut self, mark: u64)
        ensures bytes { Sends (W.contents (inner_of self.old)) (has_failed self.old)
            (W.contents (inner_of self.new)) (has_failed self.new) (reply_text (marked mark)) }
        ensures reads { reads_of self.new ≡ reads_of self.old }
    {
        self.put(b"ok ");
        self.put_number(mark);
    }

    /// Puts the reply that lists the names of the open traces.
    fn put_traces(&mut self, names: &[Name])
        ensures bytes { Sends (W.contents (inner_of self.old)) (has_failed self.old)
            (W.contents (inner_of self.new)) (has_failed self.new) (reply_text (listed names.now)) }
        ensures reads { reads_of self.new ≡ reads_of self.old }
    {
        self.put(b"traces ");
        self.put_number(names.len() as u64);
        self.put_names(names);
    }

    /// Puts a refusal: its number and its words.
    fn put_refused(&mut self, refusal: Refusal)
        ensures bytes { Sends (W.contents (inner_of self.old)) (has_failed self.old)
            (W.contents (inner_of self.new)) (has_failed self.new) (reply_text (refused refusal)) }
        ensures reads { reads_of self.new ≡ reads_of self.old }
    {
        self.put(b"refused ");
        self.put_number(u64::from(refusal.number()));
        self.put(b" ");
        self.put(refusal.text().as_bytes());
    }

    /// Puts the text of a reply.
    pub(crate) fn put_reply(&mut self, reply: &Reply)
        ensures bytes { Sends (W.contents (inner_of self.old)) (has_failed self.old)
            (W.contents (inner_of self.new)) (has_failed self.new) (reply_text (reply_data reply.now)) }
        ensures reads { reads_of self.new ≡ reads_of self.old }
    {
        match reply {
            Reply::Done => self.put(b"ok"),
            Reply::MarkSet(mark) => self.put_mark(*mark),
            Reply::Consistent(witness) => self.put_consistent(&witness.schedule, &witness.fixed),
            Reply::Inconsistent => self.put(b"inconsistent"),
            Reply::Undecided => self.put(b"undecided"),
            Reply::Because(situations) => self.put_refutation(situations),
            Reply::Cycle(derivation) => self.put_cycle(derivation),
            Reply::Unknown => self.put(b"unknown"),
            Reply::Ops(operations) => self.put_operations(operations),
            Reply::Traces(names) => self.put_traces(names),
            Reply::Refused(refusal) => self.put_refused(*refusal),
        }
    }

    /// Puts the line of a reply.
    pub(crate) fn put_reply_line(&mut self, name: Option<&Name>, reply: &Reply)
        ensures bytes { Sends (W.contents (inner_of self.old)) (has_failed self.old)
            (W.contents (inner_of self.new)) (has_failed self.new)
            (reply_line (option_copied name.entry) (reply_data reply.now)) }
        ensures reads { reads_of self.new ≡ reads_of self.old }
    {
        self.put(shown_name(name));
        self.put(b" ");
        self.put_reply(reply);
        self.put(b"\n");
    }
}

/// Hands the line of a reply to the writer, under the name of its session or under `?`. Takes no memory.
pub(crate) fn send_reply<W: Write>(
    writer: &mut Port<W>,
    name: Option<&Name>,
    reply: &Reply,
) -> Result<(), RunFault>
    requires { has_failed writer.old ≡ false }
    ensures bytes { WritesText (W.contents (inner_of writer.old)) (W.contents (inner_of writer.new)) result
        (reply_line (option_copied name.entry) (reply_data reply.now)) }
    ensures fault { IfErr result (λ fault. fault ≡ RunFault.WriteFailed) }
    ensures failed { has_failed writer.new ≡ is_err result }
    ensures reads { reads_of writer.new ≡ reads_of writer.old }
{
    writer.put_reply_line(name, reply);
    if writer.failed() {
        return Err(RunFault::WriteFailed);
    }
    Ok(())
}

/// Writes the line of a reply under the name of its session, or under `?`, and flushes. Takes no memory.
///
/// Fails with `WriteFailed` where the writer fails, which has a beginning of the line then.
pub fn write_reply<W: Write>(
    writer: &mut Port<W>,
    name: Option<&Name>,
    reply: &Reply,
) -> Result<(), RunFault>
    requires { has_failed writer.old ≡ false }
    ensures bytes { WritesText (W.contents (inner_of writer.old)) (W.contents (inner_of writer.new)) result
        (reply_line (option_copied name.entry) (reply_data reply.now)) }
    ensures fault { IfErr result (λ fault. fault ≡ RunFault.WriteFailed) }
    ensures failed { has_failed writer.new ≡ is_err result }
    ensures reads { reads_of writer.new ≡ reads_of writer.old }
{
    send_reply(writer, name, reply)?;
    writer.flush()?;
    Ok(())
}
