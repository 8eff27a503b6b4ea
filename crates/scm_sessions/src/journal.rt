//! The text of a journal.
ghost use Rattle.std.specs.Prelude.{◌≡◌, map, false, is_err, IfErr};
ghost use Rattle.scm_book.specs.Machine.{entry_data};
ghost use Rattle.scm_sessions.specs.Script.{inner_of, has_failed, reads_of, WritesText, Sends};
ghost use Rattle.scm_sessions.specs.inner.JournalText.{AreNamed, entry_line, entry_lines, journal_head, journal_text};

use crate::{Port, RunFault};
use scm_book::{Book, Entry};
use scm_cells::Name;
use std::io::Write;

impl<W: Write> Port<W> {
    /// Puts the line that says how many entries there are.
    fn put_head(&mut self, entries: usize)
        ensures bytes { Sends (W.contents (inner_of self.old)) (has_failed self.old)
            (W.contents (inner_of self.new)) (has_failed self.new) (journal_head entries) }
        ensures reads { reads_of self.new ≡ reads_of self.old }
    {
        self.put(b"journal ");
        self.put_number(entries as u64);
        self.put(b"\n");
    }

    /// Puts the line of the entry at a place, under the name of its session.
    fn put_entry(&mut self, place: usize, name: Name, entry: &Entry)
        ensures bytes { Sends (W.contents (inner_of self.old)) (has_failed self.old)
            (W.contents (inner_of self.new)) (has_failed self.new) (entry_line place name (entry_data entry.now)) }
        ensures reads { reads_of self.new ≡ reads_of self.old }
    {
        self.put_number(place as u64);
        self.put(b" ");
        self.put(name.bytes());
        self.put_value(entry.number);
        self.put(b" ");
        self.put_reply(&entry.reply);
        self.put(b"\n");
    }

    /// Puts a line for each of these entries.
    fn put_entries(&mut self, entries: &[Entry], names: &[Name])
        requires named { AreNamed names.now (map entry_data entries.now) }
        ensures bytes { Sends (W.contents (inner_of self.old)) (has_failed self.old)
            (W.contents (inner_of self.new)) (has_failed self.new) (entry_lines names.now 0 (map entry_data entries.now)) }
        ensures reads { reads_of self.new ≡ reads_of self.old }
    {
        for (place, entry) in entries.iter().enumerate() {
            self.put_entry(place, names[usize::from(entry.session)], entry);
        }
    }

    /// Puts the journal of a book.
    fn put_journal(&mut self, book: &Book, names: &[Name])
        requires named { AreNamed names.now book.now.journal }
        ensures bytes { Sends (W.contents (inner_of self.old)) (has_failed self.old)
            (W.contents (inner_of self.new)) (has_failed self.new) (journal_text names.now book.now.journal) }
        ensures reads { reads_of self.new ≡ reads_of self.old }
    {
        let entries = book.entries();
        self.put_head(entries.len());
        self.put_entries(entries, names);
    }
}

/// Writes the journal of a book and flushes: a line with the number of its entries, then a line for each entry, with its
/// place, the name of its session, its number within the session, and the text of its reply. Takes no memory.
///
/// Fails with `WriteFailed` where the writer fails, which has a beginning of the text then.
pub fn write_journal<W: Write>(
    writer: &mut Port<W>,
    book: &Book,
    names: &[Name],
) -> Result<(), RunFault>
    requires writes { has_failed writer.old ≡ false }
    requires named { AreNamed names.now book.now.journal }
    ensures bytes { WritesText (W.contents (inner_of writer.old)) (W.contents (inner_of writer.new)) result
        (journal_text names.now book.now.journal) }
    ensures fault { IfErr result (λ fault. fault ≡ RunFault.WriteFailed) }
    ensures failed { has_failed writer.new ≡ is_err result }
    ensures reads { reads_of writer.new ≡ reads_of writer.old }
{
    writer.put_journal(book, names);
    if writer.failed() {
        return Err(RunFault::WriteFailed);
    }
    writer.flush()?;
    Ok(())
}
