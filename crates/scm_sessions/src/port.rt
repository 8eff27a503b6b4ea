//! A reader or a writer that remembers whether a call of it failed, and the pieces of text that are written to it.
ghost use Rattle.std.specs.Prelude.{◌≡◌, ◌+◌, ◌<◌, ◌≤◌, ◌||◌, decimal, flat_map, length, true, false, is_err, IfOk, OnOk, OnErr};
ghost use Rattle.std.specs.Io.{ReadsAtMost, WritesAtMost};
ghost use Rattle.std.specs.Io.KnownBytes.{Keeps, ReadConsumes, WriteAppends};
ghost use Rattle.scm_sequences.specs.declared.limits.TheConstants.{MOST_READS};
ghost use Rattle.scm_sessions.specs.Script.{inner_of, has_failed, reads_of, WritesText, Sends, spaced, spaced_word};

use itoa::Buffer;
use scm_cells::Name;
use scm_sequences::MOST_READS;
use std::io::{Read, Write};

/// The reader failed, or the port's `MOST_READS` reads were used up.
#[derive(Clone, Copy, Debug, PartialEq, Eq)]
pub(crate) struct ReadFault;

/// The writer failed, or took no byte of what was left to write.
#[derive(Clone, Copy, Debug, PartialEq, Eq)]
pub(crate) struct WriteFault;

/// A reader or a writer, with whether a call of it failed and how many times it was read.
#[derive(Drop)]
pub struct Port<T> {
    inner: T,
    failed: bool,
    reads: u64,
}

impl<T> Port<T> {
    /// A port that has not failed and was not read.
    pub fn new(inner: T) -> Port<T>
        ensures inner { inner_of result ≡ inner }
        ensures failed { has_failed result ≡ false }
        ensures reads { reads_of result ≡ 0 }
    {
        Port {
            inner,
            failed: false,
            reads: 0,
        }
    }

    /// Whether a call failed.
    pub fn failed(&self) -> bool
        ensures { result ≡ has_failed self.now }
    {
        self.failed
    }

    /// The reader or the writer.
    pub fn into_inner(self) -> T
        ensures { result ≡ inner_of self }
    {
        let Port { inner, .. } = self;
        inner
    }
}

impl<R: Read> Port<R> {
    /// Asks the reader once. A port that was read `MOST_READS` times fails, and its reader is not asked.
    pub(crate) fn read(&mut self, buf: &mut [u8]) -> Result<usize, ReadFault>
        ensures bound { ReadsAtMost result buf.new }
        ensures bytes { ReadConsumes (R.remaining (inner_of self.old)) (R.remaining (inner_of self.new)) result buf.new }
        ensures ok { OnOk result (has_failed self.new ≡ has_failed self.old) }
        ensures err { OnErr result (has_failed self.new ≡ true) }
        ensures counted { reads_of self.old < MOST_READS → reads_of self.new ≡ reads_of self.old + 1 }
        ensures spent { MOST_READS ≤ reads_of self.old →
            (result ≡ Err record {}) × (inner_of self.new ≡ inner_of self.old) × (reads_of self.new ≡ reads_of self.old) }
    {
        if self.reads >= MOST_READS {
            self.failed = true;
            return Err(ReadFault);
        }
        self.reads += 1;
        match self.inner.read(buf) {
            Ok(n) => Ok(n),
            Err(_) => {
                self.failed = true;
                Err(ReadFault)
            }
        }
    }
}

impl<W: Write> Port<W> {
    /// Asks the writer once, and says how many bytes it took. None taken is a fault.
    fn write_some(&mut self, bytes: &[u8]) -> Result<usize, WriteFault>
        requires { 0 < length bytes.now }
        ensures bound { WritesAtMost result bytes.now }
        ensures bytes { WriteAppends (W.contents (inner_of self.old)) (W.contents (inner_of self.new)) result bytes.now }
        ensures some { IfOk result (λ n. 0 < n) }
        ensures failed { has_failed self.new ≡ has_failed self.old || is_err result }
        ensures reads { reads_of self.new ≡ reads_of self.old }
    {
        match self.inner.write(bytes) {
            Ok(0) | Err(_) => {
                self.failed = true;
                Err(WriteFault)
            }
            Ok(n) => Ok(n),
        }
    }

    /// Writes all these bytes; at a fault the writer has a beginning of them.
    pub(crate) fn write_all(&mut self, bytes: &[u8]) -> Result<(), WriteFault>
        ensures bytes { WritesText (W.contents (inner_of self.old)) (W.contents (inner_of self.new)) result bytes.now }
        ensures failed { has_failed self.new ≡ has_failed self.old || is_err result }
        ensures reads { reads_of self.new ≡ reads_of self.old }
    {
        let mut at = 0;
        while at < bytes.len() {
            at += self.write_some(&bytes[at..])?;
        }
        Ok(())
    }

    /// Writes all these bytes, or nothing where a call had failed before.
    pub(crate) fn put(&mut self, bytes: &[u8])
        ensures bytes { Sends (W.contents (inner_of self.old)) (has_failed self.old)
            (W.contents (inner_of self.new)) (has_failed self.new) bytes.now }
        ensures reads { reads_of self.new ≡ reads_of self.old }
    {
        if !self.failed {
            let _ = self.write_all(bytes);
        }
    }

    /// Asks the writer to pass on what it holds.
    pub(crate) fn flush(&mut self) -> Result<(), WriteFault>
        ensures bytes { Keeps (W.contents (inner_of self.old)) (W.contents (inner_of self.new)) }
        ensures failed { has_failed self.new ≡ has_failed self.old || is_err result }
        ensures reads { reads_of self.new ≡ reads_of self.old }
    {
        match self.inner.flush() {
            Ok(()) => Ok(()),
            Err(_) => {
                self.failed = true;
                Err(WriteFault)
            }
        }
    }

    /// Puts the decimal digits of a number.
    pub(crate) fn put_number(&mut self, number: u64)
        ensures bytes { Sends (W.contents (inner_of self.old)) (has_failed self.old)
            (W.contents (inner_of self.new)) (has_failed self.new) (decimal number) }
        ensures reads { reads_of self.new ≡ reads_of self.old }
    {
        let mut buffer = Buffer::new();
        self.put(buffer.format(number).as_bytes());
    }

    /// Puts a space and a number.
    pub(crate) fn put_value(&mut self, value: u64)
        ensures bytes { Sends (W.contents (inner_of self.old)) (has_failed self.old)
            (W.contents (inner_of self.new)) (has_failed self.new) (spaced value) }
        ensures reads { reads_of self.new ≡ reads_of self.old }
    {
        self.put(b" ");
        self.put_number(value);
    }

    /// Puts a space and a name.
    pub(crate) fn put_spaced_name(&mut self, name: Name)
        ensures bytes { Sends (W.contents (inner_of self.old)) (has_failed self.old)
            (W.contents (inner_of self.new)) (has_failed self.new) (spaced_word name) }
        ensures reads { reads_of self.new ≡ reads_of self.old }
    {
        self.put(b" ");
        self.put(name.bytes());
    }

    /// Puts each of these numbers, with a space before it.
    pub(crate) fn put_numbers(&mut self, numbers: &[u8])
        ensures bytes { Sends (W.contents (inner_of self.old)) (has_failed self.old)
            (W.contents (inner_of self.new)) (has_failed self.new) (flat_map spaced numbers.now) }
        ensures reads { reads_of self.new ≡ reads_of self.old }
    {
        for number in numbers {
            self.put_value(u64::from(*number));
        }
    }

    /// Puts each of these names, with a space before it.
    pub(crate) fn put_names(&mut self, names: &[Name])
        ensures bytes { Sends (W.contents (inner_of self.old)) (has_failed self.old)
            (W.contents (inner_of self.new)) (has_failed self.new) (flat_map spaced_word names.now) }
        ensures reads { reads_of self.new ≡ reads_of self.old }
    {
        for name in names {
            self.put_spaced_name(*name);
        }
    }
}
