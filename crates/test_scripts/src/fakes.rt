//! Readers and writers for tests: they give or take little at a time, and fail.

use std::cell::Cell;
use std::io;
use std::io::{ErrorKind, Read, Write};

/// What a fake reader and a fake writer saw.
#[derive(Drop)]
pub(crate) struct Wire {
    pub(crate) reads: Cell<usize>,
    pub(crate) writes: Cell<usize>,
    lines_given: Cell<usize>,
    replies_written: Cell<usize>,
    pub(crate) replies_flushed: Cell<usize>,
    /// Whether the reader was asked while the reply to a line that it had given was not flushed, as it isn't once the
    /// writer failed.
    pub(crate) is_late: Cell<bool>,
}

impl Wire {
    pub(crate) fn new() -> Wire {
        Wire {
            reads: Cell::new(0),
            writes: Cell::new(0),
            lines_given: Cell::new(0),
            replies_written: Cell::new(0),
            replies_flushed: Cell::new(0),
            is_late: Cell::new(false),
        }
    }
}

/// How many of these bytes are line feeds.
fn feeds_in(bytes: &[u8]) -> usize {
    bytes.iter().filter(|byte| **byte == b'\n').count()
}

fn raise(count: &Cell<usize>, by: usize) {
    count.set(count.get().wrapping_add(by));
}

/// Gives at most `step` bytes of a script at each read, and fails once it gave `limit`.
#[derive(Drop)]
pub(crate) struct StepReader<'a> {
    pub(crate) script: &'a [u8],
    pub(crate) step: usize,
    pub(crate) limit: usize,
    pub(crate) wire: &'a Wire,
}

impl Read for StepReader<'_> {
    fn read(&mut self, buf: &mut [u8]) -> io::Result<usize> {
        raise(&self.wire.reads, 1);
        if self.wire.replies_flushed.get() < self.wire.lines_given.get() {
            self.wire.is_late.set(true);
        }
        if self.limit == 0 {
            return Err(ErrorKind::Other.into());
        }
        let most = self.step.min(self.limit);
        let given = most.min(self.script.len()).min(buf.len());
        let (front, rest) = self.script.split_at(given);
        buf[..given].copy_from_slice(front);
        raise(&self.wire.lines_given, feeds_in(front));
        self.script = rest;
        self.limit -= given;
        Ok(given)
    }
}

/// Takes at most `step` bytes at each write, and fails once it took `limit`, at a flush too.
#[derive(Drop)]
pub(crate) struct StepWriter<'a> {
    pub(crate) taken: Vec<u8>,
    pub(crate) step: usize,
    pub(crate) limit: usize,
    pub(crate) wire: &'a Wire,
}

impl Write for StepWriter<'_> {
    fn write(&mut self, buf: &[u8]) -> io::Result<usize> {
        raise(&self.wire.writes, 1);
        if self.limit == 0 {
            return Err(ErrorKind::Other.into());
        }
        let count = self.step.min(self.limit).min(buf.len());
        let front = &buf[..count];
        self.taken.extend_from_slice(front)?;
        raise(&self.wire.replies_written, feeds_in(front));
        self.limit -= count;
        Ok(count)
    }

    fn flush(&mut self) -> io::Result<()> {
        if self.limit == 0 {
            return Err(ErrorKind::Other.into());
        }
        self.wire
            .replies_flushed
            .set(self.wire.replies_written.get());
        Ok(())
    }
}
