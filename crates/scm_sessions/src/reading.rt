//! The lines of a script, one at a time.
ghost use Rattle.std.specs.Prelude.{◌≡◌, ◌==◌, ◌<◌, ◌≤◌, length, take, drop, position, IfSome, vec_capacity, vec_len};
ghost use Rattle.std.proofs.Props.{props};
ghost use Rattle.scm_sequences.specs.declared.limits.TheConstants.{LONGEST_LINE};
ghost use Rattle.scm_sessions.specs.declared.reading.TheConstants.{CHUNK};

use crate::port::{Port, ReadFault};
use scm_sequences::{LONGEST_LINE, NoMemory};
use std::alloc::Global;
use std::io::Read;

/// How many bytes one read asks for.
const CHUNK: usize = 65_536;

/// How a line was cut off.
#[derive(Clone, Copy, Debug, PartialEq, Eq)]
pub(crate) enum Cut {
    /// At its line feed.
    Whole,
    /// At the end of the script.
    Last,
    /// There is no further line.
    End,
}

/// Reads a script line by line. It holds one line and what one read gave, and knows where the first line feed stands among
/// the bytes at hand: so a line is searched for its end once.
#[derive(Drop)]
pub(crate) struct LineReader {
    chunk: Vec<u8>,
    start: usize,
    end: usize,
    feed: Option<usize>,
    line: Vec<u8>,
    is_long: bool,
    ghost ordered: { start ≤ end },
    ghost within: { end ≤ vec_len chunk },
    ghost whole: { vec_len chunk ≡ CHUNK },
    ghost first: { feed ≡ position (λ b. b == 10) (drop start (take end chunk.items)) } by { Prim.hlevel props },
    ghost room: { LONGEST_LINE ≤ vec_capacity line },
}

/// Where the first line feed stands.
fn first_feed(bytes: &[u8]) -> Option<usize>
    ensures place { result ≡ position (λ b. b == 10) bytes.now }
    ensures within { IfSome result (λ place. place < length bytes.now) }
{
    bytes.iter().position(|&byte| byte == b'\n')
}

impl LineReader {
    ghost use Rattle.std.specs.Prelude.{◌≡◌, ◌==◌, ◌<◌, ◌≤◌, ◌+◌, ◌||◌, ℕ, List, ◌++◌, [], length, take, drop, position, nat_lt, true, false, is_some, IfSome, IfOk, OnErr, MatchBool, MatchResult, option_copied};
    ghost use Rattle.std.specs.Io.KnownBytes.{Keeps, Consumes, IsAtEnd};
    ghost use Rattle.scm_sequences.specs.declared.limits.TheConstants.{LONGEST_LINE};
    ghost use Rattle.scm_sessions.specs.Asking.{line_given, HasNoFeed};
    ghost use Rattle.scm_sessions.specs.Script.{inner_of, has_failed};
    ghost use Rattle.scm_sessions.specs.inner.Reading.{unread_of, left_of, most_bytes_left, held_line, TakesLine};

    /// A reader that holds nothing yet.
    pub(crate) fn new(alloc: Global) -> Result<LineReader, NoMemory>
        ensures { IfOk result (λ lines. unread_of lines ≡ []) }
    {
        Ok(LineReader {
            chunk: vec![in alloc; 0; CHUNK]?,
            start: 0,
            end: 0,
            feed: None,
            line: Vec::with_capacity(alloc, LONGEST_LINE)?,
            is_long: false,
        })
    }

    /// Where the first line feed stands among the bytes at hand: those that were read and not yet taken.
    fn feed(&self) -> Option<usize>
        ensures place { result ≡ position (λ b. b == 10) (unread_of self.now) }
        ensures within { IfSome result (λ place. place < length (unread_of self.now)) }
    {
        self.feed
    }

    /// Whether the next line can be taken up to its line feed without a read.
    pub(crate) fn holds_line(&self) -> bool
        ensures { result ≡ is_some (position (λ b. b == 10) (unread_of self.now)) }
    {
        self.feed.is_some()
    }

    /// Whether a byte of the script is at hand. Asks the port only where none is left of its last read.
    fn has_bytes<R: Read>(&mut self, port: &mut Port<R>) -> Result<bool, ReadFault>
        ensures some { IfOk result (λ some. MatchBool some (0 < length (unread_of self.new))
            (IsAtEnd (left_of R.remaining self.new port.new))) }
        ensures none { OnErr result (unread_of self.new ≡ []) }
        ensures kept { Keeps (left_of R.remaining self.old port.old) (left_of R.remaining self.new port.new) }
        ensures left { most_bytes_left self.new port.new ≤ most_bytes_left self.old port.old }
        ensures line { self.new.line ≡ self.old.line }
        ensures is_long { self.new.is_long ≡ self.old.is_long }
        ensures failed { MatchResult result (λ _. has_failed port.new ≡ has_failed port.old) (λ _. has_failed port.new ≡ true) }
    {
        if self.start == self.end {
            let filled = port.read(&mut self.chunk)?;
            self.start = 0;
            self.end = filled;
            self.feed = first_feed(&self.chunk[..filled]);
        }
        Ok(self.start < self.end)
    }

    /// Takes so many of the bytes at hand into the line, as far as it has room for them.
    fn take_bytes(&mut self, count: usize)
        requires within { count ≤ length (unread_of self.old) }
        requires room { length self.old.line.items ≤ LONGEST_LINE }
        ensures unread { unread_of self.new ≡ drop count (unread_of self.old) }
        ensures line { self.new.line.items ≡ take LONGEST_LINE (self.old.line.items ++ take count (unread_of self.old)) }
        ensures is_long { self.new.is_long ≡ self.old.is_long || nat_lt LONGEST_LINE (length self.old.line.items + count) }
        ensures start { self.new.start ≡ self.old.start + count }
        ensures end { self.new.end ≡ self.old.end }
    {
        let unread = &self.chunk[self.start..self.end];
        let kept = count.min(LONGEST_LINE - self.line.len());
        self.line.extend_from_slice(&unread[..kept]).unwrap();
        self.is_long |= kept < count;
        self.skip_bytes(count);
    }

    /// Leaves so many of the bytes at hand out, and searches the others for a line feed.
    fn skip_bytes(&mut self, count: usize)
        requires { count ≤ length (unread_of self.old) }
        ensures unread { unread_of self.new ≡ drop count (unread_of self.old) }
        ensures line { self.new.line ≡ self.old.line }
        ensures is_long { self.new.is_long ≡ self.old.is_long }
        ensures start { self.new.start ≡ self.old.start + count }
        ensures end { self.new.end ≡ self.old.end }
    {
        self.start += count;
        self.feed = first_feed(&self.chunk[self.start..self.end]);
    }

    /// Takes the next line of the script and holds it. A line that is longer than `LONGEST_LINE` bytes is read to
    /// its end and not kept.
    pub(crate) fn next_line<R: Read>(&mut self, port: &mut Port<R>) -> Result<Cut, ReadFault>
        ensures ok { IfOk result (λ cut. TakesLine cut (left_of R.remaining self.old port.old)
            (left_of R.remaining self.new port.new) (held_line self.new)) }
        ensures read { OnErr result ((part : List ℕ) × HasNoFeed part
            × Consumes (left_of R.remaining self.old port.old) (R.remaining (inner_of port.new)) part) }
        ensures fewer { IfOk result (λ cut. cut ≡ Cut.Whole → most_bytes_left self.new port.new < most_bytes_left self.old port.old) }
        ensures failed { MatchResult result (λ _. has_failed port.new ≡ has_failed port.old) (λ _. has_failed port.new ≡ true) }
    {
        self.line.clear();
        self.is_long = false;
        while self.has_bytes(port)? {
            if let Some(place) = self.feed() {
                self.take_bytes(place);
                self.skip_bytes(1);
                return Ok(Cut::Whole);
            }
            self.take_bytes(self.end - self.start);
        }
        Ok(if self.line.is_empty() {
            Cut::End
        } else {
            Cut::Last
        })
    }

    /// The line that was taken last, without the carriage return at its end, or `None` where it was too long.
    pub(crate) fn line(&self) -> Option<&[u8]>
        ensures { line_given (option_copied result) ≡ held_line self.now }
    {
        if self.is_long {
            return None;
        }
        match self.line.as_slice() {
            [text @ .., b'\r'] => Some(text),
            line => Some(line),
        }
    }
}
