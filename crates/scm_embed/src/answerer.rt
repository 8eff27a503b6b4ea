//! What a handle stands for.
ghost use Rattle.std.specs.Prelude.{◌≡◌, ◌≢◌, OnOk, option_copied};
ghost use Rattle.scm_book.specs.Machine.{call_data, reply_data};
ghost use Rattle.scm_embed.specs.Exports.{IsNewMonitor, HoldsReply, MakesCallWithCode, OpensAt, CallsAt, ReportsAt, reply_code};
ghost use Rattle.scm_embed.specs.Evidence.{NamesAt, CountsAt, ReadsAt, TellsPiece};
ghost use Rattle.scm_sessions.specs.Asking.{line_given, line_of, asked_by};
ghost use Rattle.scm_sessions.specs.Script.{AnswersCall, answer_text};
ghost use Rattle.scm_sessions.specs.inner.Answering.{AnswersWith};

use crate::calls::{access_of, call_of};
use crate::codes::{BAD_NUMBER, DONE, NO_EVIDENCE, NO_MEMORY, STILL_OPEN, code_of};
use crate::evidence::{Piece, count_rows, read_piece};
use crate::names::number_for;
use crate::opening::{Cell, declarations};
use scm_book::{Book, Call, Reply};
use scm_cells::Name;
use scm_sequences::{LONGEST_LINE, NoMemory, Refusal};
use scm_sessions::{Answer, MakeCalls, Port, Sessions, answer_line, write_reply};
use std::alloc::Global;

/// The sessions and their book, and the last answer, with its text where `fetch` wrote it.
#[derive(Drop)]
pub struct Answerer {
    alloc: Global,
    pub(crate) sessions: Sessions,
    pub(crate) answer: Option<Answer>,
    pub(crate) text: Vec<u8>,
    pub(crate) names: Vec<Name>,
}

/// A line without the carriage return at its end, `None` where it is too long.
fn cut(line: &[u8]) -> Option<&[u8]>
    ensures { line_given (option_copied result) ≡ line_of line.now }
{
    if line.len() > LONGEST_LINE {
        return None;
    }
    match line {
        [text @ .., b'\r'] => Some(text),
        whole => Some(whole),
    }
}

impl Answerer {
    /// No session has entered, and no trace is open.
    pub(crate) fn new(alloc: Global) -> Answerer
        ensures { IsNewMonitor result }
    {
        Answerer {
            alloc,
            sessions: Sessions::new(alloc, Book::new(alloc)),
            answer: None,
            text: Vec::new(alloc),
            names: Vec::new(alloc),
        }
    }

    /// Answers a line, and keeps the answer. Its text is to be fetched.
    pub(crate) fn read(&mut self, line: &[u8])
        ensures names { self.new.names ≡ self.old.names }
        ensures answer { AnswersWith AnswersCall self.old.sessions (asked_by (line_of line.now)) self.new.answer self.new.sessions }
    {
        self.answer = answer_line(self.alloc, &mut self.sessions, cut(line));
    }

    /// Writes the text of the last answer. Where memory is refused it can be fetched later.
    pub(crate) fn fetch(&mut self) -> Result<(), NoMemory>
        ensures sessions { self.new.sessions ≡ self.old.sessions }
        ensures answer { self.new.answer ≡ self.old.answer }
        ensures names { self.new.names ≡ self.old.names }
        ensures text { OnOk result (self.new.text.items ≡ answer_text self.old.answer) }
    {
        self.text.clear();
        let Some(answer) = &self.answer else {
            return Ok(());
        };
        let text = std::mem::replace(&mut self.text, Vec::new(self.alloc));
        let mut port = Port::new(text);
        let written = write_reply(&mut port, answer.name.as_ref(), &answer.reply);
        self.text = port.into_inner();
        match written {
            Ok(()) => Ok(()),
            Err(_) => Err(NoMemory),
        }
    }

    /// Tells the number of a name, which it gets where it has none.
    pub(crate) fn number_of(&mut self, word: &[u8], number: &mut usize) -> u32
        ensures named { NamesAt self.old word.now result number.new self.new }
        ensures other { result ≢ DONE → number.new ≡ number.old }
    {
        let Some(name) = Name::read(word) else {
            return BAD_NUMBER;
        };
        let Ok(place) = number_for(&mut self.names, name) else {
            return NO_MEMORY;
        };
        *number = place;
        DONE
    }

    /// Keeps the reply to a session, and gives its number.
    fn keep(&mut self, session: Name, reply: Reply) -> u32
        ensures code { result ≡ reply_code (reply_data reply) }
        ensures answer { HoldsReply self.new session (reply_data reply) }
        ensures sessions { self.new.sessions ≡ self.old.sessions }
        ensures names { self.new.names ≡ self.old.names }
    {
        let code = code_of(&reply);
        self.answer = Some(Answer {
            name: Some(session),
            reply,
        });
        code
    }

    /// Makes a call of a session, and keeps the answer.
    fn make(&mut self, session: Name, call: Call) -> u32
        ensures { MakesCallWithCode self.old session (call_data call) result self.new }
    {
        let reply = self.sessions.call(session, call);
        self.keep(session, reply)
    }

    /// Opens a trace.
    pub(crate) fn open(
        &mut self,
        session: usize,
        trace: usize,
        procs: u64,
        budget: u64,
        cells: &[Cell],
    ) -> u32
        ensures { OpensAt self.old session trace procs budget cells.now result self.new }
    {
        let (Some(session), Some(trace)) = (self.names.get(session), self.names.get(trace)) else {
            return BAD_NUMBER;
        };
        let (session, name) = (*session, *trace);
        let Ok(read) = declarations(self.alloc, &self.names, cells) else {
            return self.keep(session, Reply::Refused(Refusal::NoMemory));
        };
        let Some(cells) = read else {
            return BAD_NUMBER;
        };
        self.make(
            session,
            Call::OpenTrace {
                name,
                procs,
                budget,
                cells,
            },
        )
    }

    /// Makes a call about a trace.
    pub(crate) fn call(&mut self, session: usize, trace: usize, kind: u32, number: u64) -> u32
        ensures { CallsAt self.old session trace kind number result self.new }
    {
        let (Some(session), Some(trace)) = (self.names.get(session), self.names.get(trace)) else {
            return BAD_NUMBER;
        };
        let session = *session;
        let Some(call) = call_of(kind, *trace, number) else {
            return BAD_NUMBER;
        };
        self.make(session, call)
    }

    /// Reports an access of a process.
    pub(crate) fn report(
        &mut self,
        session: usize,
        trace: usize,
        process: u64,
        kind: u32,
        cell: usize,
        first: u64,
        second: u64,
    ) -> u32
        ensures { ReportsAt self.old session trace process kind cell first second result self.new }
    {
        let (Some(session), Some(trace), Some(cell)) = (
            self.names.get(session),
            self.names.get(trace),
            self.names.get(cell),
        ) else {
            return BAD_NUMBER;
        };
        let (session, name) = (*session, *trace);
        let Some(access) = access_of(kind, *cell, first, second) else {
            return BAD_NUMBER;
        };
        self.make(
            session,
            Call::Report {
                name,
                process,
                access,
            },
        )
    }

    /// Tells how many rows a part of the last reply has.
    pub(crate) fn count(&self, part: u32, count: &mut usize) -> u32
        ensures counted { CountsAt self.now part result count.new }
        ensures other { result ≢ DONE → count.new ≡ count.old }
    {
        let Some(answer) = &self.answer else {
            return NO_EVIDENCE;
        };
        let Some(rows) = count_rows(&answer.reply, part) else {
            return NO_EVIDENCE;
        };
        *count = rows;
        DONE
    }

    /// Tells what stands in a field of a row of a part of the last reply.
    pub(crate) fn evidence(&mut self, part: u32, row: usize, field: usize, number: &mut u64) -> u32
        ensures read { ReadsAt self.old part row field result number.new self.new }
        ensures other { result ≢ DONE → number.new ≡ number.old }
    {
        let Some(answer) = &self.answer else {
            return NO_EVIDENCE;
        };
        let Some(found) = read_piece(&answer.reply, part, row, field) else {
            return NO_EVIDENCE;
        };
        let Some(piece) = found else {
            return BAD_NUMBER;
        };
        self.tell(piece, number)
    }

    /// Tells a piece of evidence: a cell by the number of its name.
    fn tell(&mut self, piece: Piece, number: &mut u64) -> u32
        ensures told { TellsPiece self.old piece result number.new self.new }
        ensures other { result ≢ DONE → number.new ≡ number.old }
    {
        match piece {
            Piece::Number(n) => *number = n,
            Piece::Open => return STILL_OPEN,
            Piece::Cell(name) => {
                let Ok(place) = number_for(&mut self.names, name) else {
                    return NO_MEMORY;
                };
                *number = place as u64;
            }
        }
        DONE
    }
}
