//! How a line is answered.
ghost use Rattle.std.specs.Prelude.{option_copied};
ghost use Rattle.scm_sessions.specs.Asking.{line_given, asked_by, asked_data};
ghost use Rattle.scm_sessions.specs.inner.Answering.{AnswersWith};

use crate::asking::{Asked, read_asked};
use crate::replies::Answer;
use scm_book::{Call, Reply};
use scm_cells::Name;
use scm_sequences::Refusal;
use std::alloc::Global;

/// Sessions that make calls, each known by its name.
pub trait MakeCalls {
    ghost use Rattle.std.specs.Prelude.{ℕ, List};
    ghost use Rattle.scm_book.specs.Machine.{CallData, ReplyData, call_data, reply_data};
    ghost use Rattle.scm_sessions.specs.Asking.{good};
    ghost use Rattle.scm_sessions.specs.Script.{Answers};

    ghost calls: { Self → List ℕ → CallData → ReplyData → Self → Type 0 };

    /// Makes a call of the session of this name, which enters where it is new.
    fn call(&mut self, name: Name, call: Call) -> Reply
        ensures { Answers calls self.old (good name (call_data call)) (reply_data result) self.new };
}

/// The answer to a line that asks this, where it has one.
fn answer_asked<S: MakeCalls>(sessions: &mut S, asked: Asked) -> Option<Answer>
    ensures { AnswersWith S.calls sessions.old (asked_data asked) result sessions.new }
{
    match asked {
        Asked::Nothing => None,
        Asked::Bad(name) => Some(Answer {
            name,
            reply: Reply::Refused(Refusal::BadLine),
        }),
        Asked::Good { session, call } => Some(Answer {
            name: Some(session),
            reply: sessions.call(session, call),
        }),
    }
}

/// The answer to a line, where it has one; `None` stands for a line that is too long.
pub fn answer_line<S: MakeCalls>(
    alloc: Global,
    sessions: &mut S,
    line: Option<&[u8]>,
) -> Option<Answer>
    ensures { AnswersWith S.calls sessions.old (asked_by (line_given (option_copied line.entry))) result sessions.new }
{
    match read_asked(alloc, line) {
        Ok(asked) => answer_asked(sessions, asked),
        Err(unread) => Some(Answer {
            name: Some(unread.session),
            reply: Reply::Refused(Refusal::NoMemory),
        }),
    }
}
