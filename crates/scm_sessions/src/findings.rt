//! What a run found that a tester wants to know at once.
ghost use Rattle.std.specs.Prelude.{◌≡◌, [], ◌∷◌, option_copied};
ghost use Rattle.scm_book.specs.Machine.{reply_data};
ghost use Rattle.scm_sessions.specs.inner.Answering.{answer_replies};
ghost use Rattle.scm_sessions.specs.inner.Findings.{findings_of, refusal_of_reply, answers_inconsistent, answers_undecided, earlier as earlier_line, found_in, refused_line, status_of, with_answer, with_findings, with_line, with_last_reply};

use crate::replies::Answer;
use scm_book::Reply;
use scm_sequences::Refusal;

/// A line that was refused.
#[derive(Clone, Copy, Debug, PartialEq, Eq)]
pub struct RefusedLine {
    /// The number of the line in its script, from 1 on; at most 2^64 - 1.
    pub number: u64,
    /// Why it was refused.
    pub refusal: Refusal,
}

/// What a run found: the first line that was refused, and whether a question was answered that the trace isn't consistent, or
/// that it is undecided.
#[derive(Clone, Copy, Debug, PartialEq, Eq)]
pub struct Findings {
    lines: u64,
    refused: Option<RefusedLine>,
    is_inconsistent: bool,
    is_undecided: bool,
}

/// Why a call was refused, where the reply says that.
fn refusal_of(reply: &Reply) -> Option<Refusal>
    ensures { result ≡ refusal_of_reply (reply_data reply.now) }
{
    match reply {
        Reply::Refused(refusal) => Some(*refusal),
        _ => None,
    }
}

/// Whether a reply says that no legal schedule exists.
fn says_inconsistent(reply: &Reply) -> bool
    ensures { result ≡ answers_inconsistent (reply_data reply.now) }
{
    matches!(
        reply,
        Reply::Inconsistent | Reply::Because(_) | Reply::Cycle(_)
    )
}

/// Whether a reply says that nothing is known.
fn says_undecided(reply: &Reply) -> bool
    ensures { result ≡ answers_undecided (reply_data reply.now) }
{
    matches!(reply, Reply::Undecided)
}

/// The line of this number, where the reply says that it was refused.
fn line_refused(number: u64, reply: &Reply) -> Option<RefusedLine>
    ensures { result ≡ refused_line number (reply_data reply.now) }
{
    let refusal = refusal_of(reply)?;
    Some(RefusedLine { number, refusal })
}

/// The one of two refused lines that stands first.
fn earlier(one: Option<RefusedLine>, other: Option<RefusedLine>) -> Option<RefusedLine>
    ensures { result ≡ earlier_line one other }
{
    match (one, other) {
        (Some(line), Some(next)) => Some(if line.number <= next.number {
            line
        } else {
            next
        }),
        (None, _) => other,
        (_, None) => one,
    }
}

impl Findings {
    /// What is found before the first line.
    pub fn new() -> Findings
        ensures { result ≡ findings_of [] [] }
    {
        Findings {
            lines: 0,
            refused: None,
            is_inconsistent: false,
            is_undecided: false,
        }
    }

    /// The first line that was refused, where one was.
    pub fn refused(&self) -> Option<RefusedLine>
        ensures { result ≡ self.now.refused }
    {
        self.refused
    }

    /// The status that tells the worst: 4 where a line was refused, else 5 where a question was answered `inconsistent`,
    /// `because` or `cycle`, else 6 where one was answered `undecided`, else 0.
    pub fn status(&self) -> u8
        ensures { result ≡ status_of self.now }
    {
        if self.refused.is_some() {
            4
        } else if self.is_inconsistent {
            5
        } else if self.is_undecided {
            6
        } else {
            0
        }
    }

    /// How many lines were read.
    pub(crate) fn lines(&self) -> u64
        ensures { result ≡ self.now.lines }
    {
        self.lines
    }

    /// One line more was read.
    pub(crate) fn add_line(&mut self)
        ensures { self.new ≡ with_line self.old }
    {
        self.lines = self.lines.saturating_add(1);
    }

    /// This is the reply to the last line.
    fn add_reply(&mut self, reply: &Reply)
        ensures { self.new ≡ with_last_reply self.old (reply_data reply.now) }
    {
        if self.refused.is_none() {
            self.refused = refusal_of(reply).map(|refusal| RefusedLine {
                number: self.lines,
                refusal,
            });
        }
        self.is_inconsistent |= says_inconsistent(reply);
        self.is_undecided |= says_undecided(reply);
    }

    /// One line more was read, with this answer where it has one.
    pub(crate) fn add_answer(&mut self, answer: Option<&Answer>)
        ensures { self.new ≡ with_answer self.old (answer_replies (option_copied answer.entry)) }
    {
        self.add_line();
        if let Some(answer) = answer {
            self.add_reply(&answer.reply);
        }
    }

    /// This is the reply to the line of this number, whichever lines were answered before it.
    pub(crate) fn add_reply_to(&mut self, number: u64, reply: &Reply)
        ensures { self.new ≡ with_findings self.old (found_in ((number, reply_data reply.now) ∷ [])) }
    {
        self.refused = earlier(self.refused, line_refused(number, reply));
        self.is_inconsistent |= says_inconsistent(reply);
        self.is_undecided |= says_undecided(reply);
    }

    /// This was found in other lines of the script.
    pub(crate) fn add_findings(&mut self, other: &Findings)
        ensures { self.new ≡ with_findings self.old other.now }
    {
        self.refused = earlier(self.refused, other.refused);
        self.is_inconsistent |= other.is_inconsistent;
        self.is_undecided |= other.is_undecided;
    }
}
