//! Questions about an open trace.
ghost use Rattle.std.specs.Prelude.{◌≡◌, ◌+◌, ◌<◌, ◌^◌, length, None, Ok, Err, IfOk, IfErr, MatchResult};
ghost use Rattle.scm_sequences.specs.Sequences.{Refuses};
ghost use Rattle.scm_book.specs.inner.Asking.{AsksFor};
ghost use Rattle.scm_book.specs.Machine.{reply_data, answer_data, question_cause, Asks, AsksCycle, AsksWhy};
ghost use Rattle.scm_book.specs.inner.Sets.{lengths_at_mark, most_steps, SearchesAt};
ghost use Rattle.scm_book.specs.inner.Sound.{IsKeptFor};

use super::OpenTrace;
use crate::Reply;
use crate::cycle::refuted_shortly;
use crate::question::Question;
use scm_frontier::Steps;
use scm_marks::Marks;
use scm_sequences::{Lengths, Refusal};
use std::alloc::Global;

/// The lengths that a question is about: the present ones, or those of a mark. Refused `NoSuchMark`.
pub(super) fn lengths_at<'a>(
    marks: &'a Marks,
    present: &'a Lengths,
    mark: Option<u64>,
) -> Result<&'a Lengths, Refusal>
    ensures { MatchResult result (λ lengths. lengths_at_mark marks.now present.now mark ≡ Ok lengths.now) (λ refusal. lengths_at_mark marks.now present.now mark ≡ Err refusal) }
{
    match mark {
        Some(mark) => marks.get(mark),
        None => Ok(present),
    }
}

impl OpenTrace {
    /// Whether the trace is consistent under its budget, as it is or as it stood at a mark. Where the answer `is_near`, no
    /// schedule is looked for. Refused `NoSuchMark`.
    pub(crate) fn ask(
        &mut self,
        alloc: Global,
        mark: Option<u64>,
        is_near: bool,
        steps: &mut Steps,
    ) -> Result<Reply, Refusal>
        requires room { steps.old + most_steps self.old.state < 2 ^ 64 }
        ensures ok { IfOk result (λ reply. (question_cause self.old.state mark ≡ None) × Asks self.old.state mark (reply_data reply)) }
        ensures err { IfErr result (Refuses (question_cause self.old.state mark)) }
        ensures same { self.new.state ≡ self.old.state }
        ensures set { SearchesAt self.old.state mark (answer_data result) steps.old steps.new self.old.set self.new.set }
    {
        self.question(alloc, mark, false, is_near, steps)
    }

    /// The same, with a refutation where the trace is not consistent. Refused `NoSuchMark`.
    pub(crate) fn why(
        &mut self,
        alloc: Global,
        mark: Option<u64>,
        is_near: bool,
        steps: &mut Steps,
    ) -> Result<Reply, Refusal>
        requires room { steps.old + most_steps self.old.state < 2 ^ 64 }
        ensures ok { IfOk result (λ reply. (question_cause self.old.state mark ≡ None) × AsksWhy self.old.state mark (reply_data reply)) }
        ensures err { IfErr result (Refuses (question_cause self.old.state mark)) }
        ensures same { self.new.state ≡ self.old.state }
        ensures set { SearchesAt self.old.state mark (answer_data result) steps.old steps.new self.old.set self.new.set }
    {
        self.question(alloc, mark, true, is_near, steps)
    }

    /// Answers the question; where it `explains`, `Because` stands for `Inconsistent`.
    fn question(
        &mut self,
        alloc: Global,
        mark: Option<u64>,
        explains: bool,
        is_near: bool,
        steps: &mut Steps,
    ) -> Result<Reply, Refusal>
        requires room { steps.old + most_steps self.old.state < 2 ^ 64 }
        ensures ok { IfOk result (λ reply. (question_cause self.old.state mark ≡ None) × AsksFor explains self.old.state mark (reply_data reply)) }
        ensures err { IfErr result (Refuses (question_cause self.old.state mark)) }
        ensures same { self.new.state ≡ self.old.state }
        ensures set { SearchesAt self.old.state mark (answer_data result) steps.old steps.new self.old.set self.new.set }
    {
        let present = self.sequences.lengths();
        let lengths = lengths_at(&self.marks, &present, mark)?;
        let question = Question {
            alloc,
            cells: &self.cells,
            sequences: &self.sequences,
            lengths,
            limit: self.budget.limit(),
            explains,
            is_near,
            schedules: &self.schedules,
        };
        let reply = question.answer(&mut self.reach, steps)?;
        self.schedules.learn(&reply, lengths);
        Ok(reply)
    }

    /// A short refutation of the trace, as it is or as it stood at a mark, or `Unknown`. Refused `NoSuchMark`.
    pub(crate) fn cycle(&self, alloc: Global, mark: Option<u64>) -> Result<Reply, Refusal>
        ensures ok { IfOk result (λ reply. (question_cause self.now.state mark ≡ None) × AsksCycle self.now.state mark (reply_data reply)) }
        ensures err { IfErr result (Refuses (question_cause self.now.state mark)) }
    {
        let present = self.sequences.lengths();
        let lengths = lengths_at(&self.marks, &present, mark)?;
        Ok(refuted_shortly(alloc, &self.cells, &self.sequences, lengths))
    }

    /// The most steps that a question takes.
    pub(crate) fn most_steps(&self) -> u64
        ensures { result ≡ most_steps self.now.state }
    {
        self.budget.limit() as u64 * self.sequences.procs() as u64 + 2
    }

    /// How many situations are kept.
    pub(crate) fn held(&self) -> usize
        ensures kept { IsKeptFor self.now.state self.now.set }
        ensures held { result ≡ length self.now.set.members }
    {
        self.reach.held()
    }
}
