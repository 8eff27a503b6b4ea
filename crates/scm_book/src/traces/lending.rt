//! Questions that are searched beside the traces.
ghost use Rattle.std.specs.Prelude.{◌≡◌, None, IfSome, MatchOption};
ghost use Rattle.scm_book.specs.inner.Sets.{machine_in, sets_in};
ghost use Rattle.scm_book.specs.inner.Loans.{IsLentOf, IsTakenBack};
ghost use Rattle.scm_book.specs.inner.Plans.{IsExplained, reply_in, loan_in};
ghost use Rattle.scm_book.specs.Machine.{InTrace};

use super::Traces;
use crate::loan::Loan;
use crate::{Outlook, Plan};
use scm_cells::Name;

impl Traces {
    /// The plan of a question about the trace of this name.
    pub(crate) fn plan(&mut self, name: &Name, mark: Option<u64>) -> Plan
        ensures machine { machine_in self.new ≡ machine_in self.old }
        ensures lends { MatchOption (loan_in result) (sets_in self.new ≡ sets_in self.old) (λ loan. IsLentOf (machine_in self.old) (sets_in self.old) name.now mark loan (sets_in self.new)) }
        ensures known { IfSome (reply_in result) (λ reply. InTrace (machine_in self.new) name.now (λ state. IsExplained state mark reply)) }
    {
        let Some(trace) = self.traces.get_mut(name) else {
            return Plan::Ready(Outlook::Unknown);
        };
        trace.plan(self.alloc, *name, mark)
    }

    /// The first trace whose set may be wanted for work.
    fn wanting(&self) -> Option<Name> {
        for place in 0..self.traces.len() {
            let (name, trace) = self.traces.get_index(place).unwrap();
            if trace.may_want_work() {
                return Some(*name);
            }
        }
        None
    }

    /// Whether there is one.
    pub(crate) fn may_want_work(&self) -> bool {
        self.wanting().is_some()
    }

    /// The set of a trace, lent for work. `None`, with everything as it was, where none wants any, or the first one that might
    /// turns out not to.
    pub(crate) fn lend_work(&mut self) -> Option<Loan>
        ensures machine { machine_in self.new ≡ machine_in self.old }
        ensures lends { MatchOption result (sets_in self.new ≡ sets_in self.old) (λ loan. IsLentOf (machine_in self.old) (sets_in self.old) loan.name None loan (sets_in self.new)) }
    {
        let name = self.wanting()?;
        let trace = self.traces.get_mut(&name)?;
        trace.lend_work(self.alloc, name)
    }

    /// Takes a question back, whatever happened since.
    pub(crate) fn take_back(&mut self, loan: Loan)
        ensures machine { machine_in self.new ≡ machine_in self.old }
        ensures takes { IsTakenBack (machine_in self.old) (sets_in self.old) loan (sets_in self.new) }
    {
        let Some(trace) = self.traces.get_mut(&loan.name) else {
            drop(loan);
            return;
        };
        trace.take_back(loan);
    }
}
