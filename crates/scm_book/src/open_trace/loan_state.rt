//! What those who lend sets have to know of a trace.

/// A trace that was looked at for work is looked at again once it has grown by this part of itself.
const GROWTH_TO_LOOK: u64 = 1_024;

/// What a set is lent for.
#[derive(Clone, Copy)]
pub(crate) enum Purpose {
    /// A question is searched.
    Answer,
    /// Situations are looked for that questions will want.
    Work,
}

/// Whether the set of a trace is lent at present, and whether it is to be looked at for work. It is no part of the machine, and
/// nothing rests on it.
#[derive(Drop)]
pub(crate) struct LoanState {
    is_lent: bool,
    // Whether something was left when the set came back.
    is_unfinished: bool,
    // How often the trace changed before it was looked at last, and since.
    before: u64,
    since: u64,
}

impl LoanState {
    /// Of a new trace.
    pub(crate) fn new() -> LoanState {
        LoanState {
            is_lent: false,
            is_unfinished: false,
            before: 0,
            since: 0,
        }
    }

    /// The trace changed.
    pub(crate) fn change(&mut self) {
        self.since = self.since.saturating_add(1);
    }

    /// Something that was out of the question may be found now.
    pub(crate) fn retry(&mut self) {
        self.is_unfinished = true;
    }

    /// It is looked at for work.
    pub(crate) fn look(&mut self) {
        self.before = self.before.saturating_add(self.since);
        self.since = 0;
        self.is_unfinished = false;
    }

    /// The set is lent.
    pub(crate) fn lend(&mut self) {
        self.is_lent = true;
    }

    /// It is back.
    pub(crate) fn take_back(&mut self, is_unfinished: bool) {
        self.is_lent = false;
        self.is_unfinished |= is_unfinished;
    }

    /// Whether it may be lent for work: it is here, and the trace grew since it was looked at, or nothing changed and something
    /// was left.
    pub(crate) fn may_want_work(&self) -> bool {
        let has_grown = self.since > 0 && self.since.saturating_mul(GROWTH_TO_LOOK) >= self.before;
        self.is_here() && (has_grown || self.is_unfinished && self.since == 0)
    }

    /// Whether it isn't lent.
    pub(crate) fn is_here(&self) -> bool {
        !self.is_lent
    }
}
